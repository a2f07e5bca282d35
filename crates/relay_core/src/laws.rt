//! The laws of the core, over every run. Each is the contract of a function that does nothing.
ghost use Rattle.relay_core.specs.Headline.{PrefixLaw, IsolatedLaw};
ghost use Rattle.relay_core.specs.Laws.{AnyOffersPrefixLaw, AnyCarriesInOrderLaw, AnyHandsOverKeptLaw, AnyWritesWholeLaw};
ghost use Rattle.relay_core.specs.Agreement.{AnyIsolatedLaw};
ghost use Rattle.relay_core.specs.FirstPath.{FirstPathLaw};
ghost use Rattle.relay_core.specs.OneRun.{OneRunLaw, AnyOneRunLaw};
ghost use Rattle.relay_core.specs.Weave.{OneWeaveLaw, WeaveReplaysLaw, SameTakesLaw};

/// Whatever happens, and in whatever order: each reader has offered a destination, in order, a
/// first part of its accepted datapoints that the configuration sends there, rewritten, and the
/// rest waits (`offers`), so that the k-th offer carries the k-th of them (`carries`); what the
/// destination's queue kept was handed over, in order, and the rest is still queued (`hands_over`);
/// and what it kept was written as whole lines, in order, each once, but for what is in hand and
/// what is queued. The writer writes a line that a lost connection cut again, whole (`writes`).
///
/// It holds for the relay as it reads lines, pickles and datagrams, and for every plan, queue size,
/// batch limit, readers and events. [`World`](crate::World) represents such a run.
pub fn prefix()
    ensures { PrefixLaw }
{
    // No effect at run time: the proof reads the laws.
    prefix_of_any();
    reader_core::laws::orderly();
    reader_core::laws::configuration_of_plan();
}

/// Two runs that agree on the steps at a destination, on its queue size and batch limit, and on
/// what each reader has for it, hand it the same bytes on each connection and count the same there,
/// including drops, whatever else differs between them: the plans, the readers, how their input was
/// cut, all other events.
///
/// It holds for the relay as it reads, and for any two plans that have the destination.
pub fn isolated()
    ensures { IsolatedLaw }
{
    // No effect at run time: the proof reads the laws.
    isolated_of_any();
    reader_core::laws::orderly();
    reader_core::laws::configuration_of_plan();
}

/// What `prefix` says, for every way of reading and every configuration (a plan's is one of them).
/// The claim that offers are a first part of what a reader has needs a reading that is orderly, so
/// that more bytes on a connection only add datapoints, and that no route names a destination
/// twice.
pub fn prefix_of_any()
    ensures offers { AnyOffersPrefixLaw }
    ensures carries { AnyCarriesInOrderLaw }
    ensures hands_over { AnyHandsOverKeptLaw }
    ensures writes { AnyWritesWholeLaw }
{}

/// What `isolated` says, for every way of reading that is orderly, and any two configurations that
/// have the destination and whose routes name no destination twice.
pub fn isolated_of_any()
    ensures { AnyIsolatedLaw }
{}

/// For line readers, one destination, and the route that sends every datapoint there unchanged:
/// what a reader has offered, followed by what waits, is the accepted datapoints of its whole
/// input; and what the queue kept was handed over, in order, or is still queued.
pub fn first_path()
    ensures { FirstPathLaw }
{
    // No effect at run time: the proof reads the law.
    line_text::laws::orderly();
}

/// Every weave of one queue's history and one writer's log leaves the destination in the same state
/// (`state`), with the queue to which the history leads (`queue`). A history and a log that have a
/// weave have the same takes (`takes`). In a weave each take has its own limit.
pub fn one_weave()
    ensures state { OneWeaveLaw }
    ensures queue { WeaveReplaysLaw }
    ensures takes { SameTakesLaw }
{}

/// What readers, queues, doors and writers recorded, each by itself, is one run of the whole relay
/// if it agrees in an order. It agrees if
/// - each queue's history replays from the empty queue, and its takes are those of its writer's
///   log;
/// - each step of a writer's log is allowed after those before it, its hand being what the
///   history's takes hand over;
/// - the offers of each reader are in one record, and are those of the histories, with the same
///   numbers;
/// - each reader's record is what its logged input sends, except that offers of the last piece may
///   be missing, and in the log no piece follows one that closed its connection;
/// - the order is a common order of the histories' steps and of each record's.
///
/// The run has the offers and takes in that order. Right before an offer are the pieces and ends of
/// its reader's log up to the piece that gave it, right before a take what its writer's log has
/// before it; the rest is at the end. Each of its events is allowed when it happens, and its offers
/// and takes are what the histories say, in that order; at its end each reader was fed its log and
/// has made the offers of its record, and each destination is what every weave of its history and
/// log leaves. So `prefix` and `isolated` hold for it.
///
/// It holds for the relay as it reads, and for every plan, queue size and batch limit.
pub fn one_run()
    ensures { OneRunLaw }
{
    // No effect at run time: the proof reads the laws.
    one_run_of_any();
    reader_core::laws::orderly();
}

/// What `one_run` says, for every way of reading that is orderly and every configuration.
pub fn one_run_of_any()
    ensures { AnyOneRunLaw }
{}
