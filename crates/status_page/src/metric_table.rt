//! Which metrics there are, and what each shows of a snapshot.

ghost use Rattle.std.specs.Prelude.{◌≡◌};
ghost use Rattle.status_page.specs.MetricTable.{relay_value, dest_value, receiver_value};

use crate::metrics::{open_number, truth_number};
use crate::snapshot::{DestSnapshot, ReceiverSnapshot, Snapshot};
use log_lines::LossReason;

/// A metric.
pub(crate) struct Metric {
    /// Its name.
    pub(crate) name: &'static str,
    /// Its explanation.
    pub(crate) help: &'static str,
    /// How it changes.
    pub(crate) kind: MetricKind,
    /// What it shows.
    pub(crate) shows: Shown,
}

/// How a metric changes.
#[derive(Clone, Copy)]
pub(crate) enum MetricKind {
    /// It never falls while the relay runs.
    Counter,
    /// It rises and falls.
    Gauge,
}

/// What a metric shows, and so which labels it has.
#[derive(Clone, Copy)]
pub(crate) enum Shown {
    /// The version and the configuration.
    Build,
    /// A number of the relay.
    Relay(RelayMetric),
    /// A number of each destination.
    Dests(DestMetric),
    /// A number of each receiver.
    Receivers(ReceiverMetric),
    /// What each receiver could not use, by the reason.
    Rejections,
    /// What each receiver closed or lost, by the reason.
    Losses,
}

/// What a metric says of the relay.
#[derive(Clone, Copy)]
pub(crate) enum RelayMetric {
    Stopping,
    InputAt,
    Uptime,
    QueueSize,
    Started,
    Processor,
    Resident,
    Descriptors,
    MostDescriptors,
}

/// What a metric says of a destination.
#[derive(Clone, Copy)]
pub(crate) enum DestMetric {
    Up,
    Changed,
    Made,
    Lost,
    FailedTries,
    Queued,
    Capacity,
    Oldest,
    Stalled,
    Offered,
    Kept,
    Dropped,
    Taken,
    WrittenAt,
    Writes,
    WrittenBytes,
    SpoolDatapoints,
    SpoolBytes,
    SpoolAge,
    SpoolRate,
    SpoolRoom,
    SpoolFull,
    Since,
}

/// What a metric says of a receiver.
#[derive(Clone, Copy)]
pub(crate) enum ReceiverMetric {
    Up,
    Connections,
    Taken,
    Refused,
    Datapoints,
    BadLines,
    BadPickles,
    BadRows,
    BadNames,
    EmptiedNames,
    Lost(LossReason),
}

/// All metrics, in the order of the text.
pub(crate) static METRICS: [Metric; 45] = [
    Metric {
        name: "relayd_build_info",
        help: "The version of the program, and a checksum of the files that it was started with.",
        kind: MetricKind::Gauge,
        shows: Shown::Build,
    },
    Metric {
        name: "relayd_stopping",
        help: "Whether the relay is about to end: it receives nothing any more, and sends what is queued.",
        kind: MetricKind::Gauge,
        shows: Shown::Relay(RelayMetric::Stopping),
    },
    Metric {
        name: "relayd_last_datapoint_timestamp_seconds",
        help: "When a receiver last accepted a datapoint, in seconds since 1970; the start if none came.",
        kind: MetricKind::Gauge,
        shows: Shown::Relay(RelayMetric::InputAt),
    },
    Metric {
        name: "relayd_uptime_seconds",
        help: "Old name: for how many seconds the relay has run; see process_start_time_seconds.",
        kind: MetricKind::Gauge,
        shows: Shown::Relay(RelayMetric::Uptime),
    },
    Metric {
        name: "relayd_destination_queue_size",
        help: "Old name: how many datapoints each queue holds at most; see relayd_destination_queue_capacity.",
        kind: MetricKind::Gauge,
        shows: Shown::Relay(RelayMetric::QueueSize),
    },
    Metric {
        name: "process_start_time_seconds",
        help: "When the process started, in seconds since 1970.",
        kind: MetricKind::Gauge,
        shows: Shown::Relay(RelayMetric::Started),
    },
    Metric {
        name: "process_cpu_seconds_total",
        help: "The processor's time that it has taken.",
        kind: MetricKind::Counter,
        shows: Shown::Relay(RelayMetric::Processor),
    },
    Metric {
        name: "process_resident_memory_bytes",
        help: "Its memory that is resident.",
        kind: MetricKind::Gauge,
        shows: Shown::Relay(RelayMetric::Resident),
    },
    Metric {
        name: "process_open_fds",
        help: "The descriptors that it has open.",
        kind: MetricKind::Gauge,
        shows: Shown::Relay(RelayMetric::Descriptors),
    },
    Metric {
        name: "process_max_fds",
        help: "The descriptors that it may have open.",
        kind: MetricKind::Gauge,
        shows: Shown::Relay(RelayMetric::MostDescriptors),
    },
    Metric {
        name: "relayd_destination_up",
        help: "Whether the destination has a connection.",
        kind: MetricKind::Gauge,
        shows: Shown::Dests(DestMetric::Up),
    },
    Metric {
        name: "relayd_destination_state_changed_timestamp_seconds",
        help: "When it was connected, or was first seen without a connection, in seconds since 1970.",
        kind: MetricKind::Gauge,
        shows: Shown::Dests(DestMetric::Changed),
    },
    Metric {
        name: "relayd_destination_connections_total",
        help: "The connections that were made.",
        kind: MetricKind::Counter,
        shows: Shown::Dests(DestMetric::Made),
    },
    Metric {
        name: "relayd_destination_connection_losses_total",
        help: "The connections that were lost.",
        kind: MetricKind::Counter,
        shows: Shown::Dests(DestMetric::Lost),
    },
    Metric {
        name: "relayd_destination_failed_tries_total",
        help: "The tries to connect that failed.",
        kind: MetricKind::Counter,
        shows: Shown::Dests(DestMetric::FailedTries),
    },
    Metric {
        name: "relayd_destination_queued",
        help: "The datapoints in its queue.",
        kind: MetricKind::Gauge,
        shows: Shown::Dests(DestMetric::Queued),
    },
    Metric {
        name: "relayd_destination_queue_capacity",
        help: "How many datapoints its queue holds at most.",
        kind: MetricKind::Gauge,
        shows: Shown::Dests(DestMetric::Capacity),
    },
    Metric {
        name: "relayd_destination_oldest_queued_seconds",
        help: "For how long at most the oldest datapoint in its queue has been there; 0 if there is none.",
        kind: MetricKind::Gauge,
        shows: Shown::Dests(DestMetric::Oldest),
    },
    Metric {
        name: "relayd_destination_stalled_seconds",
        help: "For how long its queue has had datapoints and has given none to a connection.",
        kind: MetricKind::Gauge,
        shows: Shown::Dests(DestMetric::Stalled),
    },
    Metric {
        name: "relayd_destination_offered_total",
        help: "The datapoints that its queue was offered.",
        kind: MetricKind::Counter,
        shows: Shown::Dests(DestMetric::Offered),
    },
    Metric {
        name: "relayd_destination_kept_total",
        help: "The datapoints that its queue kept.",
        kind: MetricKind::Counter,
        shows: Shown::Dests(DestMetric::Kept),
    },
    Metric {
        name: "relayd_destination_dropped_total",
        help: "The datapoints that its queue dropped, since it was full.",
        kind: MetricKind::Counter,
        shows: Shown::Dests(DestMetric::Dropped),
    },
    Metric {
        name: "relayd_destination_taken_total",
        help: "The datapoints that a sender took out of its queue.",
        kind: MetricKind::Counter,
        shows: Shown::Dests(DestMetric::Taken),
    },
    Metric {
        name: "relayd_destination_last_write_timestamp_seconds",
        help: "When its queue last gave datapoints to a connection, in seconds since 1970; 0 if it never did.",
        kind: MetricKind::Gauge,
        shows: Shown::Dests(DestMetric::WrittenAt),
    },
    Metric {
        name: "relayd_destination_writes_total",
        help: "The writes that its connections took: a batch, or a part of one.",
        kind: MetricKind::Counter,
        shows: Shown::Dests(DestMetric::Writes),
    },
    Metric {
        name: "relayd_destination_written_bytes_total",
        help: "The bytes that its connections took.",
        kind: MetricKind::Counter,
        shows: Shown::Dests(DestMetric::WrittenBytes),
    },
    Metric {
        name: "relayd_destination_spool_datapoints",
        help: "The datapoints that wait in its file.",
        kind: MetricKind::Gauge,
        shows: Shown::Dests(DestMetric::SpoolDatapoints),
    },
    Metric {
        name: "relayd_destination_spool_bytes",
        help: "Their bytes.",
        kind: MetricKind::Gauge,
        shows: Shown::Dests(DestMetric::SpoolBytes),
    },
    Metric {
        name: "relayd_destination_spool_age_seconds",
        help: "How long ago its file was last written; 0 if nothing waits there.",
        kind: MetricKind::Gauge,
        shows: Shown::Dests(DestMetric::SpoolAge),
    },
    Metric {
        name: "relayd_destination_spool_datapoints_per_second",
        help: "The datapoints of its file that connections took in each second of the last sample.",
        kind: MetricKind::Gauge,
        shows: Shown::Dests(DestMetric::SpoolRate),
    },
    Metric {
        name: "relayd_destination_spool_room_bytes",
        help: "How many bytes more its files may have while the relay runs.",
        kind: MetricKind::Gauge,
        shows: Shown::Dests(DestMetric::SpoolRoom),
    },
    Metric {
        name: "relayd_destination_spool_full",
        help: "Whether its files take no more for now.",
        kind: MetricKind::Gauge,
        shows: Shown::Dests(DestMetric::SpoolFull),
    },
    Metric {
        name: "relayd_destination_since_seconds",
        help: "Old name: for how many seconds it has had a connection, or has had none; see relayd_destination_state_changed_timestamp_seconds.",
        kind: MetricKind::Gauge,
        shows: Shown::Dests(DestMetric::Since),
    },
    Metric {
        name: "relayd_receiver_up",
        help: "Whether the receiver takes what producers send.",
        kind: MetricKind::Gauge,
        shows: Shown::Receivers(ReceiverMetric::Up),
    },
    Metric {
        name: "relayd_receiver_connections",
        help: "The connections that are open now.",
        kind: MetricKind::Gauge,
        shows: Shown::Receivers(ReceiverMetric::Connections),
    },
    Metric {
        name: "relayd_receiver_accepted_connections_total",
        help: "The connections that it has taken.",
        kind: MetricKind::Counter,
        shows: Shown::Receivers(ReceiverMetric::Taken),
    },
    Metric {
        name: "relayd_receiver_refused_connections_total",
        help: "The connections that it refused.",
        kind: MetricKind::Counter,
        shows: Shown::Receivers(ReceiverMetric::Refused),
    },
    Metric {
        name: "relayd_receiver_datapoints_total",
        help: "The datapoints that it accepted.",
        kind: MetricKind::Counter,
        shows: Shown::Receivers(ReceiverMetric::Datapoints),
    },
    Metric {
        name: "relayd_receiver_emptied_names_total",
        help: "The accepted datapoints that rewriting dropped on purpose: it emptied their names.",
        kind: MetricKind::Counter,
        shows: Shown::Receivers(ReceiverMetric::EmptiedNames),
    },
    Metric {
        name: "relayd_receiver_rejected_total",
        help: "What it could not use: lines, pickles, rows of pickles, and names that rewriting made invalid.",
        kind: MetricKind::Counter,
        shows: Shown::Rejections,
    },
    Metric {
        name: "relayd_receiver_lost_total",
        help: "The connections that it closed and the datagrams that were lost, by the reason.",
        kind: MetricKind::Counter,
        shows: Shown::Losses,
    },
    Metric {
        name: "relayd_receiver_bad_lines_total",
        help: "Old name of relayd_receiver_rejected_total with reason line.",
        kind: MetricKind::Counter,
        shows: Shown::Receivers(ReceiverMetric::BadLines),
    },
    Metric {
        name: "relayd_receiver_bad_pickles_total",
        help: "Old name of relayd_receiver_rejected_total with reason pickle.",
        kind: MetricKind::Counter,
        shows: Shown::Receivers(ReceiverMetric::BadPickles),
    },
    Metric {
        name: "relayd_receiver_bad_rows_total",
        help: "Old name of relayd_receiver_rejected_total with reason row.",
        kind: MetricKind::Counter,
        shows: Shown::Receivers(ReceiverMetric::BadRows),
    },
    Metric {
        name: "relayd_receiver_bad_names_total",
        help: "Old name of relayd_receiver_rejected_total with reason name.",
        kind: MetricKind::Counter,
        shows: Shown::Receivers(ReceiverMetric::BadNames),
    },
];

/// What a metric says of the relay, and what the system counts of the process.
pub(crate) fn relay_value(metric: RelayMetric, now: &Snapshot) -> u64
    ensures { result ≡ relay_value metric now.now }
{
    match metric {
        RelayMetric::Stopping => truth_number(now.is_stopping),
        RelayMetric::InputAt => now.input_at,
        RelayMetric::Uptime => now.uptime,
        RelayMetric::QueueSize => now.queue_size,
        RelayMetric::Started => now.started,
        RelayMetric::Processor => now.process.processor,
        RelayMetric::Resident => now.process.resident,
        RelayMetric::Descriptors => now.process.descriptors,
        RelayMetric::MostDescriptors => now.process.most_descriptors,
    }
}

/// What a metric says of a destination.
pub(crate) fn dest_value(metric: DestMetric, dest: &DestSnapshot) -> u64
    ensures { result ≡ dest_value metric dest.now }
{
    match metric {
        DestMetric::Up => truth_number(dest.is_up),
        DestMetric::Changed => dest.changed_at,
        DestMetric::Made => dest.connections.made,
        DestMetric::Lost => dest.connections.lost,
        DestMetric::FailedTries => dest.connections.failed_tries,
        DestMetric::Queued => dest.counts.queued,
        DestMetric::Capacity => dest.size,
        DestMetric::Oldest => dest.oldest,
        DestMetric::Stalled => dest.stalled,
        DestMetric::Offered => dest.counts.offered,
        DestMetric::Kept => dest.counts.kept,
        DestMetric::Dropped => dest.counts.dropped,
        DestMetric::Taken => dest.counts.taken,
        DestMetric::WrittenAt => dest.written_at,
        DestMetric::Writes => dest.writes.writes,
        DestMetric::WrittenBytes => dest.writes.bytes,
        DestMetric::SpoolDatapoints => dest.spool.datapoints,
        DestMetric::SpoolBytes => dest.spool.bytes,
        DestMetric::SpoolAge => dest.spool.age,
        DestMetric::SpoolRate => dest.spool.rate,
        DestMetric::SpoolRoom => dest.spool.room,
        DestMetric::SpoolFull => truth_number(dest.spool.is_full),
        DestMetric::Since => dest.since,
    }
}

/// What a metric says of a receiver.
pub(crate) fn receiver_value(metric: ReceiverMetric, receiver: &ReceiverSnapshot) -> u64
    ensures { result ≡ receiver_value metric receiver.now }
{
    match metric {
        ReceiverMetric::Up => open_number(receiver.state),
        ReceiverMetric::Connections => receiver.counts.connections,
        ReceiverMetric::Taken => receiver.taken,
        ReceiverMetric::Refused => receiver.counts.refused,
        ReceiverMetric::Datapoints => receiver.counts.readers.datapoints,
        ReceiverMetric::BadLines => receiver.counts.readers.faults.bad_lines,
        ReceiverMetric::BadPickles => receiver.counts.readers.faults.bad_pickles,
        ReceiverMetric::BadRows => receiver.counts.readers.faults.bad_rows,
        ReceiverMetric::BadNames => receiver.counts.readers.faults.bad_names,
        ReceiverMetric::EmptiedNames => receiver.counts.emptied,
        ReceiverMetric::Lost(reason) => receiver.losses.count_of(reason),
    }
}
