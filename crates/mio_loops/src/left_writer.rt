//! What a loop leaves of a destination.

ghost use Rattle.std.specs.Prelude.{◌≡◌, ◌≤◌, []};

use dest_queue::Hand;
use dest_writer::Writer;
use relay_base::DestId;

/// What a loop leaves of a destination that goes on elsewhere: its writer, with the batch in hand, and the connection, if there
/// is one.
#[derive(Drop)]
pub struct LeftWriter<W> {
    /// The writer. If it has a connection, that is `sink`.
    pub batch: LeftBatch,
    /// The connection.
    pub sink: Option<W>,
}

/// A writer with the batch in hand, and the hand that was lent for batches of at most `limit` datapoints, which is empty.
#[derive(Drop)]
pub struct LeftBatch {
    /// How many datapoints a batch has at most.
    pub limit: usize,
    /// The writer.
    pub writer: Writer,
    /// The hand that was lent.
    pub lent: Hand,
    ghost least: { 1 ≤ limit },
    ghost fits: { writer.limit ≡ limit },
    ghost empty: { lent.points ≡ [] },
    ghost room: { limit ≤ lent.room },
}

/// Who takes what a loop leaves.
pub trait LeftTaker<W> {
    ghost use Rattle.std.specs.Prelude.{ℕ};
    ghost use Rattle.mio_loops.specs.declared.left_writer.LeftWriter.{LeftWriter};

    // How what is left of a destination changes who takes it. Where an impl does not say, any change will do.
    ghost takes: { Self → ℕ → LeftWriter W → Self → Type 0 } = { λ _ _ _ _. Unit {0} };

    /// Takes what is left of a destination.
    fn take_left(&mut self, dest: DestId, left: LeftWriter<W>)
        ensures { takes self.old dest.0 left self.new };
}
