//! The offers of a reader that wait.
ghost use Rattle.std.specs.Prelude.{◌≡◌, ◌<◌, ◌≤◌, List, [], length, true, false};
ghost use Rattle.reader_core.specs.Configuration.{Dispatch};
ghost use Rattle.reader_core.specs.Reader.{is_closed};
ghost use Rattle.queue_records.specs.Offers.{IsRefusedBy};
ghost use Rattle.mio_loops.specs.Reading.{WaitingMade, AreMadeOrRefused};

use queue_records::Door;
use reader_core::Reader;

/// Makes the waiting offers of a reader, in order, until one is refused, and returns whether all were made.
/// An offer to a destination at or beyond `dests` is refused. What the door holds between offers is dropped at the end.
pub fn make_offers<D: Door>(reader: &mut Reader, number: usize, dests: usize, door: &mut D) -> bool
    requires dests { dests ≤ length (D.record_of door.old).totals }
    ensures made { (made : List Dispatch) × WaitingMade number made reader.old reader.new
        (D.record_of door.old) (D.record_of door.new) }
    ensures all { result ≡ true → reader.new.waiting ≡ [] }
    ensures refused { result ≡ false → 0 < length reader.new.waiting }
    // Only the door, or a destination that there is not, stops it.
    ensures waits { AreMadeOrRefused (IsRefusedBy D.may_refuse number) dests reader.new.waiting }
    ensures closed { is_closed reader.new ≡ is_closed reader.old }
    ensures dests { dests ≤ length (D.record_of door.new).totals }
{
    let mut hold = None;
    for _ in 0..reader.waiting() {
        let Some((dest, point)) = reader.first_offer() else {
            return true;
        };
        if dest.0 >= dests {
            return false;
        }
        let Ok(_kept) = door.offer_with(&mut hold, number, dest, point) else {
            return false;
        };
        let Some(_made) = reader.next_offer() else {
            unreachable!();
        };
    }
    true
}
