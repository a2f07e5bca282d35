//! The datapoints of a frame.
ghost use Rattle.std.specs.Prelude.{◌≡◌, ◌+◌, ◌≤◌, ◌++◌, ◌∷◌, [], length, take, is_err, IfOk, OnOk, OnErr};
ghost use Rattle.pickle_subset.specs.Pickle.{rows_of};
ghost use Rattle.pickle_subset.specs.RowPoint.{point_of};
ghost use Rattle.pickle_subset.specs.Accepted.{row_points, bad_row_count, frame_points, frame_bad_rows};
ghost use Rattle.pickle_subset.specs.Views.{row, rows};

use crate::fault::PickleFault;
use crate::loading::load_with;
use crate::value::Row;
use line_text::{LineFault, Moment, Point, SharedNames};
use relay_base::NoMemory;
use std::alloc::Global;

/// What was wrong with a frame.
#[derive(Clone, Copy)]
pub struct FrameFaults {
    /// Its pickle could not be read, so it has no rows.
    pub is_bad: bool,
    /// How many of its rows give no datapoint.
    pub bad_rows: u64,
}

/// Adds the datapoints of a frame, received at a moment. A remembered name is shared. After an `Err`, `out` begins
/// with what it held before.
pub fn read_frame<N: SharedNames>(
    alloc: Global,
    names: &N,
    pickle: &[u8],
    moment: Moment,
    out: &mut Vec<Point>,
) -> Result<FrameFaults, NoMemory>
    ensures gained { OnOk result (out.new.items ≡ out.old.items
        ++ frame_points (record { pickle = pickle.now; moment = moment })) }
    ensures bad { IfOk result (λ faults. faults.is_bad ≡ is_err (rows_of pickle.now)) }
    ensures bad_rows { IfOk result (λ faults. faults.bad_rows
        ≡ frame_bad_rows (record { pickle = pickle.now; moment = moment })) }
    ensures kept { take (length out.old.items) out.new.items ≡ out.old.items }
{
    match load_with(alloc, names, pickle) {
        Ok(rows) => {
            let bad_rows = add_points(alloc, &rows, moment, out)?;
            Ok(FrameFaults {
                is_bad: false,
                bad_rows,
            })
        }
        Err(PickleFault::NoMemory) => Err(NoMemory),
        Err(_) => Ok(FrameFaults {
            is_bad: true,
            bad_rows: 0,
        }),
    }
}

/// Adds the datapoints of rows, and returns how many rows give none.
fn add_points(
    alloc: Global,
    found: &[Row<'_>],
    moment: Moment,
    out: &mut Vec<Point>,
) -> Result<u64, NoMemory>
    ensures gained { OnOk result
        (out.new.items ≡ out.old.items ++ row_points moment (rows found.now)) }
    ensures bad { IfOk result (λ bad. bad ≡ bad_row_count moment (rows found.now)) }
    ensures kept { take (length out.old.items) out.new.items ≡ out.old.items }
{
    let mut bad: u64 = 0;
    for row in found {
        let row_is_bad = is_bad(alloc, row, moment, out)?;
        bad += u64::from(row_is_bad);
    }
    Ok(bad)
}

/// Adds the datapoint of a row if it has one, and says whether the row was bad.
fn is_bad(
    alloc: Global,
    found: &Row<'_>,
    moment: Moment,
    out: &mut Vec<Point>,
) -> Result<bool, NoMemory>
    ensures gained { OnOk result
        (out.new.items ≡ out.old.items ++ row_points moment (row found.now ∷ [])) }
    ensures bad { IfOk result (λ bad. bad ≡ is_err (point_of (row found.now) moment)) }
    ensures err { OnErr result (out.new.items ≡ out.old.items) }
{
    match found.point(alloc, moment) {
        Ok(point) => match out.push(point) {
            Ok(()) => Ok(false),
            Err(_) => Err(NoMemory),
        },
        Err(LineFault::NoMemory) => Err(NoMemory),
        Err(_) => Ok(true),
    }
}
