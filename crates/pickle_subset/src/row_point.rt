//! The datapoints of rows.
ghost use Rattle.std.specs.Prelude.{◌≡◌, ◌≤◌, IfSome, IfOk, option_map, ok_or};
ghost use Rattle.std.specs.Arc.{arc_value};
ghost use Rattle.relay_base.specs.Memory.{Gives};
ghost use Rattle.line_text.specs.Line.{name_in};
ghost use Rattle.line_text.specs.Number.{number_of};
ghost use Rattle.line_text.specs.Time.{last_time};
ghost use Rattle.pickle_subset.specs.RowPoint.{point_of, scalar_value, scalar_time};
ghost use Rattle.pickle_subset.specs.Views.{row, scalar};

use crate::binary::{binary_time, binary_value, whole_time};
use crate::value::{Row, Scalar};
use line_text::{LineFault, Moment, Name, Number, Point, Value};
use std::alloc::Global;
use std::sync::Arc;

impl Row<'_> {
    /// The datapoint of a row that was read at a moment. A text is a number as in a line. A binary64 as a value is the
    /// exact number that its bits denote, to the nearest ten-billionth, the even one of two that are as near; as a time
    /// it is cut off at its point. A time of -1 is the moment.
    ///
    /// Refuses a row with the first of these faults: a path that is not a metric name (`BadName`), a bad value
    /// (`BadValue`), a bad time (`BadTime`). `NoMemory`, which it may return in place of the last two, says that the
    /// name could not be shared once more; it was made when the pickle was read.
    pub fn point(&self, _alloc: Global, moment: Moment) -> Result<Point, LineFault>
        ensures { Gives LineFault.NoMemory (λ point. point) result
            (point_of (row self.now) moment) }
    {
        let name = shared_name(self.name())?;
        let value = value_of(self.value).ok_or(LineFault::BadValue)?;
        let time = time_of(self.time, moment).ok_or(LineFault::BadTime)?;
        Ok(Point { name, value, time })
    }
}

/// A name, shared once more.
fn shared_name(name: Option<&Arc<Name>>) -> Result<Arc<Name>, LineFault>
    ensures { Gives LineFault.NoMemory (λ name. arc_value name) result
        (ok_or (option_map (λ found. arc_value found.now) name.entry) LineFault.BadName) }
{
    match name {
        Some(name) => name.clone().map_err(|_| LineFault::NoMemory),
        None => Err(LineFault::BadName),
    }
}

fn value_of(value: Scalar<'_>) -> Option<Value>
    ensures { result ≡ scalar_value (scalar value.entry) }
{
    match value {
        Scalar::Text(text) => number_in(text)?.value(),
        Scalar::Whole(number) => Some(Value::of_whole(number)),
        Scalar::Binary(bits) => binary_value(bits),
        Scalar::Other => None,
    }
}

fn time_of(time: Scalar<'_>, moment: Moment) -> Option<u64>
    ensures time { result ≡ scalar_time (scalar time.entry) moment }
    ensures in_range { IfSome result (λ seconds. seconds ≤ last_time) }
{
    match time {
        Scalar::Text(text) => number_in(text)?.time(moment),
        Scalar::Whole(number) => whole_time(number < 0, number.unsigned_abs(), moment),
        Scalar::Binary(bits) => binary_time(bits, moment),
        Scalar::Other => None,
    }
}

/// The longest text of a number, in bytes: a sign, 38 digits and a point, and then `e`, a sign and three digits.
const LONGEST_NUMBER: usize = 45;

/// The number that a text denotes, if it is one. A text can be long and be in many rows, so one that is too long for
/// a number is not examined.
#[tactic(auto, using(crate::proofs::LongTextLemmas::no_number))]
fn number_in(text: &str) -> Option<Number>
    ensures { result ≡ number_of text.now }
{
    if text.len() > LONGEST_NUMBER {
        return None;
    }
    Number::read(text.as_bytes()).ok()
}
