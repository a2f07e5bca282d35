//! Datapoints.
ghost use Rattle.std.specs.Prelude.{◌≡◌, ◌≤◌, true, SomeIff, IfOk, IfSome};
ghost use Rattle.std.specs.Arc.{arc_value};
ghost use Rattle.line_text.specs.Datapoint.{Datapoint};
ghost use Rattle.line_text.specs.declared.fault.LineFault.TheVariants.{NoMemory};
ghost use Rattle.line_text.specs.Line.{reading, point_in, value_in, time_in};
ghost use Rattle.line_text.specs.Name.{is_name};
ghost use Rattle.line_text.specs.Time.{last_time};
ghost use Rattle.relay_base.specs.Memory.{Gives};

use crate::fault::LineFault;
use crate::field::{Fields, fields_of};
use crate::moment::{LAST_TIME, Moment};
use crate::name::{Name, name_text};
use crate::number::Number;
use crate::shared_names::{NoNames, SharedNames};
use crate::short::short_decimal;
use crate::value::Value;
use std::alloc::{AllocError, Global};
use std::marker::Model;
use std::sync::Arc;

/// A value that a metric had at a time.
///
/// In clauses it is its name's bytes, its value and its time, apart from where they are in memory.
#[derive(Debug, Drop)]
pub struct Point {
    /// The metric's name, which copies of the datapoint share.
    pub name: Arc<Name>,
    /// The value.
    pub value: Value,
    /// The time in seconds, at most 9,007,199,254,740,992 (two to the power 53).
    pub time: u64,
}

impl Model for Point {
    ghost use Rattle.std.specs.Prelude.{◌≤◌};
    ghost use Rattle.std.specs.Arc.{arc_value};
    ghost use Rattle.line_text.specs.Datapoint.{Datapoint};
    ghost use Rattle.line_text.specs.Time.{last_time};

    ghost Value = { Datapoint };

    ghost view = { λ p. record { name = arc_value p.name; value = p.value; time = p.time } };

    ghost invariant = { λ p. p.time ≤ last_time };
}

impl Point {
    /// A datapoint of these parts, or `None` for a time above 9,007,199,254,740,992.
    pub fn new(name: Arc<Name>, value: Value, time: u64) -> Option<Point>
        ensures { SomeIff result (time ≤ last_time)
            (record { name = arc_value name; value = value; time = time }) }
    {
        if time <= LAST_TIME {
            Some(Point { name, value, time })
        } else {
            None
        }
    }

    /// The datapoint of a line without its newline, or `None` for a blank line. A line has three fields:
    /// name, value and time; a time of -1 is the moment.
    ///
    /// Refuses a line with the first of these faults: another number of fields (`FieldCount`), a bad name
    /// (`BadName`), a bad value (`BadValue`), a bad time (`BadTime`), out of memory for the name
    /// (`NoMemory`).
    pub fn read_line(alloc: Global, line: &[u8], moment: Moment) -> Result<Option<Point>, LineFault>
        ensures { Gives NoMemory
            (λ found. found) result (reading (record { text = line.now; moment = moment })) }
    {
        Point::read_line_with(alloc, &NoNames, line, moment)
    }

    /// Like [`Point::read_line`], but shares a name that `names` remembers, which takes no memory.
    pub(crate) fn read_line_with<N: SharedNames>(
        alloc: Global,
        names: &N,
        line: &[u8],
        moment: Moment,
    ) -> Result<Option<Point>, LineFault>
        ensures { Gives NoMemory
            (λ found. found) result (reading (record { text = line.now; moment = moment })) }
    {
        match fields_of(line) {
            Fields::None => Ok(None),
            Fields::Three { name, value, time } => {
                Ok(Some(point_of(alloc, names, name, value, time, moment)?))
            }
            Fields::Other => Err(LineFault::FieldCount),
        }
    }
}

/// The datapoint of three fields.
fn point_of<N: SharedNames>(
    alloc: Global,
    names: &N,
    name: &[u8],
    value: &[u8],
    time: &[u8],
    moment: Moment,
) -> Result<Point, LineFault>
    ensures { Gives NoMemory (λ point. point) result (point_in name.now value.now time.now moment) }
{
    if let Some(name) = names.shared(name) {
        let value = value_in(value).ok_or(LineFault::BadValue)?;
        let time = time_in(time, moment).ok_or(LineFault::BadTime)?;
        return Ok(Point { name, value, time });
    }
    let name = name_text(name).ok_or(LineFault::BadName)?;
    let value = value_in(value).ok_or(LineFault::BadValue)?;
    let time = time_in(time, moment).ok_or(LineFault::BadTime)?;
    let name = shared_name(alloc, name)?;
    Ok(Point { name, value, time })
}

fn value_in(text: &[u8]) -> Option<Value>
    ensures { result ≡ value_in text.now }
{
    match short_decimal(text) {
        Some(short) => short.value(),
        None => Number::read(text).ok()?.value(),
    }
}

fn time_in(text: &[u8], moment: Moment) -> Option<u64>
    ensures value { result ≡ time_in text.now moment }
    ensures in_range { IfSome result (λ time. time ≤ last_time) }
{
    match short_decimal(text) {
        Some(short) => short.time(moment),
        None => Number::read(text).ok()?.time(moment),
    }
}

/// The name of this text, which copies of a datapoint share.
fn shared_name(alloc: Global, text: &str) -> Result<Arc<Name>, AllocError>
    requires { is_name text.now ≡ true }
    ensures { IfOk result (λ name. arc_value name ≡ text.now) }
{
    Ok(Arc::new(alloc, Name::of(alloc, text)?)?)
}
