//! Names and datapoints for the tests; `None` where there is no memory.

use line_text::{Moment, Name, Point, Value};
use std::alloc::Global;
use std::sync::Arc;

/// A name that can be shared.
pub(crate) fn shared_name(alloc: Global, text: &str) -> Option<Arc<Name>> {
    let name = Name::read(alloc, text.as_bytes()).ok()?;
    Arc::new(alloc, name).ok()
}

/// A datapoint of this name.
pub(crate) fn point(alloc: Global, text: &str) -> Option<Arc<Point>> {
    let point = Point::new(
        shared_name(alloc, text)?,
        Value::of_whole(42),
        1_700_000_000,
    )?;
    Arc::new(alloc, point).ok()
}

/// The datapoint of a line.
pub(crate) fn point_of_line(alloc: Global, line: &[u8]) -> Option<Arc<Point>> {
    let point = Point::read_line(alloc, line, Moment::new(0)?).ok()??;
    Arc::new(alloc, point).ok()
}
