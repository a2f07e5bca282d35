//! Shares of datapoints.
ghost use Rattle.std.specs.Prelude.{◌≡◌, IfOk};

use line_text::Point;
use relay_base::NoMemory;
use std::sync::Arc;

/// The same datapoint once more, which shares the name.
pub fn share(point: &Point) -> Result<Point, NoMemory>
    ensures { IfOk result (λ shared. shared ≡ point.now) }
{
    Ok(Point {
        name: Arc::try_clone(&point.name)?,
        value: point.value,
        time: point.time,
    })
}
