//! The metrics of destinations.

ghost use Rattle.std.specs.Prelude.{◌≡◌, ◌++◌, OnOk};
ghost use Rattle.std.specs.String.{string_bytes};
ghost use Rattle.std.specs.List.{flat_map};
ghost use Rattle.status_page.specs.Metrics.{dest_scale, dest_label, dest_sample};

use crate::metric_table::{DestMetric, dest_value};
use crate::metrics::push_value;
use crate::snapshot::DestSnapshot;
use std::alloc::AllocError;
use std::fmt::Write as _;

/// Adds a metric of all destinations.
pub(crate) fn push_dest_samples(
    text: &mut String,
    name: &str,
    metric: DestMetric,
    dests: &[DestSnapshot],
) -> Result<(), AllocError>
    ensures { OnOk result (string_bytes text.new
        ≡ string_bytes text.old ++ flat_map (dest_sample name.now metric) dests.now) }
{
    for dest in dests {
        push_dest_sample(text, name, metric, dest)?;
    }
    Ok(())
}

fn push_dest_sample(
    text: &mut String,
    name: &str,
    metric: DestMetric,
    dest: &DestSnapshot,
) -> Result<(), AllocError>
    ensures { OnOk result (string_bytes text.new ≡ string_bytes text.old ++ dest_sample name.now metric dest.now) }
{
    text.push_str(name)?;
    push_dest_label(text, dest)?;
    push_value(text, dest_value(metric, dest), dest_scale(metric))
}

/// Adds the label with the destination of a metric.
#[tactic(auto, unfolding(crate::specs::Metrics::dest_label))]
fn push_dest_label(text: &mut String, dest: &DestSnapshot) -> Result<(), AllocError>
    ensures { OnOk result (string_bytes text.new ≡ string_bytes text.old ++ dest_label dest.now) }
{
    write!(text, "{{destination=\"{}\"}} ", dest.dest)
}

/// The power of ten of a metric's numbers: thousandths of a second, or none.
fn dest_scale(metric: DestMetric) -> &'static str
    ensures { result.now ≡ dest_scale metric }
{
    match metric {
        DestMetric::Oldest => "e-3",
        _ => "",
    }
}
