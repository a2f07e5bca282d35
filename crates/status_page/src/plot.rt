//! Plots of the last minutes.

use crate::numbers::{push_count, push_duration};
use crate::snapshot::Sample;
use std::alloc::AllocError;
use std::fmt::Write as _;

/// The height of a plot, in its own units; a sample is one wide.
const HEIGHT: u128 = 100;

/// How many samples may be far greater than all others, as those of a catch-up: they end at the top of the plot, and do
/// not flatten the others.
const FEW: usize = 3;

/// What a plot shows.
#[derive(Clone, Copy)]
enum Shown {
    Received,
    Written,
    Dropped,
}

/// Adds a plot of what was received, one of what was written and one of what was dropped.
pub(crate) fn push_plots(text: &mut String, samples: &[Sample]) -> Result<(), AllocError> {
    text.push_str("<h2>The last ")?;
    push_duration(text, length_of(samples))?;
    text.push_str("</h2><div class=\"all\">\n")?;
    for shown in [Shown::Received, Shown::Written, Shown::Dropped] {
        push_plot(text, samples, shown)?;
    }
    text.push_str("</div>\n")
}

/// How many seconds the samples count together.
fn length_of(samples: &[Sample]) -> u64 {
    let mut millis: u64 = 0;
    for sample in samples {
        millis = millis.saturating_add(sample.millis);
    }
    millis / 1_000
}

/// Adds a plot with its axes: the time below it, and 0 and the greatest number that it shows beside it.
fn push_plot(text: &mut String, samples: &[Sample], shown: Shown) -> Result<(), AllocError> {
    let greatest = greatest_of(samples, shown);
    let top = top_of(&greatest);
    push_plot_title(text, samples, shown, greatest[0])?;
    text.push_str("<div class=\"plot\"><span>")?;
    push_count(text, top)?;
    write!(
        text,
        "</span><svg viewBox=\"0 0 {} 102\" ",
        samples.len().max(2) - 1
    )?;
    text.push_str("preserveAspectRatio=\"none\" role=\"img\"><polyline points=\"")?;
    push_points(text, samples, shown, top)?;
    text.push_str("\"/></svg><span class=\"zero\">0</span></div><div class=\"time\"><span>")?;
    push_duration(text, length_of(samples))?;
    text.push_str(" ago</span><span>now</span></div></section>\n")
}

/// Adds what a plot shows, what the last sample counted in a second, and the peak; drops of now are red.
fn push_plot_title(
    text: &mut String,
    samples: &[Sample],
    shown: Shown,
    peak: u64,
) -> Result<(), AllocError> {
    let now = match samples.last() {
        Some(sample) => rate_of(sample, shown),
        None => 0,
    };
    let class = if now > 0 && is_of_drops(shown) {
        "ill"
    } else {
        ""
    };
    write!(text, "<section class=\"{class}\"><h3>{} ", word_of(shown))?;
    push_count(text, now)?;
    text.push_str(" a second</h3><small>peak ")?;
    push_count(text, peak)?;
    text.push_str("</small>")
}

/// Adds a point for each sample, from the left; those above the top end there.
fn push_points(
    text: &mut String,
    samples: &[Sample],
    shown: Shown,
    top: u64,
) -> Result<(), AllocError> {
    let scale = top.max(1) as u128;
    for (place, sample) in samples.iter().enumerate() {
        let value = rate_of(sample, shown).min(top);
        let height = value as u128 * HEIGHT / scale;
        write!(text, "{place},{} ", (HEIGHT + 1).saturating_sub(height))?;
    }
    Ok(())
}

/// The greatest values of the samples in a second, the greatest first; 0 in place of those that are not there.
fn greatest_of(samples: &[Sample], shown: Shown) -> [u64; FEW + 1] {
    let mut greatest = [0; FEW + 1];
    for sample in samples {
        let mut value = rate_of(sample, shown);
        for place in greatest.iter_mut() {
            let smaller = value.min(*place);
            *place = value.max(*place);
            value = smaller;
        }
    }
    greatest
}

/// The value at the top of a plot: the greatest, but a quarter above that of all but a few samples at most.
fn top_of(greatest: &[u64; FEW + 1]) -> u64 {
    let usual = greatest[FEW];
    if usual == 0 {
        return greatest[0];
    }
    usual.saturating_add(usual / 4).min(greatest[0])
}

/// What a sample counted in a second, rounded up.
fn rate_of(sample: &Sample, shown: Shown) -> u64 {
    let count = match shown {
        Shown::Received => sample.received,
        Shown::Written => sample.written,
        Shown::Dropped => sample.dropped,
    };
    count.saturating_mul(1_000).div_ceil(sample.millis.max(1))
}

fn word_of(shown: Shown) -> &'static str {
    match shown {
        Shown::Received => "in",
        Shown::Written => "out",
        Shown::Dropped => "lost",
    }
}

fn is_of_drops(shown: Shown) -> bool {
    match shown {
        Shown::Dropped => true,
        Shown::Received | Shown::Written => false,
    }
}
