//! The page for people.

use crate::dest_card::push_dest_card;
use crate::dest_table::push_dest_table;
use crate::headline::{Headline, headline_of, is_ill};
use crate::headline_text::{class_of, push_heading, push_sentence, push_title};
use crate::numbers::{push_clock, push_duration};
use crate::plain::plain;
use crate::plot::push_plots;
use crate::producer_table::push_producer_table;
use crate::receiver_table::push_receiver_table;
use crate::snapshot::Snapshot;
use std::alloc::AllocError;
use std::fmt::Write as _;

/// What precedes the title: the page asks for no other resource, runs no script and refreshes itself. If it could not do so
/// for six seconds, it says that it is old.
const HEAD: &str = "<!DOCTYPE html>\n<html lang=\"en\"><head><meta charset=\"utf-8\">\n\
<meta name=\"viewport\" content=\"width=device-width, initial-scale=1\">\n\
<meta http-equiv=\"refresh\" content=\"2\">\n<style>\n\
:root{color-scheme:light dark;--ink:#1c2430;--soft:#5b6573;--line:#dde2e8;--back:#f5f7f9;--card:#fff;\
--good:#16703f;--ill:#c01f1f;--illback:#fdecea;--warn:#8a5300;--warnback:#fff4dc;--blue:#2b6cb0}\n\
@media(prefers-color-scheme:dark){:root{--ink:#e4e8ee;--soft:#a3adba;--line:#303844;--back:#14181e;--card:#1c222a;\
--good:#4cc38a;--ill:#ff7b72;--illback:#3a1c1c;--warn:#f0b849;--warnback:#33280f;--blue:#63a4e8}}\n\
*{box-sizing:border-box}body{margin:0;padding:1rem;background:var(--back);color:var(--ink);\
font:15px/1.45 system-ui,sans-serif;overflow-wrap:anywhere}main{max-width:64rem;margin:auto}\n\
h1{font-size:1.45rem;line-height:1.25;margin:.2rem 0;padding:.7rem .9rem;border-radius:6px}\
h1.ill{background:var(--ill);color:var(--card)}h1.warn{background:var(--warnback);color:var(--warn);\
border:1px solid var(--warn)}h1.good{color:var(--good);padding:.7rem 0}\n\
a{color:var(--blue)}h2{font-size:1rem;margin:1.4rem 0 .5rem}p{margin:.2rem 0;color:var(--soft)}\n\
.all{display:grid;grid-template-columns:repeat(auto-fill,minmax(min(100%,19rem),1fr));gap:.7rem;margin:.7rem 0}\n\
section{background:var(--card);border:1px solid var(--line);border-radius:6px;padding:.6rem .8rem}\
section.ill{border-color:var(--ill);border-left-width:4px;background:var(--illback)}\
section.warn{border-color:var(--warn);border-left-width:4px;background:var(--warnback)}\n\
section h3{font-size:1rem;margin:0 0 .1rem}.bad,.ill b{color:var(--ill)}.warn b,small.warn{color:var(--warn)}\n\
.bar{height:.5rem;border-radius:3px;background:var(--line);margin:.4rem 0;overflow:hidden}\
.bar i{display:block;height:100%;background:var(--warn)}.ill .bar i{background:var(--ill)}\n\
table{width:100%;border-collapse:collapse;background:var(--card);border:1px solid var(--line);border-radius:6px}\
th,td{padding:.06rem .6rem;line-height:1.3;text-align:right;vertical-align:top;border-top:1px solid var(--line);\
font-variant-numeric:tabular-nums}td:last-child{white-space:nowrap}th{font-weight:normal;color:var(--soft);overflow-wrap:normal}\
@media(max-width:30rem){th,td{padding:.06rem .35rem;font-size:.86rem}}\
th:first-child,td:first-child{text-align:left}small{color:var(--soft)}\n\
.plot{display:grid;grid-template-columns:minmax(2.5rem,auto) 1fr;column-gap:.4rem}.plot span{color:var(--soft);\
font-size:.75rem;text-align:right}.plot .zero{grid-column:1;grid-row:2;align-self:end}\
svg{grid-column:2;grid-row:1/3;width:100%;height:4rem;border-left:1px solid var(--line);\
border-bottom:1px solid var(--soft)}polyline{fill:none;stroke:var(--blue);stroke-width:1.5;\
vector-effect:non-scaling-stroke}.ill polyline{stroke:var(--ill)}\n\
.time{display:flex;justify-content:space-between;color:var(--soft);font-size:.75rem;padding-left:2.9rem}\n\
.late{display:block;max-height:0;overflow:hidden;background:var(--ill);color:var(--card);border-radius:6px;\
animation:late 0s 6s forwards}@keyframes late{to{max-height:20rem;padding:.7rem .9rem}}\n</style>\n";

/// Adds the page: what is worst, the destinations, the ill ones first, the receivers, and plots of the last minutes. Fails
/// when out of memory; the text may have a part of it then.
pub fn push_page(text: &mut String, now: &Snapshot) -> Result<(), AllocError> {
    text.push_str(HEAD)?;
    push_top(text, now)?;
    push_cards(text, now)?;
    push_dest_table(text, now.dests.as_slice(), now.queue_size)?;
    text.push_str("<h2>Receivers</h2>\n")?;
    push_receiver_table(text, now.receivers.as_slice())?;
    push_producer_table(text, now)?;
    push_plots(text, now.samples.as_slice())?;
    push_foot(text, now)
}

/// Adds the title and the heading: what the status says first, and of which machine and moment it is.
fn push_top(text: &mut String, now: &Snapshot) -> Result<(), AllocError> {
    let headline = headline_of(now);
    let host = plain(now.host.as_str());
    push_icon(text, headline)?;
    push_title(text, now)?;
    push_sentence(text, now, headline)?;
    write!(text, " - relayd at {host}</title></head><body><main>\n")?;
    push_late(text, now)?;
    push_heading(text, now)?;
    push_sentence(text, now, headline)?;
    write!(text, "</h1>\n<p>relayd at <b>{host}</b>, ")?;
    push_clock(text, now.clock)?;
    text.push_str(", running for ")?;
    push_duration(text, now.uptime)?;
    text.push_str("</p>\n<h2>Destinations</h2>\n")
}

/// Adds what a page says that could not refresh itself.
fn push_late(text: &mut String, now: &Snapshot) -> Result<(), AllocError> {
    text.push_str("<div class=\"late\"><b>NO ANSWER since ")?;
    push_clock(text, now.clock)?;
    text.push_str(
        "</b>: the relay has ended, or cannot be reached. What follows is of that time.</div>\n",
    )
}

/// Adds the icon of the tab: a disc in the colour of the headline.
fn push_icon(text: &mut String, headline: Headline) -> Result<(), AllocError> {
    let colour = match class_of(headline) {
        "ill" => "c01f1f",
        "warn" => "e0a020",
        _ => "16a05a",
    };
    write!(
        text,
        "<link rel=\"icon\" href=\"data:image/svg+xml,%3Csvg xmlns='http://www.w3.org/2000/svg' viewBox='0 0 8 8'%3E%3Ccircle cx='4' cy='4' r='4' fill='%23{colour}'/%3E%3C/svg%3E\">\n"
    )
}

/// Adds a card for each destination with which something is wrong.
fn push_cards(text: &mut String, now: &Snapshot) -> Result<(), AllocError> {
    text.push_str("<div class=\"all\">\n")?;
    for dest in now.dests.as_slice() {
        if is_ill(dest, now.queue_size) {
            push_dest_card(text, dest, now.queue_size, now.watched_at)?;
        }
    }
    text.push_str("</div>\n")
}

/// Adds where the same is for programs.
fn push_foot(text: &mut String, now: &Snapshot) -> Result<(), AllocError> {
    write!(
        text,
        "<p>Version {}, configuration {}. The same for programs: <a href=\"/status.json\">JSON</a>, ",
        plain(now.version.as_str()),
        plain(now.configuration.as_str())
    )?;
    text.push_str(
        "<a href=\"/metrics\">metrics</a> (old names, which their help marks, go with the next release).</p>\n",
    )?;
    text.push_str("</main></body></html>\n")
}
