//! A datapoint as a watcher sees it.

ghost use Rattle.live_watch.specs.SentPoints.{IsSentAndOffered};

use crate::batch::NotedOffer;
use conf_text::Dest;
use dest_queue::Kept;
use line_text::{LineBuf, Point, print_line};
use log_format::{push_key, push_member, push_string};
use log_lines::ReceiverName;
use note_text::EscapedText;
use relay_base::{NoMemory, strip, utf8_text};
use router::{Plan, Sent};
use std::alloc::{AllocError, Global};
use std::fmt::Write as _;
use std::net::IpAddr;

/// A datapoint: the receiver, the address of its producer, its line as it was read, what the plan sends of it, and its offers,
/// which went to just the destinations of that.
#[derive(Clone, Copy)]
pub(crate) struct Shown<'t> {
    pub(crate) receiver: ReceiverName,
    pub(crate) producer: IpAddr,
    pub(crate) line: &'t [u8],
    pub(crate) plan: &'t Plan,
    pub(crate) point: &'t Point,
    pub(crate) sent: &'t Sent,
    pub(crate) offers: &'t [NotedOffer],
    ghost sent_and_offered: { IsSentAndOffered plan.now point.now sent.now offers.now },
}

impl<'t> Shown<'t> {
    /// Its new name; `None` if rewriting drops it.
    pub(crate) fn new_name(&self) -> Option<&'t str> {
        let sent = self.sent;
        match &sent.point {
            Some(point) => Some(point.name.text()),
            None => None,
        }
    }

    /// Adds its line: receiver, address, line, new name, and each destination with what became of it there, with tabs between
    /// them. What a terminal would obey is escaped.
    pub(crate) fn push_line(
        &self,
        alloc: Global,
        dests: &[Dest],
        text: &mut String,
    ) -> Result<(), NoMemory> {
        write!(text, "{}\t{}\t", self.receiver.text(), self.producer)?;
        let line = self.text_of_line(alloc)?;
        write!(text, "{}", EscapedText(line.as_str()))?;
        drop(line);
        text.push('\t')?;
        match self.new_name() {
            Some(name) => write!(text, "{}", EscapedText(name))?,
            None => text.push_str("dropped")?,
        }
        for offer in self.offers {
            if let Some(dest) = dests.get(usize::from(offer.dest)) {
                write!(text, "\t{dest} {}", words_of(offer.kept))?;
            }
        }
        Ok(text.push('\n')?)
    }

    /// Adds its object.
    pub(crate) fn push_object(
        &self,
        alloc: Global,
        dests: &[Dest],
        text: &mut String,
    ) -> Result<(), NoMemory> {
        text.push('{')?;
        push_member(text, "receiver", self.receiver.text())?;
        write!(text, ",\"producer\":\"{}\"", self.producer)?;
        let line = self.text_of_line(alloc)?;
        push_member(text, "line", line.as_str())?;
        drop(line);
        push_key(text, "rewritten")?;
        match self.new_name() {
            Some(name) => push_string(text, name)?,
            None => text.push_str("null")?,
        }
        push_key(text, "destinations")?;
        text.push('[')?;
        for offer in self.offers {
            if let Some(dest) = dests.get(usize::from(offer.dest)) {
                push_offer(text, dest, offer.kept)?;
            }
        }
        Ok(text.push_str("]}\n")?)
    }

    /// Its line as it was read, without white space at the ends; that of a row of a pickle as the relay writes it.
    fn text_of_line(&self, alloc: Global) -> Result<String, NoMemory> {
        if !self.line.is_empty() {
            let text = utf8_text(self.line).unwrap_or("");
            return Ok(String::from_str(alloc, strip(text))?);
        }
        let mut line = LineBuf::new(alloc)?;
        print_line(self.point, &mut line);
        let text = utf8_text(line.bytes()).unwrap_or("");
        let text = String::from_str(alloc, strip(text.strip_suffix('\n').unwrap_or(text)));
        drop(line);
        Ok(text?)
    }
}

/// What became of an offer, in a word.
fn words_of(kept: Kept) -> &'static str {
    match kept {
        Kept::Queued => "kept",
        Kept::Dropped => "dropped",
    }
}

/// Adds a destination of a list, and a comma before it unless it is the first.
fn push_offer(text: &mut String, dest: &Dest, kept: Kept) -> Result<(), AllocError> {
    if !text.ends_with('[') {
        text.push(',')?;
    }
    let is_kept = matches!(kept, Kept::Queued);
    write!(text, "{{\"destination\":\"{dest}\",\"kept\":{is_kept}}}")
}
