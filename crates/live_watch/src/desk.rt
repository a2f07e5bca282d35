//! Who opens and ends watches, and answers what is asked of them.

use crate::line_watch::LineWatch;
use crate::names_watch::NamesWatch;
use crate::open_watch::{OpenWatch, Watched};
use crate::place::WatchPlaces;
use crate::reading::Reading;
use admin_client::{LinesWatch, WatchRequest, watch_request_in};
use conf_text::Dest;
use line_text::Moment;
use patterns::{Case, Pattern, PatternFault};
use relay_base::{NoMemory, put};
use relay_files::RunConfiguration;
use router::Plan;
use std::alloc::Global;
use std::fmt::Write as _;

/// The greatest number of parts by which names are counted.
const MOST_PARTS: u64 = 64;

/// Who opens and ends the watches of a run, one at a time, and answers what is asked of them (`admin_client::WatchRequest`). The
/// thread that has it alone reads what receivers hand over.
#[derive(Drop)]
pub struct WatchDesk<'c> {
    configuration: &'c RunConfiguration,
    places: &'c WatchPlaces,
    receivers: usize,
    plan: Option<Plan>,
    open: Option<OpenWatch>,
    // The number of the last watch.
    last: u64,
    // Whether watches may be opened.
    is_open: bool,
}

/// Why no watch is opened.
#[derive(Clone, Copy)]
enum Why {
    /// The run ends.
    Ends,
    /// Another one is open.
    Another,
    /// There is no such destination.
    NoDest,
    /// The pattern is refused.
    Pattern,
    /// Names are counted by 1 part to [`MOST_PARTS`].
    Parts,
    /// Out of memory.
    NoMemory,
}

impl Why {
    fn words(self) -> &'static str {
        match self {
            Why::Ends => "refused the run ends\n",
            Why::Another => "refused another watch is open\n",
            Why::NoDest => "refused no such destination\n",
            Why::Pattern => "refused not a pattern\n",
            Why::Parts => "refused 1 to 64 parts\n",
            Why::NoMemory => "refused no memory\n",
        }
    }
}

impl<'c> WatchDesk<'c> {
    /// The desk of a run of this configuration, with so many receivers. Takes no memory yet.
    pub fn new(
        configuration: &'c RunConfiguration,
        places: &'c WatchPlaces,
        receivers: usize,
    ) -> WatchDesk<'c> {
        WatchDesk {
            configuration,
            places,
            receivers,
            plan: None,
            open: None,
            last: 0,
            is_open: true,
        }
    }

    /// The desk of a run that ends, which opens no watch.
    pub fn closed(configuration: &'c RunConfiguration, places: &'c WatchPlaces) -> WatchDesk<'c> {
        WatchDesk {
            configuration,
            places,
            receivers: 0,
            plan: None,
            open: None,
            last: 0,
            is_open: false,
        }
    }

    /// Whether somebody watches.
    pub fn is_watching(&self) -> bool {
        self.open.is_some()
    }

    /// The answer to what is asked of a watch at these milliseconds; an empty one if it is nothing that can be asked. Refuses if
    /// out of memory.
    pub fn answer(
        &mut self,
        alloc: Global,
        asked: &[u8],
        millis: u64,
    ) -> Result<Vec<u8>, NoMemory> {
        let mut text = String::new(alloc);
        let pushed = match watch_request_in(asked) {
            None => Ok(()),
            Some(WatchRequest::Next(number)) => self.push_gathered(number, false, &mut text),
            Some(WatchRequest::End(number)) => self.push_gathered(number, true, &mut text),
            Some(WatchRequest::Lines(wanted)) => {
                let opened = self.open_lines(alloc, wanted, millis);
                push_opened(opened, &mut text)
            }
            Some(WatchRequest::Names(parts)) => {
                let opened = self.open_names(alloc, parts, millis);
                push_opened(opened, &mut text)
            }
        };
        match pushed {
            Ok(()) => Ok(text.into_bytes()),
            Err(fault) => {
                drop(text);
                Err(fault)
            }
        }
    }

    /// Reads what receivers have handed over, at these milliseconds and this moment. A watch that nobody asks ends.
    pub fn drain(&mut self, alloc: Global, millis: u64, moment: Moment) {
        if self.is_over(millis) {
            self.end();
        }
        let dests = self.dests();
        if let (Some(open), Some(plan)) = (&mut self.open, &mut self.plan) {
            let reading = Reading {
                alloc,
                dests,
                millis,
                moment,
            };
            open.drain(self.places, plan, &reading);
        }
    }

    /// Ends the watch, if one is open: receivers note nothing from now on.
    pub fn end(&mut self) {
        if self.open.is_none() {
            return;
        }
        put(&mut self.open, None);
        for receiver in 0..self.receivers {
            self.places.of(receiver).close();
        }
    }

    fn dests(&self) -> &'c [Dest] {
        self.configuration.settings().destinations()
    }

    /// Adds what the watch of a number has gathered, and ends it if that is asked.
    fn push_gathered(
        &mut self,
        number: u64,
        is_end: bool,
        text: &mut String,
    ) -> Result<(), NoMemory> {
        let gathered = match &mut self.open {
            Some(open) if open.number() == number => {
                open.note_asked();
                open.push_gathered(self.places, is_end, text)
            }
            _ => return Ok(text.push_str("over\n")?),
        };
        if is_end {
            self.end();
        }
        gathered
    }

    /// Opens a watch of datapoints, if one can be opened.
    fn open_lines(
        &mut self,
        alloc: Global,
        wanted: LinesWatch<'_>,
        millis: u64,
    ) -> Result<u64, Why> {
        self.check(millis)?;
        let watched = wanted_lines(alloc, self.dests(), wanted)?;
        self.open(alloc, watched, millis)
    }

    /// Opens a watch of names, if one can be opened.
    fn open_names(&mut self, alloc: Global, parts: u64, millis: u64) -> Result<u64, Why> {
        self.check(millis)?;
        let watched = wanted_names(alloc, parts)?;
        self.open(alloc, watched, millis)
    }

    /// Opens a watch at these milliseconds, and returns its number: no other of the process has it.
    fn open(&mut self, alloc: Global, watched: Watched, millis: u64) -> Result<u64, Why> {
        if self.plan.is_none() {
            let Ok(plan) = self.configuration.plan(alloc) else {
                drop(watched);
                return Err(Why::NoMemory);
            };
            put(&mut self.plan, Some(plan));
        }
        let number = millis.max(self.last).saturating_add(1);
        self.last = number;
        let Ok(open) = OpenWatch::new(alloc, number, watched, self.receivers, millis) else {
            return Err(Why::NoMemory);
        };
        let mut open = open;
        open.lend(self.places);
        put(&mut self.open, Some(open));
        for receiver in 0..self.receivers {
            self.places.of(receiver).open(number);
        }
        Ok(number)
    }

    /// Refuses a watch at these milliseconds, if none can be opened.
    fn check(&mut self, millis: u64) -> Result<(), Why> {
        if !self.is_open {
            return Err(Why::Ends);
        }
        if self.is_over(millis) {
            self.end();
        }
        if self.is_watching() {
            Err(Why::Another)
        } else {
            Ok(())
        }
    }

    /// Whether the watch that is open is over at these milliseconds.
    fn is_over(&mut self, millis: u64) -> bool {
        match &mut self.open {
            Some(open) => open.is_over(millis),
            None => false,
        }
    }
}

/// Adds the number of a watch that was opened, or else why none was.
fn push_opened(opened: Result<u64, Why>, text: &mut String) -> Result<(), NoMemory> {
    match opened {
        Ok(number) => Ok(writeln!(text, "watching {number}")?),
        Err(why) => Ok(text.push_str(why.words())?),
    }
}

/// A watch of these datapoints, of a relay with these destinations.
fn wanted_lines(alloc: Global, dests: &[Dest], wanted: LinesWatch<'_>) -> Result<Watched, Why> {
    let dest = match wanted.dest {
        None => None,
        Some(text) => Some(place_of(alloc, dests, text)?),
    };
    let pattern = match wanted.pattern {
        None => None,
        Some(text) => Some(pattern_of(alloc, text)?),
    };
    let watch = LineWatch::new(alloc, wanted.is_json, dest, pattern);
    Ok(Watched::Lines(watch))
}

/// The place of the destination of a text.
fn place_of(alloc: Global, dests: &[Dest], text: &str) -> Result<usize, Why> {
    for (place, dest) in dests.iter().enumerate() {
        let Ok(own) = format!(in alloc; "{dest}") else {
            return Err(Why::NoMemory);
        };
        let is_same = own.as_str() == text;
        drop(own);
        if is_same {
            return Ok(place);
        }
    }
    Err(Why::NoDest)
}

/// The pattern of a text.
fn pattern_of(alloc: Global, text: &str) -> Result<Pattern, Why> {
    match Pattern::read(alloc, Case::Observed, text) {
        Ok(pattern) => Ok(pattern),
        Err(PatternFault::Refused) => Err(Why::Pattern),
        Err(PatternFault::NoMemory) => Err(Why::NoMemory),
    }
}

/// A watch by so many first parts of names.
fn wanted_names(alloc: Global, parts: u64) -> Result<Watched, Why> {
    if parts == 0 || parts > MOST_PARTS {
        return Err(Why::Parts);
    }
    Ok(Watched::Names(NamesWatch::new(alloc, parts)))
}
