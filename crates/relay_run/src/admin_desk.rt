//! Who answers the commands at the admin port of a run, turn by turn, and what the answers are made of.

ghost use Rattle.std.specs.Prelude.{◌≡◌, length};

use crate::relay::Relay;
use crate::reload_source::ReloadSource;
use admin_port::Answers;
use admin_report::{FileCounts, ReportLine, report_with_files};
use live_watch::WatchDesk;
use locked_queues::{Queues, Set};
use mio_loops::{SystemTimes, TimeSource};
use relay_base::{DestId, NoMemory, add};
use relay_commands::LiveRoutes;
use relay_ports::FirstPorts;
use run_state::DestSources;
use spool::{Waiting, clock_seconds};
use std::alloc::Global;
use std::net::Net;
use std::rt::Clock;
use std::sync::Wait;

/// Who answers the commands of a relay: at one of these ports of the first thread, from this source.
#[derive(Drop)]
pub(crate) struct AdminDesk<'p, B: Set, F> {
    pub(crate) relay: &'p Relay<B>,
    pub(crate) ports: &'p mut FirstPorts,
    pub(crate) source: ReportSource<'p, B, F>,
}

impl<'p, B: Set, F> AdminDesk<'p, B, F> {
    /// The desk of a relay with these ports and files. A run that ends opens no watch.
    pub(crate) fn new(
        relay: &'p Relay<B>,
        ports: &'p mut FirstPorts,
        files: &'p F,
        is_ending: bool,
    ) -> AdminDesk<'p, B, F> {
        AdminDesk {
            relay,
            ports,
            source: ReportSource::new(relay, files, is_ending),
        }
    }
}

impl<'p, B: Set, F: ReloadSource> AdminDesk<'p, B, F> {
    /// Answers commands for a turn, and before that says which connections were refused what they asked for, and takes what
    /// receivers handed over for watches. It waits for so many milliseconds at most. Returns whether a command was `stop`.
    pub(crate) fn take_turn<R: Wait + Clock + Net>(
        &mut self,
        rt: &R,
        alloc: Global,
        pause: u64,
    ) -> bool {
        let times = SystemTimes::since(rt, self.relay.began);
        let millis = times.millis();
        self.say_refusals(rt, alloc, millis);
        let source = &mut self.source;
        source.watch_desk.drain(alloc, millis, times.moment());
        let admin = &mut self.ports.admin;
        admin.take_turn(rt, alloc, &mut self.source, millis, pause)
    }

    /// Nothing is watched any more.
    pub(crate) fn end_watches(&mut self) {
        let source = &mut self.source;
        source.watch_desk.end();
    }

    /// Has the log say which connections were refused what they asked for, once a minute at most.
    fn say_refusals<R: Wait>(&mut self, rt: &R, alloc: Global, millis: u64) {
        let refusals = self.ports.admin.refusals();
        if let Some(line) = self.ports.said.line(alloc, refusals, millis) {
            self.relay.late_news.put(rt, line);
        }
    }

    /// Has the log say the rest of them: no more commands are answered.
    pub(crate) fn say_last_refusals<R: Wait>(&mut self, rt: &R, alloc: Global) {
        let refusals = self.ports.admin.refusals();
        if let Some(line) = self.ports.said.last_line(alloc, refusals) {
            self.relay.late_news.put(rt, line);
        }
    }
}

/// What answers are made of: the queues of a relay with their destinations, the names of its files, its routes, and who opens
/// watches.
#[derive(Drop)]
pub(crate) struct ReportSource<'x, B: Set, F> {
    queues: &'x Queues<B>,
    noted: DestSources<'x>,
    pub(crate) files: &'x F,
    routes: LiveRoutes<'x>,
    pub(crate) watch_desk: WatchDesk<'x>,
    ghost all: { length noted.dests.now ≡ B.dests },
}

impl<'x, B: Set, F> ReportSource<'x, B, F> {
    /// The queues of a relay, its files and its routes. A run that ends opens no watch.
    pub(crate) fn new(
        relay: &'x Relay<B>,
        files: &'x F,
        is_ending: bool,
    ) -> ReportSource<'x, B, F> {
        ReportSource {
            queues: &relay.queues,
            noted: relay.noted(),
            files,
            routes: LiveRoutes::new(&relay.configuration),
            watch_desk: desk_of(relay, is_ending),
        }
    }

    /// The line of each destination, one after the other: not of one moment.
    fn lines<R: Wait + Clock>(&self, rt: &R, alloc: Global) -> Result<Vec<ReportLine>, NoMemory> {
        let clock = clock_seconds(rt);
        let mut lines = Vec::new(alloc);
        for place in 0..self.noted.dests.len() {
            let counts = self.queues.counts(rt, DestId(place));
            let line = ReportLine {
                dest: self.noted.dests[place].clone()?,
                counts: self.noted.counts_at(place, counts),
                file: file_counts(self.noted.waiting_at(place), clock),
            };
            add(&mut lines, line)?;
        }
        Ok(lines)
    }
}

/// Who opens the watches of a relay. A run that ends opens none.
fn desk_of<B: Set>(relay: &Relay<B>, is_ending: bool) -> WatchDesk<'_> {
    let configuration = &relay.configuration;
    if is_ending {
        WatchDesk::closed(configuration, &relay.watches)
    } else {
        WatchDesk::new(configuration, &relay.watches, relay.shape.receivers)
    }
}

/// What a report says of the file of a destination at this second since 1970: nothing if nothing waits.
fn file_counts(waiting: Waiting, clock: u64) -> Option<FileCounts> {
    if waiting.bytes == 0 {
        return None;
    }
    Some(FileCounts {
        datapoints: waiting.datapoints,
        bytes: waiting.bytes,
        age: waiting.age(clock),
    })
}

impl<'x, B: Set, F: ReloadSource, R: Wait + Clock> Answers<R> for ReportSource<'x, B, F> {
    fn report(&self, rt: &R, alloc: Global) -> Result<Vec<u8>, NoMemory> {
        let mut text = Vec::new(alloc);
        report_with_files(alloc, self.lines(rt, alloc)?.as_slice(), &mut text)?;
        Ok(text)
    }

    fn files(&self, alloc: Global) -> Result<Vec<u8>, NoMemory> {
        Ok(self.files.names(alloc)?.into_bytes())
    }

    fn route(&mut self, alloc: Global, name: &[u8]) -> Result<Vec<u8>, NoMemory> {
        match self.routes.answer(alloc, name)? {
            Some(answer) => Ok(answer.into_bytes()),
            None => Ok(Vec::new(alloc)),
        }
    }

    fn watch(&mut self, alloc: Global, asked: &[u8], millis: u64) -> Result<Vec<u8>, NoMemory> {
        self.watch_desk.answer(alloc, asked, millis)
    }

    fn key(&self) -> Option<&[u8]> {
        self.files.key()
    }
}
