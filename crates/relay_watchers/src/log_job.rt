//! The work of the log's thread.

ghost use Rattle.std.specs.Prelude.{◌≡◌, ◌↔◌, ◌<◌, length, IfOk, IsSome};

use crate::dest_rest::{DestRest, RestOfAll};
use crate::late_news::LateNews;
use crate::log_writes::{write_dest_end, write_gone_end, write_line, write_relay_end, write_text};
use crate::receiver_log::ReceiverLog;
use crate::watchers::Watched;
use conf_text::Dest;
use locked_queues::{MOST_SENDERS, Queues, Set};
use log_lines::{
    DestEnd, DestStatus, LoggedDest, LoggedLookup, RelayEnd, push_dest_line, push_lookup_line,
    push_lost_sender_line,
};
use mio_loops::{SystemTimes, TimeSource};
use relay_base::{DestId, NoMemory, add};
use run_state::{DestSources, EndState, GoneSources, Signals, ThreadWork, Unsent, bit};
use spool::{MOST_NEWS, SpoolNotes, SpoolStall};
use std::alloc::{AllocError, Global};
use std::io::Write;
use std::mem;
use std::rt::Clock;
use std::sync::Wait;
use std::sync::atomic::Ordering;
use std::time::Instant;

/// The milliseconds for which the thread sleeps at most; and how many times it does between two looks at the
/// destinations: a second. A stop wakes it.
const PAUSE_MS: u64 = 100;

const PAUSES: usize = 10;

/// What the log has reported of a destination, and of the look-up of its host.
#[derive(Drop)]
struct ReportedDest {
    dest: LoggedDest,
    lookup: LoggedLookup,
    // How often it was reported that all of its files was sent, and that one was begun.
    sent: u64,
    begun: u64,
    // Why its files took no more when that was reported last.
    stall: Option<SpoolStall>,
}

/// What a log that has ended leaves to that of the next run: its output, and what it has reported of the receivers.
#[derive(Drop)]
pub struct LogEnd<L> {
    /// The output.
    pub output: L,
    /// The receivers.
    pub receivers: Vec<ReceiverLog>,
}

/// The log to be written: its destinations, where their events are noted, those that are gone, its receivers, its first lines,
/// its output, and since when the milliseconds of a run count.
#[derive(Drop)]
pub struct LogJob<'x, B: Set, L> {
    queues: &'x Queues<B>,
    noted: DestSources<'x>,
    gone: GoneSources<'x>,
    late_news: &'x LateNews,
    size: usize,
    reported: Vec<ReportedDest>,
    receivers: Vec<ReceiverLog>,
    // Of how many of the destinations that are gone the log has reported the end, a bit each.
    gone_reported: u64,
    // The senders that the log has reported as out of memory, a bit each.
    lost_senders: u64,
    // How many tenths of their size the files had when that was reported last.
    spool_tenths: u64,
    // The first lines.
    news: String,
    output: L,
    began: Option<Instant>,
    ghost all: { length noted.dests.now ≡ B.dests },
}

impl ReportedDest {
    /// Adds the news of a destination, now in this state: at most one line of each kind.
    fn push_news(
        &mut self,
        text: &mut String,
        dest: &Dest,
        now: &DestStatus,
    ) -> Result<(), AllocError> {
        if let Some(event) = self.dest.look(now) {
            push_dest_line(text, dest, event)?;
        }
        if let Some(event) = self.lookup.look(now.is_lookup_long) {
            push_lookup_line(text, dest, event)?;
        }
        Ok(())
    }
}

impl ReportedDest {
    /// Writes whether a destination is diverted to files, whether these take more, and whether all of them is sent: what is new of
    /// it.
    fn write_spool<L: Write>(
        &mut self,
        output: &mut L,
        alloc: Global,
        dest: &Dest,
        notes: &SpoolNotes,
    ) {
        let (begun, sent, stall) = (notes.begun(), notes.sent(), notes.stall());
        if self.begun != begun {
            self.begun = begun;
            write_dest_end(output, alloc, dest, Some(DestEnd::SpoolBegins));
        }
        write_dest_end(output, alloc, dest, stall_news(self.stall, stall));
        self.stall = stall;
        if self.sent != sent {
            self.sent = sent;
            write_dest_end(output, alloc, dest, Some(DestEnd::FileSent));
        }
    }
}

/// What is new of files that took no more for one reason, and take no more for another one now.
fn stall_news(before: Option<SpoolStall>, now: Option<SpoolStall>) -> Option<DestEnd> {
    match (before, now) {
        (None, None) => None,
        (Some(SpoolStall::Full), Some(SpoolStall::Full)) => None,
        (Some(SpoolStall::CannotWrite), Some(SpoolStall::CannotWrite)) => None,
        (_, Some(SpoolStall::Full)) => Some(DestEnd::SpoolFull),
        (_, Some(SpoolStall::CannotWrite)) => Some(DestEnd::CannotWrite),
        (Some(_), None) => Some(DestEnd::SpoolGoesOn),
    }
}

/// What the log has reported of these destinations: what has happened to each up to now.
fn reported_of(alloc: Global, noted: DestSources<'_>) -> Result<Vec<ReportedDest>, NoMemory> {
    let mut reported = Vec::new(alloc);
    for place in 0..noted.dests.len() {
        let dest = ReportedDest {
            dest: logged_at(noted, place),
            lookup: LoggedLookup::new(),
            sent: 0,
            begun: 0,
            stall: None,
        };
        add(&mut reported, dest)?;
    }
    Ok(reported)
}

/// What the log has reported of the destination of a place: what has happened to it up to now.
fn logged_at(noted: DestSources<'_>, place: usize) -> LoggedDest {
    match (noted.notes.get(place), noted.earlier.get(place)) {
        (Some(notes), Some(earlier)) => LoggedDest::after(&notes.status(earlier.dropped, true)),
        _ => LoggedDest::new(),
    }
}

impl<'x, B: Set, L: Write + Drop> LogJob<'x, B, L> {
    /// Looks at all once a second, until the senders stop.
    fn look_until_stopped<R: Wait + Clock>(&mut self, rt: &R, alloc: Global, signals: &Signals) {
        let times = SystemTimes::since(rt, self.began);
        for _ in rt.forever() {
            if signals.senders_stop() {
                return;
            }
            pause(rt, signals);
            self.look_at_all(rt, alloc, signals, times.millis());
            self.write_file_news();
            self.write_sent(alloc, signals);
            self.write_others(rt, alloc);
        }
        unreachable!()
    }

    /// Writes what the first thread has for the log, and what became of the destinations that are gone, of each once.
    fn write_others<R: Wait>(&mut self, rt: &R, alloc: Global) {
        if let Some(text) = self.late_news.take(rt) {
            write_line(&mut self.output, Ok(text));
        }
        let mut bit: u64 = 1;
        for gone in self.gone.dests {
            if let (Some(end), 0) = (gone.notes.end(), self.gone_reported & bit) {
                self.gone_reported |= bit;
                write_gone_end(&mut self.output, alloc, &gone.dest, end);
            }
            bit = bit.wrapping_mul(2);
        }
    }

    /// Writes the news of all, once receivers and senders have ended, and another run goes on with what they held.
    fn write_last_news<R: Wait + Clock>(&mut self, rt: &R, alloc: Global, signals: &Signals) {
        let millis = SystemTimes::since(rt, self.began).millis();
        self.write_losses(alloc, signals);
        for place in 0..self.noted.dests.len() {
            let line = self.lines_of(rt, alloc, place);
            write_line(&mut self.output, line);
        }
        for receiver in self.receivers.as_mut_slice().iter_mut() {
            write_line(&mut self.output, receiver.lines(alloc, millis));
        }
        self.write_file_news();
        self.write_others(rt, alloc);
    }

    /// Looks at each destination and each receiver once, and writes at most one line of each kind for it. Once
    /// the senders stop it writes nothing, since they close their connections then.
    fn look_at_all<R: Wait>(&mut self, rt: &R, alloc: Global, signals: &Signals, millis: u64) {
        self.write_losses(alloc, signals);
        for place in 0..self.noted.dests.len() {
            let line = self.lines_of(rt, alloc, place);
            if signals.senders_end() {
                return;
            }
            write_line(&mut self.output, line);
        }
        for receiver in self.receivers.as_mut_slice().iter_mut() {
            if signals.senders_end() {
                return;
            }
            write_line(&mut self.output, receiver.lines(alloc, millis));
        }
    }

    /// The news of a destination, which exists: at most one line of each kind.
    fn lines_of<R: Wait>(
        &mut self,
        rt: &R,
        alloc: Global,
        place: usize,
    ) -> Result<String, AllocError>
        requires place { place < length self.old.noted.dests.now }
    {
        let mut line = String::new(alloc);
        let noted = self.noted;
        let counts = self.queues.counts(rt, DestId(place));
        let has_room = counts.queued < self.size as u64;
        if let (Some(notes), Some(reported)) = (
            noted.notes.get(place),
            self.reported.get_mut(place),
        ) {
            let dropped = noted.counts_at(place, counts).dropped;
            let now = notes.status(dropped, has_room);
            reported.push_news(&mut line, &noted.dests[place], &now)?;
        }
        Ok(line)
    }

    /// Writes what is to be said of the files of an earlier run, each line once.
    fn write_file_news(&mut self) {
        if let Some(end) = self.noted.end {
            write_news(&mut self.output, end.spool_notes());
        }
        write_news(&mut self.output, self.gone.files);
    }

    /// Writes which destinations are diverted to files, and which have been sent theirs, at most once each a look.
    fn write_sent(&mut self, alloc: Global, signals: &Signals) {
        let Some(end) = self.noted.end else {
            return;
        };
        if signals.senders_end() {
            return;
        }
        let (dests, spool_notes) = (self.noted.dests, end.spool_notes());
        for (place, reported) in self.reported.as_mut_slice().iter_mut().enumerate() {
            if let (Some(dest), Some(notes)) = (dests.get(place), spool_notes.get(place)) {
                reported.write_spool(&mut self.output, alloc, dest, notes);
            }
        }
        let used = end.spool_used().load(Ordering::SeqCst);
        self.write_filled(alloc, used, end.spool_size());
    }

    /// Writes how full the files of all destinations are that have so many bytes of this size, once they have another tenth of it.
    fn write_filled(&mut self, alloc: Global, used: u64, size: u64) {
        let tenths = used.saturating_mul(10).checked_div(size).unwrap_or(0);
        if tenths > self.spool_tenths {
            let filled = RelayEnd::SpoolFilled {
                percent: tenths.saturating_mul(10),
                bytes: used,
            };
            write_relay_end(&mut self.output, alloc, filled);
        }
        self.spool_tenths = tenths;
    }

    /// Writes which receivers and senders ended out of memory, each once.
    fn write_losses(&mut self, alloc: Global, signals: &Signals) {
        let (receivers, senders) = signals.lost();
        for (place, receiver) in self.receivers.as_mut_slice().iter_mut().enumerate() {
            let is_lost = receivers & bit(place) != 0;
            write_line(&mut self.output, receiver.loss_line(alloc, is_lost));
        }
        self.write_lost_senders(alloc, senders);
    }

    /// Writes which of these senders ended out of memory, a bit each, but for those that it has written.
    fn write_lost_senders(&mut self, alloc: Global, senders: u64) {
        for number in 0..MOST_SENDERS {
            if senders & !self.lost_senders & bit(number) != 0 {
                write_line(&mut self.output, lost_sender_line(alloc, number));
            }
        }
        self.lost_senders = senders;
    }

    /// Writes the last lines, once receivers and senders have ended: the bad input and the losses of each receiver, and,
    /// if the relay drained or spooled, what was not sent.
    fn write_end<R: Wait>(&mut self, rt: &R, alloc: Global, signals: &Signals) {
        self.write_losses(alloc, signals);
        for receiver in self.receivers.as_slice() {
            write_line(&mut self.output, receiver.last_lines(alloc));
        }
        self.write_file_news();
        self.write_others(rt, alloc);
        if let Some(end) = self.noted.end {
            self.write_unsent(rt, alloc, signals, end);
        }
    }

    /// Writes how many datapoints were not sent, once the senders have ended: of each destination that has some, and
    /// of all. Says first for which destinations the drain did not wait.
    fn write_unsent<R: Wait>(&mut self, rt: &R, alloc: Global, signals: &Signals, end: &EndState) {
        let noted = self.noted;
        let given_up = signals.given_up();
        let mut bit: u64 = 1;
        let unsent = Unsent::new(self.queues, noted, end);
        let mut all = RestOfAll::none();
        for place in 0..noted.dests.len() {
            let left = unsent.left_at(rt, place);
            let rest = DestRest::new(given_up, bit, left, end.spool_notes().get(place));
            rest.write(&mut self.output, alloc, &noted.dests[place]);
            bit = bit.wrapping_mul(2);
            all.add(&rest);
        }
        all.write(&mut self.output, alloc, end.is_spooled());
    }
}

impl<'x, B: Set, L: Write + Drop, R: Wait + Clock> ThreadWork<R, LogEnd<L>> for LogJob<'x, B, L> {
    fn name(&self, alloc: Global) -> Result<String, AllocError> {
        String::from_str(alloc, "log")
    }

    fn work(self, rt: &R, alloc: Global, signals: &Signals) -> LogEnd<L> {
        let mut job = self;
        let news = mem::replace(&mut job.news, String::new(alloc));
        write_line(&mut job.output, Ok(news));
        job.look_until_stopped(rt, alloc, signals);
        wait_for_end(rt, signals);
        if signals.is_handing() {
            job.write_last_news(rt, alloc, signals);
        } else {
            job.write_end(rt, alloc, signals);
            // Only the end of the relay waits for the output.
            let _ = job.output.flush();
        }
        let LogJob {
            receivers,
            output,
            ..
        } = job;
        LogEnd { output, receivers }
    }
}

/// Writes what is to be said of files, each line once.
fn write_news<L: Write>(output: &mut L, files: &[SpoolNotes]) {
    for notes in files {
        for _ in 0..MOST_NEWS {
            if let Some(news) = notes.next_news() {
                write_text(output, news);
            }
        }
    }
}

/// Waits until receivers and senders have ended.
fn wait_for_end<R: Wait>(rt: &R, signals: &Signals) {
    for _ in rt.forever() {
        let seen = signals.stops();
        if signals.watchers_stop() {
            return;
        }
        signals.sleep(rt, seen, PAUSE_MS);
    }
    unreachable!()
}

/// Waits for a second, or until the senders stop.
fn pause<R: Wait>(rt: &R, signals: &Signals) {
    for _ in 0..PAUSES {
        let seen = signals.stops();
        if signals.senders_stop() {
            return;
        }
        signals.sleep(rt, seen, PAUSE_MS);
    }
}

/// The line on a sender that ended out of memory.
fn lost_sender_line(alloc: Global, number: usize) -> Result<String, AllocError> {
    let mut line = String::new(alloc);
    push_lost_sender_line(&mut line, number)?;
    Ok(line)
}

/// The log of what is watched, and of these receivers, if one is to be written. It begins with these news. Refuses if out of memory.
pub(crate) fn log_to<'x, B: Set, L: Write + Drop>(
    alloc: Global,
    watched: &Watched<'x, B>,
    receivers: Vec<ReceiverLog>,
    news: String,
    log: Option<L>,
) -> Result<Option<LogJob<'x, B, L>>, NoMemory>
    requires all { length watched.now.noted.dests.now ≡ B.dests }
    ensures { IfOk result (λ job. IsSome job ↔ IsSome log) }
{
    let Some(output) = log else {
        return Ok(None);
    };
    let reported = reported_of(alloc, watched.noted)?;
    Ok(Some(LogJob {
        queues: watched.queues,
        noted: watched.noted,
        gone: watched.gone,
        late_news: watched.late_news,
        size: watched.size,
        reported,
        receivers,
        gone_reported: 0,
        lost_senders: 0,
        spool_tenths: 0,
        news,
        output,
        began: watched.began,
    }))
}
