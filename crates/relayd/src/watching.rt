//! `relayd watch`: the datapoints that pass through a running relay.

use crate::admin::{relay_at, status_of};
use crate::admin_key::key_at;
use crate::file_limit::limited_output;
use crate::watching_output::{WatchTotals, push_counted, push_end, write_lines};
use admin_client::{
    AdminCommand, AdminFault, LinesWatch, RelayAt, WatchAnswer, WatchRequest, answer_about,
    push_watch, watch_answer_in,
};
use command_line::{AdminAt, OutputForm, WatchWanted, Watching};
use relay_base::{utf8_text, whole_number_up_to};
use relay_files::Status;
use std::alloc::Global;
use std::io::Write;
use std::rt::Clock;
use std::sync::Wait;
use std::time::{Duration, Instant};

/// How many milliseconds pass between two questions.
const PAUSE_MS: u64 = 200;

/// For how many milliseconds a relay is asked again to open a watch, whose run ends: another run may follow.
const MOST_TRIES_MS: u64 = 10_000;

/// How many of the greatest are shown.
const GREATEST: u64 = 20;

/// The answer of a relay whose run ends.
const ENDS: &str = "the run ends";

/// A watch, as its client goes on with it: the number of the one that the relay has open, what was shown, and what earlier ones
/// have counted, with what this one has.
#[derive(Drop)]
struct WatchClient<'r, R> {
    rt: &'r HostRuntime,
    waits: &'r R,
    alloc: Global,
    relay: RelayAt<'r>,
    watching: &'r Watching,
    began: Option<Instant>,
    number: Option<u64>,
    shown: u64,
    earlier: WatchTotals,
    totals: WatchTotals,
    // How many times the watch began anew, and since when the relay opens none.
    again: u64,
    ends_since: Option<u64>,
}

/// Why a watch ends before its time.
#[derive(Drop)]
enum Ended {
    /// All that was wanted has come.
    Whole,
    /// The relay does not answer, or the output failed.
    Fault(AdminFault),
    /// The relay opens no watch, for this reason.
    Refused(String),
}

/// Shows what passes through a relay, until it was for long enough, or enough.
pub fn run_watch<R: Wait + Clock>(
    rt: &HostRuntime,
    waits: &R,
    alloc: Global,
    admin: &AdminAt,
    watching: &Watching,
) -> Status {
    let key = match key_at(rt, alloc, &admin.key) {
        Ok(key) => key,
        Err(status) => return status,
    };
    let ended = watched_at(rt, waits, alloc, relay_at(admin, &key), watching);
    match ended {
        Ended::Whole => Status::Done,
        Ended::Fault(fault) => status_of(rt, admin.port, Err(fault)),
        Ended::Refused(why) => say_refused(rt, why),
    }
}

/// Shows what passes through the relay at a port until that ends, and says what was counted.
fn watched_at<'r, R: Wait + Clock>(
    rt: &'r HostRuntime,
    waits: &'r R,
    alloc: Global,
    relay: RelayAt<'r>,
    watching: &'r Watching,
) -> Ended {
    let mut client = WatchClient {
        rt,
        waits,
        alloc,
        relay,
        watching,
        began: Instant::now(rt).ok(),
        number: None,
        shown: 0,
        earlier: WatchTotals::none(),
        totals: WatchTotals::none(),
        again: 0,
        ends_since: None,
    };
    let ended = client.go_on();
    client.say_end();
    ended
}

/// Says why a relay opens no watch.
fn say_refused(rt: &HostRuntime, why: String) -> Status {
    let _ = eprintln!(rt; "relayd: watch: {}", why.as_str());
    let is_ours = matches!(
        why.as_str(),
        "not a pattern" | "no such destination" | "1 to 64 parts"
    );
    if is_ours {
        Status::ConfigurationFault
    } else {
        Status::DeviceFault
    }
}

impl<R: Wait + Clock> WatchClient<'_, R> {
    /// Opens a watch and asks it again and again, until it ends.
    fn go_on(&mut self) -> Ended {
        let waits = self.waits;
        for _ in waits.forever() {
            let is_last = self.millis() >= self.watching.seconds.saturating_mul(1_000);
            let turned = match self.number {
                None if is_last => return Ended::Whole,
                None => self.open(),
                Some(number) => self.ask(number, is_last),
            };
            if let Err(ended) = turned {
                return ended;
            }
            if is_last && self.number.is_none() {
                return Ended::Whole;
            }
            waits.sleep(Duration::from_millis(PAUSE_MS));
        }
        unreachable!()
    }

    /// How many milliseconds have passed.
    fn millis(&self) -> u64 {
        match self.began {
            Some(began) => match began.elapsed(self.rt) {
                Ok(passed) => u64::try_from(passed.as_millis()).unwrap_or(u64::MAX),
                Err(_) => u64::MAX,
            },
            None => u64::MAX,
        }
    }

    /// The answer to what is asked.
    fn answer(&self, request: WatchRequest<'_>) -> Result<Vec<u8>, AdminFault> {
        let mut asked = String::new(self.alloc);
        let pushed = push_watch(&mut asked, request);
        let answer = match pushed {
            Ok(()) => {
                let asked = asked.as_str().as_bytes();
                answer_about(self.rt, self.alloc, self.relay, AdminCommand::Watch, asked)
            }
            Err(fault) => Err(AdminFault::from(fault)),
        };
        drop(asked);
        answer
    }

    /// Has the relay open a watch. One whose run ends is asked again for a while.
    fn open(&mut self) -> Result<(), Ended> {
        let answer = match self.answer(wanted(self.watching)) {
            Ok(answer) => answer,
            Err(fault) => return Err(Ended::Fault(fault)),
        };
        let opened = self.opened_by(answer.as_slice());
        drop(answer);
        opened
    }

    /// Takes note of the answer to an open watch.
    fn opened_by(&mut self, answer: &[u8]) -> Result<(), Ended> {
        match watch_answer_in(answer) {
            Some(WatchAnswer::Opened(number)) => {
                self.number = number_in(number);
                self.ends_since = None;
                Ok(())
            }
            Some(WatchAnswer::Refused(why)) => {
                let why = utf8_text(why.strip_suffix(b"\n").unwrap_or(why)).unwrap_or("");
                if why == ENDS && self.may_try() {
                    return Ok(());
                }
                match String::from_str(self.alloc, why) {
                    Ok(why) => Err(Ended::Refused(why)),
                    Err(_) => Err(Ended::Fault(AdminFault::NoMemory)),
                }
            }
            _ => Err(Ended::Fault(AdminFault::NoRelay)),
        }
    }

    /// Whether a relay whose run ends is to be asked again.
    fn may_try(&mut self) -> bool {
        let now = self.millis();
        let since = self.ends_since.unwrap_or(now);
        self.ends_since = Some(since);
        now.saturating_sub(since) < MOST_TRIES_MS
    }

    /// Asks the watch of this number what it has gathered, for the last time or not, and shows that.
    fn ask(&mut self, number: u64, is_last: bool) -> Result<(), Ended> {
        let request = if is_last {
            WatchRequest::End(number)
        } else {
            WatchRequest::Next(number)
        };
        let answer = match self.answer(request) {
            Ok(answer) => answer,
            Err(fault) => return Err(Ended::Fault(fault)),
        };
        let taken = self.take(number, is_last, answer.as_slice());
        drop(answer);
        taken
    }

    /// Shows what a watch has gathered. Once enough was shown, the watch ends.
    fn take(&mut self, number: u64, is_last: bool, answer: &[u8]) -> Result<(), Ended> {
        let Some(said) = watch_answer_in(answer) else {
            return Err(Ended::Fault(AdminFault::NoRelay));
        };
        let gathered = match said {
            WatchAnswer::Gathered(gathered) => gathered,
            WatchAnswer::Over => {
                self.begin_anew();
                return Ok(());
            }
            _ => return Err(Ended::Fault(AdminFault::NoRelay)),
        };
        let Some((totals, lines)) = WatchTotals::read(gathered) else {
            return Err(Ended::Fault(AdminFault::NoRelay));
        };
        self.totals = totals;
        if is_last {
            self.number = None;
        }
        let shown = match &self.watching.wanted {
            WatchWanted::Datapoints { .. } => self.show_lines(lines),
            WatchWanted::Names { .. } => self.show_greatest(lines),
        };
        if shown.is_err() {
            self.end(number);
            return Err(Ended::Fault(AdminFault::Output));
        }
        if self.has_enough() {
            self.end(number);
            return Err(Ended::Whole);
        }
        Ok(())
    }

    /// The watch is over: another run has begun, or somebody has stopped the relay.
    fn begin_anew(&mut self) {
        self.number = None;
        self.earlier = self.earlier.with(self.totals);
        self.totals = WatchTotals::none();
        self.again = self.again.saturating_add(1);
    }

    /// Whether as many lines were shown as were wanted.
    fn has_enough(&self) -> bool {
        match (&self.watching.wanted, self.watching.lines) {
            (WatchWanted::Datapoints { .. }, Some(lines)) => self.shown >= lines,
            _ => false,
        }
    }

    /// Ends the watch of a number, whatever the relay answers.
    fn end(&mut self, number: u64) {
        if self.number.is_some() {
            let _answer = self.answer(WatchRequest::End(number)).is_ok();
            self.number = None;
        }
    }

    /// Shows these lines, as many as are wanted.
    fn show_lines(&mut self, lines: &[u8]) -> Result<(), AdminFault> {
        let most = match self.watching.lines {
            Some(most) => most.saturating_sub(self.shown),
            None => u64::MAX,
        };
        let shown = write_lines(&mut limited_output(self.rt), lines, most)?;
        self.shown = self.shown.saturating_add(shown);
        Ok(())
    }

    /// Shows the greatest, which these lines are, as many as are wanted.
    fn show_greatest(&mut self, lines: &[u8]) -> Result<(), AdminFault> {
        let most = self.watching.lines.unwrap_or(GREATEST);
        let mut text = String::new(self.alloc);
        let is_json = matches!(self.watching.form, OutputForm::Json);
        let pushed = push_counted(&mut text, lines, most, is_json);
        let written = match pushed {
            Ok(()) => write_lines(
                &mut limited_output(self.rt),
                text.as_str().as_bytes(),
                u64::MAX,
            ),
            Err(fault) => Err(AdminFault::from(fault)),
        };
        drop(text);
        written?;
        Ok(())
    }

    /// Says on standard error what was counted, and what was not shown, if a watch was open.
    fn say_end(&self) {
        let totals = self.earlier.with(self.totals);
        let mut text = String::new(self.alloc);
        let are_names = matches!(self.watching.wanted, WatchWanted::Names { .. });
        if totals.is_any && push_end(&mut text, totals, are_names, self.again).is_ok() {
            let _ = self.rt.stderr().write_all(text.as_str().as_bytes());
        }
        drop(text);
    }
}

/// What is asked to open a watch.
fn wanted(watching: &Watching) -> WatchRequest<'_> {
    match &watching.wanted {
        WatchWanted::Names { parts } => WatchRequest::Names(*parts),
        WatchWanted::Datapoints { dest, pattern } => WatchRequest::Lines(LinesWatch {
            is_json: matches!(watching.form, OutputForm::Json),
            dest: text_of(dest),
            pattern: text_of(pattern),
        }),
    }
}

/// The text that is there, if one is.
fn text_of(text: &Option<String>) -> Option<&str> {
    match text {
        Some(text) => Some(text.as_str()),
        None => None,
    }
}

/// The number in the answer of a relay that has opened a watch.
fn number_in(text: &[u8]) -> Option<u64> {
    let text = utf8_text(text.strip_suffix(b"\n").unwrap_or(text))?;
    whole_number_up_to(text, u64::MAX)
}
