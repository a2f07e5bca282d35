//! The listener of the admin port, and its connections.

use crate::admin_connection::{AdminConnection, Answer, Progress};
use admin_client::{AdminCommand, Asked};
use mio::Poll;
use mio::net::{TcpListener, TcpStream};
use mio_loops::{Readiness, ReadinessFault, Token};
use relay_base::{NoMemory, add, put};
use std::alloc::Global;
use std::io;
use std::io::ErrorKind;
use std::net::{Net, SocketAddr};
use std::rt::Clock;
use std::sync::Wait;
use std::time::Duration;

/// How many connections are served side by side. Others wait to be taken.
const MOST_CONNECTIONS: usize = 64;

/// How many of them may stay silent once the relay stops, until it ends.
const MOST_LEFT_ALONE: usize = 32;

/// How many connections a turn takes at most.
const MOST_TAKEN: usize = 1_024;

/// How many milliseconds a turn waits at most while there are connections.
const PAUSE_MS: u64 = 100;

/// How many milliseconds a turn waits at most while others wait for a place.
const SHORT_PAUSE_MS: u64 = 10;

/// Answers the commands.
pub trait Answers<R> {
    /// The answer to `report`. Refuses if out of memory.
    fn report(&self, rt: &R, alloc: Global) -> Result<Vec<u8>, NoMemory>;

    /// The answer to `files`. Refuses if out of memory.
    fn files(&self, alloc: Global) -> Result<Vec<u8>, NoMemory>;

    /// The answer to `route` with this text as the name; an empty one if it is no metric name. Refuses if out of memory.
    fn route(&mut self, alloc: Global, name: &[u8]) -> Result<Vec<u8>, NoMemory>;

    /// The answer to `watch` with this text, at these milliseconds; an empty one if it asks nothing of a watch. Refuses if out of
    /// memory.
    fn watch(&mut self, alloc: Global, asked: &[u8], millis: u64) -> Result<Vec<u8>, NoMemory>;

    /// The key that each command needs, if there is one.
    fn key(&self) -> Option<&[u8]>;
}

/// How many connections were refused what they asked for.
#[derive(Clone, Copy, PartialEq)]
pub struct Refusals {
    /// What they sent is no command.
    pub unknown: u64,
    /// They sent a command without the key.
    pub keyless: u64,
}

/// The listener of the admin port, with its connections.
#[derive(Drop)]
pub struct AdminListener {
    readiness: Readiness,
    listener: TcpListener,
    // A descriptor that is returned to the system if it has no other for a connection.
    spare: Option<Poll>,
    slots: Vec<Option<AdminConnection>>,
    // A connection that was taken, and waits for a place.
    next: Option<TcpStream>,
    // How many connections had a place.
    count: u64,
    refusals: Refusals,
    is_stopping: bool,
}

impl AdminListener {
    /// Watches a bound port. Refuses (`Device`) what the system refuses, and `NoMemory` if out of memory.
    pub fn new(
        rt: &impl Net,
        alloc: Global,
        listener: TcpListener,
    ) -> Result<AdminListener, ReadinessFault> {
        let mut listener = listener;
        let readiness = readiness_of(rt, alloc, &mut listener)?;
        let mut made = AdminListener {
            readiness,
            listener,
            spare: None,
            slots: Vec::new(alloc),
            next: None,
            count: 0,
            refusals: Refusals {
                unknown: 0,
                keyless: 0,
            },
            is_stopping: false,
        };
        match add_slots(&mut made.slots) {
            Ok(()) => Ok(made),
            Err(_) => {
                drop(made);
                Err(ReadinessFault::NoMemory)
            }
        }
    }

    /// One turn: goes on with each connection, takes those that wait, and then waits for at most this number of
    /// milliseconds, unless one has asked for a reload and none is under way. Returns whether a connection has asked for the end
    /// of the run, in this turn or before; it has its answer then.
    ///
    /// From the first such turn on it leaves alone the connections that have sent nothing: they end when the listener is
    /// dropped, so that a peer knows when the relay has ended.
    pub fn take_turn<R: Wait + Clock + Net, A: Answers<R>>(
        &mut self,
        rt: &R,
        alloc: Global,
        answers: &mut A,
        millis: u64,
        pause: u64,
    ) -> bool {
        let is_stopped = self.go_on_with_all(rt, alloc, answers, millis);
        self.is_stopping = self.is_stopping || is_stopped;
        let is_more = self.take_connections(rt, answers.key(), millis);
        if self.is_stopping {
            self.leave_alone();
        }
        let pause = self.pause(pause, is_more);
        let goes_on = is_stopped || self.oldest_asking().is_some() && !self.is_reloading();
        if !goes_on && self.readiness.wait(pause).is_err() {
            rt.sleep(Duration::from_millis(PAUSE_MS));
        }
        self.is_stopping
    }

    /// How many connections were refused what they asked for.
    pub fn refusals(&self) -> Refusals {
        self.refusals
    }

    /// The number of the oldest connection that has asked for a reload, which begins: the connection waits until that is
    /// answered ([`AdminListener::answer_reload`]). Call it after each turn while no reload is under way.
    pub fn next_reload(&mut self) -> Option<u64> {
        let place = self.oldest_asking()?;
        match self.slots.get_mut(place) {
            Some(Some(connection)) => {
                connection.begin_reload();
                Some(connection.number())
            }
            _ => None,
        }
    }

    /// Whether a reload is under way.
    fn is_reloading(&self) -> bool {
        for slot in self.slots.as_slice() {
            if let Some(connection) = slot {
                if connection.is_reloading() {
                    return true;
                }
            }
        }
        false
    }

    /// The place of the oldest connection that has asked for a reload, which has not begun.
    fn oldest_asking(&self) -> Option<usize> {
        let mut oldest = None;
        let mut least = u64::MAX;
        for place in 0..self.slots.len() {
            if let Some(Some(connection)) = self.slots.get(place) {
                if connection.asks_for_reload() && connection.number() <= least {
                    least = connection.number();
                    oldest = Some(place);
                }
            }
        }
        oldest
    }

    /// Answers the connection of this number, which has asked for a reload, at these milliseconds.
    pub fn answer_reload(&mut self, number: u64, text: Vec<u8>, millis: u64) {
        self.begin_answer(number, Answer::Text(text), millis);
    }

    /// Keeps what the connection of this number is answered once the reload that it has asked for is done.
    pub fn keep_answer(&mut self, number: u64, text: Vec<u8>) {
        if let Some(place) = self.place_of(number) {
            if let Some(Some(connection)) = self.slots.get_mut(place) {
                connection.keep_answer(text);
            }
        }
    }

    /// The reload that the connection of this number has asked for is done: it is answered what is kept for it, or that the
    /// relay runs by its files. It takes no memory.
    pub fn answer_reloaded(&mut self, number: u64, millis: u64) {
        if let Some(place) = self.place_of(number) {
            if let Some(Some(connection)) = self.slots.get_mut(place) {
                connection.end_reload(millis);
            }
        }
    }

    /// Answers the connection of this number, which has asked for a reload, that there is no memory for it. It takes none.
    pub fn answer_no_memory(&mut self, number: u64, millis: u64) {
        self.begin_answer(number, Answer::NoMemory, millis);
    }

    /// Answers the connection of this number, which has asked for a reload, that the relay has no such command.
    pub fn refuse_reload(&mut self, number: u64, millis: u64) {
        self.begin_answer(number, Answer::UnknownCommand, millis);
    }

    /// Gives the connection of this number an answer to take, if it is there.
    fn begin_answer(&mut self, number: u64, answer: Answer, millis: u64) {
        if let Some(place) = self.place_of(number) {
            if let Some(Some(connection)) = self.slots.get_mut(place) {
                connection.begin_answer(answer, millis);
            }
        }
    }

    /// The place of the connection of this number, if it is there.
    fn place_of(&self, number: u64) -> Option<usize> {
        for place in 0..self.slots.len() {
            if let Some(Some(connection)) = self.slots.get(place) {
                if connection.number() == number {
                    return Some(place);
                }
            }
        }
        None
    }

    /// For how many milliseconds a turn waits, if it may wait for this number, and others wait for a place.
    fn pause(&self, pause: u64, is_more: bool) -> u64 {
        if is_more {
            pause.min(SHORT_PAUSE_MS)
        } else if self.is_idle() {
            pause
        } else {
            pause.min(PAUSE_MS)
        }
    }

    /// Whether there is no connection.
    fn is_idle(&self) -> bool {
        for slot in self.slots.as_slice() {
            if slot.is_some() {
                return false;
            }
        }
        true
    }

    /// Goes on with each connection. Returns whether one of them asked for the end of the run.
    fn go_on_with_all<R, A: Answers<R>>(
        &mut self,
        rt: &R,
        alloc: Global,
        answers: &mut A,
        millis: u64,
    ) -> bool {
        let mut is_stopped = false;
        let mut refusals = self.refusals;
        for slot in self.slots.as_mut_slice().iter_mut() {
            let progress = match slot {
                Some(connection) => go_on(connection, rt, alloc, answers, millis, &mut refusals),
                None => continue,
            };
            is_stopped = is_stopped || matches!(progress, Progress::Asks(_));
            if matches!(progress, Progress::Over) {
                put(slot, None);
            }
        }
        self.refusals = refusals;
        is_stopped
    }

    /// Takes the connections that wait, as far as there are places. Returns whether others may wait.
    fn take_connections<R: Net>(&mut self, rt: &R, key: Option<&[u8]>, millis: u64) -> bool {
        if self.spare.is_none() {
            put(&mut self.spare, Poll::new(rt).ok());
        }
        for _ in 0..MOST_TAKEN {
            match self.next_connection(key, millis) {
                AcceptOutcome::Stream(stream) => {
                    if !self.keep(stream, key, millis) {
                        return true;
                    }
                }
                AcceptOutcome::Nothing => return false,
                AcceptOutcome::Later => return true,
            }
        }
        true
    }

    /// The connection that was taken before, or takes one. If the system has no descriptor for it, it gets the spare one,
    /// or that of the oldest connection that gives way.
    fn next_connection(&mut self, key: Option<&[u8]>, millis: u64) -> AcceptOutcome {
        if let Some(stream) = self.next.take() {
            return AcceptOutcome::Stream(stream);
        }
        match accepted_of(self.listener.accept()) {
            AcceptOutcome::Later => {}
            other => return other,
        }
        if self.spare.is_some() {
            put(&mut self.spare, None);
        } else if let Some(place) = self.place_given_up(key, millis) {
            self.close(place);
        }
        accepted_of(self.listener.accept())
    }

    /// Keeps a connection at a free place, or at that of the oldest one that gives way. Returns whether there is one; if
    /// not, it is the next.
    fn keep(&mut self, stream: TcpStream, key: Option<&[u8]>, millis: u64) -> bool {
        let free = self.free_place();
        let place = match free {
            Some(place) => Some(place),
            None => self.place_given_up(key, millis),
        };
        let Some(place) = place else {
            put(&mut self.next, Some(stream));
            return false;
        };
        self.close(place);
        self.watch(stream, place, millis);
        true
    }

    /// Watches a connection under the number of its place, and keeps it there. One that the system does not watch is
    /// closed.
    fn watch(&mut self, stream: TcpStream, place: usize, millis: u64) {
        let mut stream = stream;
        let watched = self.readiness.add_stream(&mut stream, Token(place));
        if watched.is_err() {
            return;
        }
        let number = self.count;
        self.count = number.saturating_add(1);
        if let Some(slot) = self.slots.get_mut(place) {
            put(slot, Some(AdminConnection::new(stream, number, millis)));
        }
    }

    /// Closes the connection at a place, if there is one.
    fn close(&mut self, place: usize) {
        if let Some(slot) = self.slots.get_mut(place) {
            put(slot, None);
        }
    }

    /// A place without a connection.
    fn free_place(&self) -> Option<usize> {
        for place in 0..self.slots.len() {
            if matches!(self.slots.get(place), Some(None)) {
                return Some(place);
            }
        }
        None
    }

    /// The place of the oldest connection that gives way at these milliseconds: after another look its command has not come.
    fn place_given_up(&mut self, key: Option<&[u8]>, millis: u64) -> Option<usize> {
        let mut least = 0;
        for _ in 0..MOST_CONNECTIONS {
            let place = self.oldest_from(least, millis)?;
            if let Some(Some(connection)) = self.slots.get_mut(place) {
                if connection.has_nothing_new(key) {
                    return Some(place);
                }
                least = connection.number().saturating_add(1);
            }
        }
        None
    }

    /// The place of the connection with the least number from this one on that gives way at these milliseconds.
    fn oldest_from(&self, least: u64, millis: u64) -> Option<usize> {
        let mut oldest = None;
        let mut next = u64::MAX;
        for place in 0..self.slots.len() {
            if let Some(Some(connection)) = self.slots.get(place) {
                let number = connection.number();
                if connection.gives_way(millis) && number >= least && number < next {
                    next = number;
                    oldest = Some(place);
                }
            }
        }
        oldest
    }

    /// Leaves alone the silent connections, the newest first, as many as may be left alone.
    fn leave_alone(&mut self) {
        let mut left = MOST_LEFT_ALONE.saturating_sub(self.count_left_alone());
        for _ in 0..MOST_LEFT_ALONE {
            if left == 0 {
                return;
            }
            let Some(place) = self.newest_silent() else {
                return;
            };
            if let Some(Some(connection)) = self.slots.get_mut(place) {
                connection.leave_alone();
            }
            left -= 1;
        }
    }

    /// How many connections are left alone.
    fn count_left_alone(&self) -> usize {
        let mut count: usize = 0;
        for slot in self.slots.as_slice() {
            if let Some(connection) = slot {
                if connection.is_left_alone() {
                    count = count.saturating_add(1);
                }
            }
        }
        count
    }

    /// The place of the newest connection that is silent, and not left alone yet.
    fn newest_silent(&self) -> Option<usize> {
        let mut newest = None;
        let mut most = 0;
        for place in 0..self.slots.len() {
            if let Some(Some(connection)) = self.slots.get(place) {
                let is_new = connection.is_silent() && !connection.is_left_alone();
                if is_new && connection.number() >= most {
                    most = connection.number();
                    newest = Some(place);
                }
            }
        }
        newest
    }
}

/// What waits for connections at a listener, under the number after those of their places.
fn readiness_of(
    rt: &impl Net,
    alloc: Global,
    listener: &mut TcpListener,
) -> Result<Readiness, ReadinessFault> {
    let readiness = Readiness::new(rt, alloc, MOST_CONNECTIONS + 1)?;
    readiness.add_listener(listener, Token(MOST_CONNECTIONS))?;
    Ok(readiness)
}

/// Adds a place for each connection.
fn add_slots(slots: &mut Vec<Option<AdminConnection>>) -> Result<(), NoMemory> {
    for _ in 0..MOST_CONNECTIONS {
        add(slots, None)?;
    }
    Ok(())
}

/// The outcome of a try to take a connection.
#[derive(Drop)]
enum AcceptOutcome {
    /// A connection.
    Stream(TcpStream),
    /// None waits.
    Nothing,
    /// One may wait, and is taken later.
    Later,
}

/// The outcome of a try that returned this.
fn accepted_of(returned: io::Result<(TcpStream, SocketAddr)>) -> AcceptOutcome {
    match returned {
        Ok((stream, _)) => AcceptOutcome::Stream(stream),
        Err(error) => match error.kind() {
            ErrorKind::WouldBlock => AcceptOutcome::Nothing,
            _ => AcceptOutcome::Later,
        },
    }
}

impl Refusals {
    /// The counts after a connection that asks for this.
    fn after(self, asked: Asked) -> Refusals {
        let Refusals { unknown, keyless } = self;
        match asked {
            Asked::Command(_) => self,
            Asked::Unknown => Refusals {
                unknown: unknown.saturating_add(1),
                keyless,
            },
            Asked::WithoutKey => Refusals {
                unknown,
                keyless: keyless.saturating_add(1),
            },
        }
    }
}

/// Goes on with a connection, and answers what it asks for, which is returned if it is the end of the run. If there is no memory
/// for the answer, the connection is to be closed.
fn go_on<R, A: Answers<R>>(
    connection: &mut AdminConnection,
    rt: &R,
    alloc: Global,
    answers: &mut A,
    millis: u64,
    refusals: &mut Refusals,
) -> Progress {
    let progress = connection.go_on(answers.key(), millis);
    let Progress::Asks(asked) = progress else {
        return progress;
    };
    let Some(answer) = answer_to(connection, rt, alloc, answers, asked, millis) else {
        return Progress::Over;
    };
    connection.begin_answer(answer, millis);
    *refusals = refusals.after(asked);
    let after = connection.go_on(answers.key(), millis);
    match asked {
        Asked::Command(AdminCommand::Stop) => progress,
        _ => after,
    }
}

/// The answer to what a connection asks for; `None` if there is no memory for it.
fn answer_to<R, A: Answers<R>>(
    connection: &AdminConnection,
    rt: &R,
    alloc: Global,
    answers: &mut A,
    asked: Asked,
    millis: u64,
) -> Option<Answer> {
    let command = match asked {
        Asked::Command(command) => command,
        Asked::Unknown => return Some(Answer::UnknownCommand),
        Asked::WithoutKey => return Some(Answer::WrongKey),
    };
    match command {
        AdminCommand::Report => match answers.report(rt, alloc) {
            Ok(report) => Some(Answer::Text(report)),
            Err(_) => None,
        },
        AdminCommand::Files => text_or_unknown(answers.files(alloc)),
        AdminCommand::Route => match connection.routed_name() {
            Some(name) => text_or_unknown(answers.route(alloc, name)),
            None => Some(Answer::UnknownCommand),
        },
        AdminCommand::Watch => match connection.asked_of_watch() {
            Some(asked) => text_or_unknown(answers.watch(alloc, asked, millis)),
            None => Some(Answer::UnknownCommand),
        },
        AdminCommand::Stop => Some(Answer::Stopping),
        // A connection that asks for a reload waits for its answer elsewhere.
        AdminCommand::Reload => Some(Answer::UnknownCommand),
    }
}

/// The answer of this text; an empty one answers no command. `None` if there is no memory for it.
fn text_or_unknown(text: Result<Vec<u8>, NoMemory>) -> Option<Answer> {
    match text {
        Ok(text) if text.is_empty() => Some(Answer::UnknownCommand),
        Ok(text) => Some(Answer::Text(text)),
        Err(_) => None,
    }
}
