//! A connection of the admin port.

ghost use Rattle.std.specs.Prelude.{◌≤◌, length};

use admin_client::{
    AdminCommand, Asked, LONGEST_COMMAND, LONGEST_KEY, REFUSED_FOR_MEMORY, RELOADED, STOPPING,
    UNKNOWN_COMMAND, WRONG_KEY, asked_in, asked_of_watch, behind_key, routed_name,
};
use mio::net::TcpStream;
use mio_loops::exchange::{MOST_TRIES, PATIENCE_MS, Transfer, read_away};
use std::io::{Read, Write};
use std::mem;
use std::net::Shutdown;

/// How many milliseconds a connection has to send its command, or to close, if others wait for its place.
pub(crate) const LEAST_PATIENCE_MS: u64 = 100;

/// The room for a command: its text, a byte 13 and a byte 10; and before it a line with the key, behind the four bytes of its
/// word.
const COMMAND_ROOM: usize = LONGEST_KEY + LONGEST_COMMAND + 8;

/// The state of a connection.
#[derive(Clone, Copy)]
enum AdminStage {
    /// Its command is being read.
    Command,
    /// Its command is `reload`, and the end of what its peer sends has not come.
    Ending,
    /// It has asked for a reload, which has not begun.
    Asking,
    /// It has asked for a reload, which is under way.
    Pending,
    /// It takes the answer.
    Answer,
    /// It has the answer. What else it sends is read and dropped, so that closing it does not take the answer from it.
    End,
}

/// What a connection does next.
#[derive(Clone, Copy)]
pub(crate) enum Progress {
    /// It waits for its peer.
    Waits,
    /// It is to be closed.
    Over,
    /// What it asks for was read to its end, and is to be answered.
    Asks(Asked),
}

/// A connection that sends one command and takes its answer, both in time.
#[derive(Drop)]
pub(crate) struct AdminConnection {
    stream: TcpStream,
    stage: AdminStage,
    // The bytes of the command so far, and how many they are.
    room: [u8; COMMAND_ROOM],
    count: usize,
    // What is answered once the reload that it has asked for is done.
    after_reload: Answer,
    // The answer, and how many bytes of it were taken.
    answer: Answer,
    written: usize,
    // The milliseconds at which its stage began.
    since: u64,
    // The place among all connections in the order in which they were taken.
    number: u64,
    // Whether it may stay silent until the relay ends.
    is_left_alone: bool,
}

/// An answer.
#[derive(Drop)]
pub(crate) enum Answer {
    /// There is none yet.
    Nothing,
    /// The relay stops.
    Stopping,
    /// What was sent is no command.
    UnknownCommand,
    /// What was sent is a command without the key.
    WrongKey,
    /// The relay runs by what its files say now.
    Reloaded,
    /// There is no memory for a reload.
    NoMemory,
    /// The counts of each destination's queue, what became of a reload, where a name goes, or what a watch says.
    Text(Vec<u8>),
}

impl Answer {
    fn bytes(&self) -> &[u8] {
        match self {
            Answer::Nothing => b"".as_slice(),
            Answer::Stopping => STOPPING,
            Answer::UnknownCommand => UNKNOWN_COMMAND,
            Answer::WrongKey => WRONG_KEY,
            Answer::Reloaded => RELOADED,
            Answer::NoMemory => REFUSED_FOR_MEMORY,
            Answer::Text(text) => text.as_slice(),
        }
    }
}

impl AdminConnection {
    /// A connection of a number, which was taken at these milliseconds.
    pub(crate) fn new(stream: TcpStream, number: u64, millis: u64) -> AdminConnection {
        AdminConnection {
            stream,
            stage: AdminStage::Command,
            room: [0u8; COMMAND_ROOM],
            count: 0,
            after_reload: Answer::Reloaded,
            answer: Answer::Nothing,
            written: 0,
            since: millis,
            number,
            is_left_alone: false,
        }
    }

    /// The place among all connections in the order in which they were taken.
    pub(crate) fn number(&self) -> u64 {
        self.number
    }

    /// Whether it has sent nothing, and may stay silent until the relay ends.
    pub(crate) fn is_left_alone(&self) -> bool {
        self.is_left_alone && self.is_silent()
    }

    /// Whether it has sent nothing.
    pub(crate) fn is_silent(&self) -> bool {
        matches!(self.stage, AdminStage::Command) && self.count == 0
    }

    /// As long as it is silent, it is not closed before the relay ends.
    pub(crate) fn leave_alone(&mut self) {
        self.is_left_alone = true;
    }

    /// Whether it gives its place to one that waits, at these milliseconds: it has sent no command or has its answer, and
    /// had a while to send the one, or to close.
    pub(crate) fn gives_way(&self, millis: u64) -> bool {
        match self.stage {
            AdminStage::Answer | AdminStage::Asking | AdminStage::Pending => false,
            _ => !self.is_left_alone() && self.has_had(LEAST_PATIENCE_MS, millis),
        }
    }

    /// Whether nothing more has come of its command, after another look.
    pub(crate) fn has_nothing_new(&mut self, key: Option<&[u8]>) -> bool {
        match self.stage {
            AdminStage::Command => {
                let before = self.count;
                matches!(self.read_command(key), Progress::Waits) && self.count == before
            }
            _ => true,
        }
    }

    /// Whether its stage has lasted for this many milliseconds, at these.
    fn has_had(&self, patience: u64, millis: u64) -> bool {
        millis.saturating_sub(self.since) >= patience
    }

    /// Goes on as far as it can without waiting, at a port with this key, or without one. A connection whose time is over, at
    /// these milliseconds, is to be closed.
    pub(crate) fn go_on(&mut self, key: Option<&[u8]>, millis: u64) -> Progress {
        let progress = match self.stage {
            AdminStage::Command => self.read_command(key),
            AdminStage::Ending => self.read_end(),
            AdminStage::Asking | AdminStage::Pending => Progress::Waits,
            AdminStage::Answer => self.write_answer(millis),
            AdminStage::End => self.read_away(),
        };
        let is_late = self.has_had(PATIENCE_MS, millis) && !self.may_wait();
        if matches!(progress, Progress::Waits) && is_late {
            return Progress::Over;
        }
        progress
    }

    /// Whether it may wait for as long as it does: for the end of the relay, or for that of a reload.
    fn may_wait(&self) -> bool {
        self.is_left_alone() || matches!(self.stage, AdminStage::Asking | AdminStage::Pending)
    }

    /// The name of which it has asked where that goes.
    pub(crate) fn routed_name(&self) -> Option<&[u8]> {
        routed_name(behind_key(&self.room[..self.count.min(COMMAND_ROOM)]))
    }

    /// What it has asked of a watch.
    pub(crate) fn asked_of_watch(&self) -> Option<&[u8]> {
        asked_of_watch(behind_key(&self.room[..self.count.min(COMMAND_ROOM)]))
    }

    /// Whether it has asked for a reload, which has not begun.
    pub(crate) fn asks_for_reload(&self) -> bool {
        matches!(self.stage, AdminStage::Asking)
    }

    /// Whether it has asked for a reload that is under way.
    pub(crate) fn is_reloading(&self) -> bool {
        matches!(self.stage, AdminStage::Pending)
    }

    /// The reload that it has asked for begins.
    pub(crate) fn begin_reload(&mut self) {
        self.stage = AdminStage::Pending;
    }

    /// What it is answered once its reload is done ([`AdminConnection::end_reload`]).
    pub(crate) fn keep_answer(&mut self, text: Vec<u8>) {
        self.after_reload = Answer::Text(text);
    }

    /// The reload that it has asked for is done. It takes no memory.
    pub(crate) fn end_reload(&mut self, millis: u64) {
        let answer = mem::replace(&mut self.after_reload, Answer::Nothing);
        self.begin_answer(answer, millis);
    }

    /// Gives it this answer to take.
    pub(crate) fn begin_answer(&mut self, answer: Answer, millis: u64) {
        self.answer = answer;
        self.stage = AdminStage::Answer;
        self.since = millis;
    }

    /// Reads until there is the byte 10 of a command, the end of what its peer sends, or no more room.
    fn read_command(&mut self, key: Option<&[u8]>) -> Progress {
        for _ in 0..MOST_TRIES {
            let count = self.count.min(COMMAND_ROOM);
            if count == COMMAND_ROOM || behind_key(&self.room[..count]).contains(&b'\n') {
                return self.end_command(key);
            }
            match Transfer::of(self.stream.read(&mut self.room[count..])) {
                Transfer::Bytes(more) => self.count = count.saturating_add(more),
                Transfer::End => return self.end_command(key),
                Transfer::Blocked => return Progress::Waits,
                Transfer::Failed => return Progress::Over,
            }
        }
        Progress::Waits
    }

    /// The command has come. One for a reload stands alone: it goes on up to the end of what its peer sends.
    fn end_command(&mut self, key: Option<&[u8]>) -> Progress {
        let sent = &self.room[..self.count.min(COMMAND_ROOM)];
        let asked = asked_in(key, sent);
        let Asked::Command(AdminCommand::Reload) = asked else {
            return Progress::Asks(asked);
        };
        if has_more(behind_key(sent)) {
            return Progress::Asks(Asked::Unknown);
        }
        self.stage = AdminStage::Ending;
        self.read_end()
    }

    /// Reads the end of what its peer sends. What has more behind `reload`, such as names of files, is no command.
    fn read_end(&mut self) -> Progress {
        let mut room = [0u8; 1];
        match Transfer::of(self.stream.read(&mut room)) {
            Transfer::Bytes(_) => Progress::Asks(Asked::Unknown),
            Transfer::End => {
                self.stage = AdminStage::Asking;
                Progress::Waits
            }
            Transfer::Blocked => Progress::Waits,
            Transfer::Failed => Progress::Over,
        }
    }

    /// Writes what its peer takes of the answer. After the last byte it closes its side.
    fn write_answer(&mut self, millis: u64) -> Progress {
        for _ in 0..MOST_TRIES {
            let bytes = self.answer.bytes();
            let written = self.written.min(bytes.len());
            let (_, left) = bytes.split_at(written);
            if left.is_empty() {
                let _ = self.stream.shutdown(Shutdown::Write);
                self.stage = AdminStage::End;
                self.since = millis;
                return self.read_away();
            }
            match Transfer::of(self.stream.write(left)) {
                Transfer::Bytes(count) => self.written = written.saturating_add(count),
                Transfer::Blocked => return Progress::Waits,
                Transfer::End | Transfer::Failed => return Progress::Over,
            }
        }
        Progress::Waits
    }

    /// Reads and drops all bytes, until its peer has closed the connection.
    fn read_away(&mut self) -> Progress {
        let mut room = [0u8; 1024];
        if read_away(&mut self.stream, &mut room) {
            Progress::Over
        } else {
            Progress::Waits
        }
    }
}

/// Whether there is something behind the first line.
fn has_more(sent: &[u8]) -> bool {
    match sent.iter().position(|byte| *byte == b'\n') {
        Some(place) => place.saturating_add(1) < sent.len(),
        None => false,
    }
}
