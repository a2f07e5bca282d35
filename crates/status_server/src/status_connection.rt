//! One connection, from its request to its answer.

use crate::page::StatusTexts;
use crate::service::StatusService;
use http_server::{Config, Connection};
use http1::Limits;
use mio::net::TcpStream;
use mio_loops::exchange::{MOST_TRIES, PATIENCE_MS, Stage, Transfer, read_away};
use std::alloc::Global;
use std::hash::RandomState;
use std::net::Shutdown;

/// After how many milliseconds without a whole request a connection may have to make room for another.
const HURRY_MS: u64 = 100;

/// The greatest number of bytes of a request's head, and of its body.
const LONGEST_REQUEST: usize = 8_192;

const CONFIG: Config = Config {
    limits: Limits {
        max_head_len: LONGEST_REQUEST,
        max_extensions_len: 64,
        max_trailers_len: 64,
    },
    max_body_len: LONGEST_REQUEST,
    max_pending: 65_536,
    read_size: 2_048,
};

/// What a connection does next.
#[derive(Clone, Copy)]
pub(crate) enum Progress {
    /// It waits for its peer.
    Waits,
    /// It is to be closed.
    Over,
}

/// A connection that sends one request and takes its answer, both in time.
#[derive(Drop)]
pub(crate) struct StatusConnection {
    stream: TcpStream,
    connection: Connection,
    stage: Stage,
    // The milliseconds at which its time is over.
    until: u64,
}

impl StatusConnection {
    /// A connection that was taken at these milliseconds.
    pub(crate) fn new(
        alloc: Global,
        keys: RandomState,
        stream: TcpStream,
        millis: u64,
    ) -> StatusConnection {
        StatusConnection {
            stream,
            connection: Connection::new(alloc, keys, CONFIG),
            stage: Stage::Question,
            until: millis.saturating_add(PATIENCE_MS),
        }
    }

    /// Whether it has sent no whole request for so long, at these milliseconds, that it may have to make room for another.
    pub(crate) fn may_give_way(&self, millis: u64) -> bool {
        matches!(self.stage, Stage::Question)
            && millis.saturating_add(PATIENCE_MS - HURRY_MS) >= self.until
    }

    /// Goes on as far as it can without waiting. A connection whose time is over, at these milliseconds, is to be closed.
    pub(crate) fn go_on<T: StatusTexts>(
        &mut self,
        service: &mut StatusService<'_, T>,
        millis: u64,
    ) -> Progress {
        for _ in 0..MOST_TRIES {
            match self.try_once(service, millis) {
                None => {}
                Some(Progress::Waits) => break,
                Some(Progress::Over) => return Progress::Over,
            }
        }
        if millis >= self.until {
            Progress::Over
        } else {
            Progress::Waits
        }
    }

    /// Makes one read or write, or enters the next stage. Returns what the connection does next, unless it goes on.
    fn try_once<T: StatusTexts>(
        &mut self,
        service: &mut StatusService<'_, T>,
        millis: u64,
    ) -> Option<Progress> {
        if matches!(self.stage, Stage::End) {
            return Some(self.read_away());
        }
        self.connection.advance(service);
        match (self.stage, self.connection.wants_write()) {
            (Stage::Question, true) => self.enter(Stage::Answer, millis),
            (Stage::Question, false) => return self.read_request(),
            (_, true) => return self.write_answer(),
            (_, false) => {
                let _ = self.stream.shutdown(Shutdown::Write);
                self.enter(Stage::End, millis);
            }
        }
        None
    }

    /// Makes one read of the request.
    fn read_request(&mut self) -> Option<Progress> {
        if self.connection.is_done() {
            return Some(Progress::Over);
        }
        match Transfer::of(self.connection.read_from(&mut self.stream)) {
            Transfer::Bytes(_) | Transfer::End => None,
            Transfer::Blocked => Some(Progress::Waits),
            Transfer::Failed => Some(Progress::Over),
        }
    }

    /// Writes what its peer takes of the answer.
    fn write_answer(&mut self) -> Option<Progress> {
        match Transfer::of(self.connection.write_to(&mut self.stream)) {
            Transfer::Bytes(_) => None,
            Transfer::Blocked => Some(Progress::Waits),
            Transfer::End | Transfer::Failed => Some(Progress::Over),
        }
    }

    /// Reads and drops all bytes, until its peer has closed the connection.
    fn read_away(&mut self) -> Progress {
        let mut room = [0u8; 4_096];
        if read_away(&mut self.stream, &mut room) {
            Progress::Over
        } else {
            Progress::Waits
        }
    }

    /// The next stage, which has its own time.
    fn enter(&mut self, stage: Stage, millis: u64) {
        self.stage = stage;
        self.until = millis.saturating_add(PATIENCE_MS);
    }
}
