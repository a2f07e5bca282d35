//! A reader beside that of a replay.

use line_text::{FeedEnd, LineReader, Moment, Point, datagram};
use pickle_subset::{FrameEnd, PickleReader};
use reader_core::ReaderKind;
use relay_base::NoMemory;
use std::alloc::Global;

/// A reader that gets what a reader of a replay gets.
#[derive(Drop)]
pub struct WatchedReader {
    kind: ReaderKind,
    input: Input,
    /// How many offers of the replay's reader wait.
    pub waiting: usize,
}

/// The current connection, if the reader has connections.
#[derive(Drop)]
enum Input {
    Lines(LineReader),
    Pickles(PickleReader),
    Datagrams,
}

impl Input {
    /// A connection that has given nothing yet.
    fn new(alloc: Global, kind: ReaderKind) -> Input {
        match kind {
            ReaderKind::Line => Input::Lines(LineReader::new(alloc)),
            ReaderKind::Pickle => Input::Pickles(PickleReader::new(alloc)),
            ReaderKind::Datagram => Input::Datagrams,
        }
    }
}

impl WatchedReader {
    /// A reader that has got nothing yet.
    pub fn new(alloc: Global, kind: ReaderKind) -> WatchedReader {
        WatchedReader {
            kind,
            input: Input::new(alloc, kind),
            waiting: 0,
        }
    }

    /// Ends the connection.
    pub fn end(&mut self, alloc: Global) {
        self.input = Input::new(alloc, self.kind);
    }

    /// Adds the datapoints of a piece, and returns whether some of its connection is bad or too long.
    pub fn read(
        &mut self,
        alloc: Global,
        piece: &[u8],
        moment: Moment,
        points: &mut Vec<Point>,
    ) -> Result<bool, NoMemory> {
        match &mut self.input {
            Input::Lines(reader) => {
                let end = reader.feed(piece, moment, points)?;
                Ok(matches!(end, FeedEnd::LineTooLong) || reader.bad_lines() > 0)
            }
            Input::Pickles(reader) => {
                let end = reader.feed(piece, moment, points)?;
                let bad = reader.bad_pickles().max(reader.bad_rows());
                Ok(matches!(end, FrameEnd::FrameTooLong) || bad > 0)
            }
            Input::Datagrams => Ok(datagram(alloc, piece, moment, points)? > 0),
        }
    }
}
