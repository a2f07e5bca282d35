//! The end of a connection that took a part of a file.

use senders::{HalfClose, StoreEnd};

/// A connection that took a part of a file. It is half-closed, and its store ends it once that has read all.
#[derive(Drop)]
pub(crate) struct FileEnd<W> {
    sink: W,
    // Until when the store is waited for; none before the first look.
    until: Option<u64>,
}

/// What is known of a part that a connection took.
#[derive(Clone, Copy)]
pub(crate) enum PartEnd {
    /// Nothing yet.
    Open,
    /// The store has it.
    Taken,
    /// The store does not end the connection.
    NoEnd,
    /// The connection is lost.
    Lost,
}

impl<W: HalfClose> FileEnd<W> {
    /// This connection took a part of a file.
    pub(crate) fn begin(sink: W) -> FileEnd<W> {
        let mut sink = sink;
        sink.half_close();
        FileEnd { sink, until: None }
    }

    /// What is known of the part at these milliseconds, where a store may take so many to end a connection.
    pub(crate) fn look(&mut self, millis: u64, longest: u64) -> PartEnd {
        match self.sink.store_end() {
            StoreEnd::Orderly => PartEnd::Taken,
            StoreEnd::Lost => PartEnd::Lost,
            StoreEnd::NotYet => {
                let until = match self.until {
                    Some(until) => until,
                    None => millis.saturating_add(longest),
                };
                self.until = Some(until);
                if millis >= until {
                    PartEnd::NoEnd
                } else {
                    PartEnd::Open
                }
            }
        }
    }
}

impl<W: HalfClose> FileEnd<W> {
    /// Whether the connection is lost.
    pub(crate) fn is_lost(&self) -> bool {
        matches!(self.sink.store_end(), StoreEnd::Lost)
    }
}

impl<W> FileEnd<W> {
    /// The connection.
    pub(crate) fn into_sink(self) -> W {
        let FileEnd { sink, until: _ } = self;
        sink
    }
}
