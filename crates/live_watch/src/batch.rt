//! What a receiver hands over to a watch.

use dest_queue::Kept;
use log_lines::ReceiverName;
use relay_base::{DestId, NoMemory};
use std::alloc::Global;
use std::net::IpAddr;

/// How many bytes of pieces a batch has room for.
const BATCH_BYTES: usize = 524_288;

/// How many pieces it has room for.
const BATCH_PIECES: usize = 4_096;

/// How many offers it has room for.
const BATCH_OFFERS: usize = 131_072;

/// Where a piece of a connection begins, or a datagram.
#[derive(Clone, Copy)]
pub enum PieceStart {
    /// Behind the last piece of the connection, which was handed over.
    Follows,
    /// At the begin of a line, of a frame or of a datagram.
    Fresh,
    /// Within a line or a frame, which ends behind so many bytes; `usize::MAX` if that is not known.
    Within { lacks: usize },
}

/// What is known of a piece before it is read: its receiver, the address from which it came, the number of its connection there,
/// and where it begins.
#[derive(Clone, Copy)]
pub struct PieceHead {
    /// The name of its receiver.
    pub receiver: ReceiverName,
    /// The address of its producer.
    pub producer: IpAddr,
    /// The number of its connection at its receiver; 0 for a datagram.
    pub connection: usize,
    /// Where it begins.
    pub start: PieceStart,
}

/// A piece in a batch: how many bytes and offers it has, and whether all of its offers are there.
#[derive(Clone, Copy)]
pub(crate) struct BatchPiece {
    pub(crate) head: PieceHead,
    pub(crate) bytes: usize,
    pub(crate) offers: usize,
    pub(crate) is_whole: bool,
}

/// A piece with its bytes and its offers, and whether all of these are there.
#[derive(Clone, Copy)]
pub(crate) struct SeenPiece<'b> {
    pub(crate) head: PieceHead,
    pub(crate) bytes: &'b [u8],
    pub(crate) offers: &'b [NotedOffer],
    pub(crate) is_whole: bool,
}

/// An offer that was made.
#[derive(Clone, Copy)]
pub struct NotedOffer {
    /// The destination.
    pub dest: u8,
    /// What became of it.
    pub kept: Kept,
}

impl NotedOffer {
    /// An offer to a destination.
    pub(crate) fn new(dest: DestId, kept: Kept) -> NotedOffer {
        NotedOffer {
            dest: u8::try_from(dest.0).unwrap_or(u8::MAX),
            kept,
        }
    }
}

/// Pieces of one watch, in the order in which they were read, with their offers. Its memory is there from the first.
#[derive(Drop)]
pub(crate) struct Batch {
    watch: u64,
    bytes: Vec<u8>,
    pieces: Vec<BatchPiece>,
    offers: Vec<NotedOffer>,
}

impl Batch {
    /// An empty batch of the watch of a number. Refuses if out of memory.
    pub(crate) fn new(alloc: Global, watch: u64) -> Result<Batch, NoMemory> {
        Ok(Batch {
            watch,
            bytes: Vec::with_capacity(alloc, BATCH_BYTES)?,
            pieces: Vec::with_capacity(alloc, BATCH_PIECES)?,
            offers: Vec::with_capacity(alloc, BATCH_OFFERS)?,
        })
    }

    /// The number of its watch.
    pub(crate) fn watch(&self) -> u64 {
        self.watch
    }

    /// Whether it has no piece.
    pub(crate) fn is_empty(&self) -> bool {
        self.pieces.is_empty()
    }

    /// Whether it has room for a piece of so many bytes.
    pub(crate) fn has_room(&self, count: usize) -> bool {
        self.bytes.len().saturating_add(count) <= BATCH_BYTES
            && self.pieces.len() < BATCH_PIECES
            && self.offers.len() < BATCH_OFFERS
    }

    /// Adds a piece, whose offers follow. It has room for that, and takes no memory.
    pub(crate) fn add(&mut self, head: PieceHead, bytes: &[u8]) -> bool {
        self.bytes.extend_from_slice(bytes).is_ok()
            && self
                .pieces
                .push(BatchPiece {
                    head,
                    bytes: bytes.len(),
                    offers: 0,
                    is_whole: true,
                })
                .is_ok()
    }

    /// Adds an offer of the last piece. If there is no room for it, the piece is not whole.
    pub(crate) fn note(&mut self, offer: NotedOffer) {
        let has_room = self.offers.len() < BATCH_OFFERS && self.offers.push(offer).is_ok();
        if let Some(piece) = self.pieces.last_mut() {
            if has_room {
                piece.offers = piece.offers.saturating_add(1);
            } else {
                piece.is_whole = false;
            }
        }
    }

    /// The pieces.
    pub(crate) fn pieces(&self) -> &[BatchPiece] {
        self.pieces.as_slice()
    }

    /// The bytes of all pieces, one after the other.
    pub(crate) fn bytes(&self) -> &[u8] {
        self.bytes.as_slice()
    }

    /// The offers of all pieces, one after the other.
    pub(crate) fn offers(&self) -> &[NotedOffer] {
        self.offers.as_slice()
    }

    /// Empties it. Its memory stays.
    pub(crate) fn clear(&mut self) {
        self.bytes.clear();
        self.pieces.clear();
        self.offers.clear();
    }
}
