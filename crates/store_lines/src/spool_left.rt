//! What is left for a destination, once nothing more is sent to it.

use crate::dest_carry_over::{DestCarryOver, DestSlots, counts_of};
use dest_writer::GatherBuf;
use handover::{Rest, RestConnection, RestTurn};
use run_state::GoneEnd;
use spool::{DestSpool, FileSink, KeptLines, SegmentLimits, SpoolDisk, SpoolNotes};
use std::alloc::Global;

/// How large a segment becomes of lines that are written once the run has ended, in bytes: 64 MiB.
const SEGMENT: u64 = 67_108_864;

/// What became of what was left for a destination, and its files, if there are: the earlier one holds what they keep.
#[derive(Drop)]
pub(crate) struct SpooledLeft {
    pub(crate) end: GoneEnd,
    pub(crate) files: Option<DestSpool>,
}

/// Writes to a file what is left for a destination, if files keep that; otherwise it is lost.
pub(crate) fn spool_left<D: SpoolDisk + Drop>(
    disk: D,
    alloc: Global,
    left: DestCarryOver,
    limit: Option<u64>,
) -> SpooledLeft {
    let (queued, in_hand) = left.counts();
    let WrittenLeft {
        rest,
        later,
        files,
        lost,
    } = write_lines(&disk, left, limit);
    let mut spooled = match files {
        Some(files) => spool_rests(disk, alloc, rest, later, files, limit),
        None => {
            drop((disk, rest, later));
            SpooledLeft {
                end: GoneEnd {
                    spooled: 0,
                    unsent: queued.saturating_add(in_hand) as u64,
                },
                files: None,
            }
        }
    };
    spooled.end.unsent = spooled.end.unsent.saturating_add(lost);
    spooled
}

/// What is left for a destination in rests and files, and how many datapoints of its lines no file takes: they are lost.
#[derive(Drop)]
pub(crate) struct WrittenLeft {
    pub(crate) rest: Option<Rest>,
    pub(crate) later: Option<Rest>,
    pub(crate) files: Option<DestSpool>,
    pub(crate) lost: u64,
}

/// Writes the lines that a run which diverts destinations could not write behind the files of their destination. A socket that is
/// left is dropped.
pub(crate) fn write_lines<D: SpoolDisk>(
    disk: &D,
    left: DestCarryOver,
    limit: Option<u64>,
) -> WrittenLeft {
    let DestCarryOver {
        rest,
        later,
        mut files,
        socket,
        lines,
    } = left;
    drop(socket);
    let lost = match lines {
        Some(lines) => write_kept(disk, lines, files.as_mut(), limit),
        None => 0,
    };
    WrittenLeft {
        rest,
        later,
        files,
        lost,
    }
}

/// Writes lines behind the files of their destination, if there are. Returns how many datapoints these do not take.
fn write_kept<D: SpoolDisk>(
    disk: &D,
    lines: KeptLines,
    files: Option<&mut DestSpool>,
    limit: Option<u64>,
) -> u64 {
    let mut lines = lines;
    if let Some(files) = files {
        append_lines(disk, &mut lines, files, limit);
        let _synced = files.end_segments(disk);
    }
    let lost = lines.datapoints();
    drop(lines);
    lost
}

/// Writes lines behind the files of their destination, as far as these take them.
fn append_lines<D: SpoolDisk>(
    disk: &D,
    lines: &mut KeptLines,
    files: &mut DestSpool,
    limit: Option<u64>,
) {
    let limits = SegmentLimits {
        segment: SEGMENT,
        file: limit,
    };
    for _ in 0..u64::MAX {
        let left = lines.within(u64::MAX);
        if left.is_empty() {
            return;
        }
        match files.append(disk, limits, left) {
            Ok(count) if count > 0 => lines.pass(count),
            Ok(_) => return,
            Err(error) => {
                drop(error);
                return;
            }
        }
    }
}

/// Writes a rest, and the later one, to a destination's file, behind what the earlier one still holds.
fn spool_rests<D: SpoolDisk + Drop>(
    disk: D,
    alloc: Global,
    rest: Option<Rest>,
    later: Option<Rest>,
    files: DestSpool,
    limit: Option<u64>,
) -> SpooledLeft {
    let notes = SpoolNotes::new();
    let sink = FileSink::new(disk, files, limit, Some(&notes));
    let (rest, sink) = write_rest(alloc, rest, Some(sink));
    // Behind what the file did not take, it gets nothing.
    let (later, sink) = match &rest {
        Some(_) => (later, sink),
        None => write_rest(alloc, later, sink),
    };
    let unsent = count_of(&rest).saturating_add(count_of(&later));
    drop((rest, later));
    let files = match sink {
        Some(sink) => Some(sink.end()),
        None => None,
    };
    let (taken, kept) = notes.datapoints();
    SpooledLeft {
        end: GoneEnd {
            spooled: kept,
            unsent: taken.saturating_sub(kept).saturating_add(unsent),
        },
        files,
    }
}

/// What became of a rest that went to a file: what that did not take, how many datapoints it keeps, how many it took and lost,
/// and the files.
#[derive(Drop)]
pub(crate) struct SpooledRest {
    pub(crate) left: Option<Rest>,
    pub(crate) kept: u64,
    pub(crate) lost: u64,
    pub(crate) files: Option<DestSpool>,
}

/// Writes a rest to a destination's file, behind what the earlier one still holds.
pub(crate) fn spool_rest<D: SpoolDisk + Drop>(
    disk: D,
    alloc: Global,
    rest: Rest,
    files: DestSpool,
    limit: Option<u64>,
) -> SpooledRest {
    let notes = SpoolNotes::new();
    let sink = FileSink::new(disk, files, limit, Some(&notes));
    let (left, sink) = write_rest(alloc, Some(rest), Some(sink));
    let files = match sink {
        Some(sink) => Some(sink.end()),
        None => None,
    };
    let (taken, kept) = notes.datapoints();
    SpooledRest {
        left,
        kept,
        lost: taken.saturating_sub(kept),
        files,
    }
}

/// How many datapoints a rest has.
fn count_of(rest: &Option<Rest>) -> u64 {
    let (queued, in_hand) = counts_of(rest);
    queued.saturating_add(in_hand) as u64
}

/// Writes a rest, if there is one, to its last connection. Returns what that did not take, and the connection.
fn write_rest<'n, D: SpoolDisk + Drop>(
    alloc: Global,
    rest: Option<Rest>,
    sink: Option<FileSink<'n, D>>,
) -> (Option<Rest>, Option<FileSink<'n, D>>) {
    let Some(rest) = rest else {
        return (None, sink);
    };
    let Some(sink) = sink else {
        return (Some(rest), None);
    };
    let Ok(mut gathered) = GatherBuf::new(alloc) else {
        return (Some(rest), Some(sink));
    };
    let mut connection = RestConnection::new(rest);
    connection.begin(sink);
    for _ in 0..u64::MAX {
        match connection.send(&mut gathered) {
            RestTurn::Over(sink) => {
                drop(connection);
                return (None, Some(sink));
            }
            RestTurn::Lost => break,
            RestTurn::Kept => {}
        }
    }
    let (left, sink) = connection.into_parts();
    (Some(left), sink)
}

/// Writes to files what is left in slots, as far as files keep it. Returns how many datapoints they keep now, and how many are lost.
pub fn spool_slots<D: SpoolDisk + Copy + Drop>(
    disk: &D,
    alloc: Global,
    slots: &DestSlots,
    limit: Option<u64>,
) -> GoneEnd {
    let mut all = GoneEnd {
        spooled: 0,
        unsent: 0,
    };
    for place in 0..slots.len() {
        let SpooledLeft { end, files } = spool_left(*disk, alloc, slots.take(place), limit);
        drop(files);
        all.spooled = all.spooled.saturating_add(end.spooled);
        all.unsent = all.unsent.saturating_add(end.unsent);
    }
    all
}
