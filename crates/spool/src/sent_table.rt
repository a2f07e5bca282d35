//! How far files were sent.

use crate::file_names::segment_number;
use crate::held_text::HeldText;
use crate::spool_disk::SpoolDisk;
use relay_base::{NoMemory, utf8_text, whole_number_up_to};
use std::alloc::Global;
use std::fs::File;
use std::io;
use std::os::unix::fs::FileExt;
use std::sync::Arc;

/// How many bytes a record has: the place up to which a file was sent, in 20 digits; the checksum of what is before that; `s`
/// while a piece behind it is sent, and otherwise a point; and the file's name, then spaces and byte 10.
const RECORD: usize = 512;

const DIGITS: usize = 20;

/// Where in a record the checksum is, the sign for a piece under way, and the name.
const SUM: usize = 21;

const SIGN: usize = 42;

const NAME: usize = 44;

/// How many bytes before a place are summed.
const SUMMED: usize = 64;

/// How many records are looked through at most.
const MOST_RECORDS: u64 = 4_096;

/// The records of a folder, in its file [`crate::LOCK`]: how far each file there was sent. They have room before that is
/// needed, so a full disk does not keep a relay from noting it.
#[derive(Drop)]
pub(crate) struct SentTable {
    file: Arc<File>,
    count: u64,
}

/// What a record says of a file.
#[derive(Clone, Copy)]
pub(crate) struct SentRecord {
    /// Up to which place it was sent.
    pub(crate) place: u64,
    /// The checksum of what is before that.
    sum: u64,
    /// Whether a piece behind it was under way.
    pub(crate) is_under_way: bool,
}

/// The record of one file.
#[derive(Drop)]
pub(crate) struct SentPlace {
    file: Arc<File>,
    at: u64,
    noted: u64,
}

impl SentTable {
    /// The records in a file, which is made if it is not there, with room for so many more files. `None` if it cannot be read
    /// or written: then nothing is noted.
    pub(crate) fn open<D: SpoolDisk>(
        disk: &D,
        alloc: Global,
        path: &str,
        more: usize,
    ) -> Result<Option<SentTable>, NoMemory> {
        let Some(file) = opened_with_room(disk, path, more) else {
            return Ok(None);
        };
        let count = count_of(&file);
        match Arc::new(alloc, file) {
            Ok(file) => Ok(Some(SentTable { file, count })),
            Err(_) => Err(NoMemory),
        }
    }

    /// The record of a file of this name, with what it says: that which it has, or one that no file has.
    pub(crate) fn record_of(&self, name: &str) -> Option<(SentPlace, SentRecord)> {
        if let Some((at, said)) = self.find(name) {
            return Some((self.place_at(at)?, said));
        }
        let (at, _) = self.find("")?;
        let mut place = self.place_at(at)?;
        if !place.give_to(name) {
            return None;
        }
        Some((place, SentRecord::none()))
    }

    /// There is no file of this name.
    pub(crate) fn forget(&self, name: &str) {
        if let Some((at, _)) = self.find(name) {
            write_record(&self.file, at, &blank_record());
        }
    }

    /// Of the files of a destination none has a record but the one of this name.
    pub(crate) fn forget_others(&self, dest: &str, name: &str) {
        for number in 0..self.count.min(MOST_RECORDS) {
            let at = number.saturating_mul(RECORD as u64);
            let mut record = [b' '; RECORD];
            if self.file.read_at(&mut record, at).is_err() {
                return;
            }
            let said = name_in(&record);
            if said != name && segment_number(said, dest).is_some() {
                write_record(&self.file, at, &blank_record());
            }
        }
    }

    /// Where the record is that has this name, and what it says. One that no file has has none.
    fn find(&self, name: &str) -> Option<(u64, SentRecord)> {
        for number in 0..self.count.min(MOST_RECORDS) {
            let at = number.saturating_mul(RECORD as u64);
            let mut record = [b' '; RECORD];
            if self.file.read_at(&mut record, at).is_err() {
                return None;
            }
            if name_in(&record) == name {
                return Some((at, said_by(&record)));
            }
        }
        None
    }

    /// The record at a place; `None` if out of memory.
    fn place_at(&self, at: u64) -> Option<SentPlace> {
        Some(SentPlace {
            file: Arc::clone(&self.file).ok()?,
            at,
            noted: 0,
        })
    }
}

impl SentRecord {
    fn none() -> SentRecord {
        SentRecord {
            place: 0,
            sum: 0,
            is_under_way: false,
        }
    }

    /// Whether what it says is of this file, whose whole lines end there: before the place is what was there.
    pub(crate) fn is_of<F: HeldText>(&self, file: &F, end: u64) -> bool {
        self.place > 0 && self.place <= end && sum_before(file, self.place) == Some(self.sum)
    }
}

impl SentPlace {
    /// Makes the record that of a file of which nothing is sent. Returns whether it could be written.
    pub(crate) fn give_to(&mut self, name: &str) -> bool {
        self.noted = 0;
        let mut record = blank_record();
        put_number(&mut record, 0, 0);
        put_number(&mut record, SUM, 0);
        put_text(&mut record, SIGN, b".");
        put_text(&mut record, NAME, name.as_bytes());
        write_record(&self.file, self.at, &record)
    }

    /// No file has the record.
    pub(crate) fn free(&self) {
        write_record(&self.file, self.at, &blank_record());
    }

    /// A piece behind the place is sent now.
    pub(crate) fn begin_piece(&self) {
        self.put_sign(b"s");
    }

    /// The file was sent up to a place, and no piece is under way.
    pub(crate) fn note<F: HeldText>(&mut self, file: &F, place: u64) {
        if place == self.noted {
            self.put_sign(b".");
            return;
        }
        let mut record = [b' '; NAME];
        put_number(&mut record, 0, place);
        put_number(&mut record, SUM, sum_before(file, place).unwrap_or(0));
        put_text(&mut record, SIGN, b".");
        write_record(&self.file, self.at, &record);
        self.noted = place;
    }

    /// From now on a note of this place changes nothing.
    pub(crate) fn go_on_at(&mut self, place: u64) {
        self.noted = place;
    }

    fn put_sign(&self, sign: &[u8]) {
        write_record(&self.file, self.at.saturating_add(SIGN as u64), sign);
    }
}

/// A record that no file has.
fn blank_record() -> [u8; RECORD] {
    let mut record = [b' '; RECORD];
    record[RECORD - 1] = b'\n';
    record
}

/// Writes a record, or a part of one. Returns whether it could be written.
fn write_record(file: &File, at: u64, bytes: &[u8]) -> bool {
    match file.write_at(bytes, at) {
        Ok(count) => count == bytes.len(),
        Err(_) => false,
    }
}

/// Opens the file of the records, with room for so many more. `None` if it cannot be read or written.
fn opened_with_room<D: SpoolDisk>(disk: &D, path: &str, more: usize) -> Option<File> {
    let file = disk.open_records(path).ok()?;
    let free = free_in(&file)?;
    let mut at = count_of(&file).saturating_mul(RECORD as u64);
    for _ in free..more {
        // Without room it has fewer.
        if !write_record(&file, at, &blank_record()) {
            break;
        }
        at = at.saturating_add(RECORD as u64);
    }
    Some(file)
}

/// How many records no file has.
fn free_in(file: &File) -> Option<usize> {
    let mut free: usize = 0;
    for number in 0..count_of(file).min(MOST_RECORDS) {
        let mut record = [b' '; RECORD];
        let at = number.saturating_mul(RECORD as u64);
        file.read_at(&mut record, at).ok()?;
        if name_in(&record).is_empty() {
            free = free.saturating_add(1);
        }
    }
    Some(free)
}

/// How many whole records a file has.
fn count_of(file: &File) -> u64 {
    match file.metadata() {
        Ok(metadata) => metadata.len() / RECORD as u64,
        Err(_) => 0,
    }
}

/// The name in a record; none if no file has it.
fn name_in(record: &[u8; RECORD]) -> &str {
    match utf8_text(&record[NAME..]) {
        Some(text) => text.trim_end(),
        None => "",
    }
}

/// What a record says.
fn said_by(record: &[u8; RECORD]) -> SentRecord {
    SentRecord {
        place: number_in(&record[..DIGITS]),
        sum: number_in(&record[SUM..SUM + DIGITS]),
        is_under_way: record[SIGN] == b's',
    }
}

/// The number that bytes write; 0 if they write none.
fn number_in(bytes: &[u8]) -> u64 {
    match utf8_text(bytes) {
        Some(text) => whole_number_up_to(text, u64::MAX).unwrap_or(0),
        None => 0,
    }
}

/// Puts a number into a record, in 20 digits.
fn put_number(record: &mut [u8], at: usize, number: u64) {
    let mut left = number;
    for passed in 0..DIGITS {
        let place = at.saturating_add(DIGITS - 1 - passed);
        if let Some(byte) = record.get_mut(place) {
            *byte = b'0' + (left % 10) as u8;
        }
        left /= 10;
    }
}

/// Puts bytes into a record, as far as it has room.
fn put_text(record: &mut [u8], at: usize, text: &[u8]) {
    for (passed, byte) in text.iter().enumerate() {
        if let Some(there) = record.get_mut(at.saturating_add(passed)) {
            *there = *byte;
        }
    }
}

/// The checksum (FNV-1a) of the bytes of a file right before a place; `None` if they cannot be read.
fn sum_before<F: HeldText>(file: &F, place: u64) -> Option<u64> {
    let mut bytes = [0; SUMMED];
    let count = place.min(SUMMED as u64);
    let part = &mut bytes[..count as usize];
    let read = read_part(file, place - count, part)?;
    if read as u64 != count {
        return None;
    }
    let mut sum: u64 = 0xcbf2_9ce4_8422_2325;
    for byte in part.iter() {
        sum = (sum ^ u64::from(*byte)).wrapping_mul(0x0000_0100_0000_01b3);
    }
    Some(sum)
}

/// Reads bytes from a place on: how many.
fn read_part<F: HeldText>(file: &F, place: u64, part: &mut [u8]) -> Option<usize> {
    let read: io::Result<usize> = file.read_from(place, part);
    read.ok()
}
