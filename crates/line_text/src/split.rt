//! A piece of a connection, cut at its newlines.
ghost use Rattle.std.specs.Prelude.{◌≡◌, ◌+◌, ◌<◌, ◌≤◌, ℕ, true, [], ◌∷◌, length, take, drop, position, IfSome, MatchOption};
ghost use Rattle.std.specs.List.{list_all};
ghost use Rattle.std.specs.Iterator.{YieldsFirstRef, item_count};
ghost use Rattle.memchr.specs.Find.{IsLastByte};
ghost use Rattle.line_text.specs.Connection.{cut, arrivals};
ghost use Rattle.line_text.specs.Reader.{is_newline_byte, HasNoLine, BeginsLine};
ghost use Rattle.line_text.specs.Split.{is_unbroken, with_newlines, IsCutInto, ended_texts};

use crate::line_end::{FirstLine, line_to};
use memchr::{memchr, memrchr};
use std::iter::FusedIterator;
use std::marker::Model;

/// A piece of a connection, cut at each byte 10. Its parts are slices of the piece, and none contains byte
/// 10.
#[derive(Drop)]
pub struct Cut<'a> {
    /// What precedes the first byte 10, or `None` if the piece has no byte 10.
    pub head: Option<&'a [u8]>,
    /// The texts between each byte 10 and the next.
    pub lines: Lines<'a>,
    /// What follows the last byte 10, or the whole piece if it has none.
    pub rest: &'a [u8],
}

/// The texts between one newline and the next.
///
/// In clauses it is the list of the texts that it has not returned yet.
#[derive(Drop)]
pub struct Lines<'a> {
    text: &'a [u8],
}

impl<'a> Model for Lines<'a> {
    ghost use Rattle.std.specs.Prelude.{ℕ, List};
    ghost use Rattle.line_text.specs.Split.{ended_texts};

    ghost Value = { List (List ℕ) };

    ghost view = { λ lines. ended_texts lines.text.now };
}

impl<'a> Iterator for Lines<'a> {
    type Item = &'a [u8];

    ghost next_gives = { YieldsFirstRef (λ rest. rest) };

    ghost remaining = { item_count (λ rest. rest) };

    fn next(&mut self) -> Option<&'a [u8]> {
        let text = self.text;
        let line = first_line(text)?;
        self.text = line.rest;
        Some(line.text)
    }
}

impl<'a> FusedIterator for Lines<'a> {}

/// Cuts a piece of a connection at each byte 10. It takes no memory: each part is a slice of the piece.
///
/// If the head is `Some`, the head and each line, each followed by byte 10, and then the rest are the
/// piece. If it is `None` there is no line, and the rest is the piece.
pub fn split_piece(piece: &[u8]) -> Cut<'_>
    ensures texts { MatchOption result.head (IsCutInto piece.now [] piece.now)
        (λ head. IsCutInto piece.now (head.now ∷ result.lines) result.rest.now) }
    ensures piece { MatchOption result.head
        ((result.lines ≡ []) × (result.rest.now ≡ piece.now))
        (λ head. with_newlines (head.now ∷ result.lines) result.rest.now ≡ piece.now) }
    ensures head { IfSome result.head (λ head. is_unbroken head.now ≡ true) }
    ensures lines { list_all is_unbroken result.lines ≡ true }
    ensures rest { is_unbroken result.rest.now ≡ true }
{
    match first_line(piece) {
        None => Cut {
            head: None,
            lines: Lines { text: b"" },
            rest: piece,
        },
        Some(head) => {
            let end = end_of_lines(head.rest);
            Cut {
                head: Some(head.text),
                lines: Lines {
                    text: &head.rest[..end],
                },
                rest: &head.rest[end..],
            }
        }
    }
}

/// Where the last line of a text ends, after its newline: 0 if the text has no newline.
fn end_of_lines(text: &[u8]) -> usize
    ensures within { result ≤ length text.now }
    ensures lines { (moment : ℕ) → (cut (arrivals (take result text.now) moment)).unended ≡ [] }
    ensures rest { HasNoLine (drop result text.now) }
{
    match place_of_last_newline(text) {
        None => 0,
        Some(place) => place + 1,
    }
}

/// The first line of a text, or `None` if it has no newline.
fn first_line(text: &[u8]) -> Option<FirstLine<'_>>
    ensures line { MatchOption result (HasNoLine text.now)
        (λ line. BeginsLine text.now line.text.now line.rest.now) }
    ensures shorter { IfSome result (λ line. length line.rest.now < length text.now) }
{
    Some(line_to(text, place_of_newline(text)?))
}

fn place_of_newline(text: &[u8]) -> Option<usize>
    ensures place { result ≡ position is_newline_byte text.now }
    ensures within { IfSome result (λ at. at < length text.now) }
{
    memchr(b'\n', text)
}

fn place_of_last_newline(text: &[u8]) -> Option<usize>
    ensures place { IsLastByte is_newline_byte text.now result }
    ensures within { IfSome result (λ at. at < length text.now) }
{
    memrchr(b'\n', text)
}
