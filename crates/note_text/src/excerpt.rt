//! A line of a file with a caret under the item that a note speaks of.

/// How many bytes are shown before an item, of the item, and after it.
const SHOWN_BEFORE: usize = 60;

const SHOWN_OF_ITEM: usize = 60;

const SHOWN_AFTER: usize = 40;

/// A part of a line: the text before an item, the item, and the text after it.
#[derive(Clone, Copy)]
pub(crate) struct Excerpt<'a> {
    pub(crate) before: &'a str,
    pub(crate) item: &'a str,
    pub(crate) after: &'a str,
}

impl<'a> Excerpt<'a> {
    /// The excerpt of a line whose item has these ends, in bytes; the whole line is the item where it has no
    /// such part.
    pub(crate) fn new(line: &'a str, start: usize, end: usize) -> Excerpt<'a> {
        let (Some(before), Some(item), Some(after)) = (
            line.get(..start),
            line.get(start..end),
            line.get(end..),
        ) else {
            return Excerpt::new_whole(line);
        };
        Excerpt {
            before: last_part(before, SHOWN_BEFORE),
            item: first_part(item, SHOWN_OF_ITEM),
            after: first_part(after, SHOWN_AFTER),
        }
    }

    fn new_whole(line: &'a str) -> Excerpt<'a> {
        Excerpt {
            before: "",
            item: first_part(line, SHOWN_OF_ITEM),
            after: "",
        }
    }
}

/// The beginning of a text, of at most `most` bytes.
fn first_part(text: &str, most: usize) -> &str {
    for fewer in 0..4 {
        if let Some(part) = text.get(..most.saturating_sub(fewer)) {
            return part;
        }
    }
    text
}

/// The end of a text, of at most `most` bytes.
fn last_part(text: &str, most: usize) -> &str {
    let start = text.len().saturating_sub(most);
    for more in 0..4 {
        if let Some(part) = text.get(start.saturating_add(more)..) {
            return part;
        }
    }
    text
}
