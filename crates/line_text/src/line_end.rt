//! A text that is cut at the end of its first line.
ghost use Rattle.std.specs.Prelude.{◌≡◌, ◌+◌, ◌<◌, length, take, drop};

/// A line without the byte that ends it, and what follows that byte.
#[derive(Clone, Copy)]
pub(crate) struct FirstLine<'a> {
    pub(crate) text: &'a [u8],
    pub(crate) rest: &'a [u8],
}

/// The line that ends at a place, and what follows it.
pub(crate) fn line_to(text: &[u8], place: usize) -> FirstLine<'_>
    requires { place < length text.now }
    ensures text { result.text.now ≡ take place text.now }
    ensures rest { result.rest.now ≡ drop (place + 1) text.now }
    ensures shorter { length result.rest.now < length text.now }
{
    FirstLine {
        text: &text[..place],
        rest: &text[place + 1..],
    }
}
