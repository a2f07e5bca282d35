//! A text in two parts, round the first byte of a kind.
ghost use Rattle.std.specs.Prelude.{◌≡◌, ◌<◌, length, IfSome};
ghost use Rattle.std.specs.Option.{option_copied};
ghost use Rattle.line_text.specs.Halves.{halves_at};

/// A text before the first byte of a kind, and after that byte, if there is one.
#[derive(Clone, Copy)]
pub struct Halves<'a> {
    /// The whole text, if there is no such byte.
    pub front: &'a [u8],
    /// What follows it.
    pub back: Option<&'a [u8]>,
}

/// Cuts a text at a place, if there is one.
pub fn halves_at(text: &[u8], place: Option<usize>) -> Halves<'_>
    requires { IfSome place (λ at. at < length text.now) }
    ensures front { result.front.now ≡ (halves_at place text.now).front }
    ensures back { option_copied result.back ≡ (halves_at place text.now).back }
{
    match place {
        None => Halves {
            front: text,
            back: None,
        },
        Some(at) => Halves {
            front: &text[..at],
            back: Some(&text[at + 1..]),
        },
    }
}
