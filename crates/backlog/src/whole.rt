//! The whole lines of a text.
ghost use Rattle.std.specs.Prelude.{◌≡◌, length};
ghost use Rattle.backlog.specs.Lines.{whole_lines};

/// How many bytes of a text are whole lines: those up to and with its last byte 10. It looks at what is behind them, and at
/// no more.
pub fn whole_length(text: &[u8]) -> usize
    ensures { result ≡ length (whole_lines text.now) }
{
    for passed in 0..text.len() {
        let place = text.len() - 1 - passed;
        if text[place] == b'\n' {
            return place + 1;
        }
    }
    0
}
