//! Truth words.

ghost use Rattle.std.specs.Prelude.{◌≡◌};
ghost use Rattle.conf_text.specs.TruthWord.{is_one_of, true_words, false_words, truth_of};

/// The meaning of a truth word, or `None` if the text is not one.
///
/// `1`, `yes`, `true` and `on` are true, `0`, `no`, `false` and `off` are false, each in any case
/// (`docs/CONFIGURATION.md`).
pub fn truth(text: &str) -> Option<bool>
    ensures { result ≡ truth_of text.now }
{
    if is_true_word(text) {
        Some(true)
    } else if is_false_word(text) {
        Some(false)
    } else {
        None
    }
}

fn is_true_word(text: &str) -> bool
    ensures { result ≡ is_one_of true_words text.now }
{
    text.eq_ignore_ascii_case("1")
        || text.eq_ignore_ascii_case("yes")
        || text.eq_ignore_ascii_case("true")
        || text.eq_ignore_ascii_case("on")
}

fn is_false_word(text: &str) -> bool
    ensures { result ≡ is_one_of false_words text.now }
{
    text.eq_ignore_ascii_case("0")
        || text.eq_ignore_ascii_case("no")
        || text.eq_ignore_ascii_case("false")
        || text.eq_ignore_ascii_case("off")
}
