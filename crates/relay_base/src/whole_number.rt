//! Whole numbers in decimal digits.

ghost use Rattle.std.specs.Prelude.{◌≡◌, ◌≤◌};
ghost use Rattle.std.specs.List.{list_all};
ghost use Rattle.std.specs.Char.{is_ascii_digit};
ghost use Rattle.relay_base.specs.WholeNumber.{whole_number_up_to, short_whole_number};

fn has_digits_alone(text: &[u8]) -> bool
    ensures { result ≡ list_all is_ascii_digit text.now }
{
    text.iter().all(|byte| byte.is_ascii_digit())
}

/// The number that decimal digits write, or `None` if the text is empty, has another byte, or writes a
/// number above `greatest`. It may have leading zeros.
pub fn whole_number_up_to(text: &str, greatest: u64) -> Option<u64>
    ensures { result ≡ whole_number_up_to greatest text.now }
{
    if !has_digits_alone(text.as_bytes()) {
        return None;
    }
    match text.parse::<u64>() {
        Ok(number) if number <= greatest => Some(number),
        _ => None,
    }
}

/// The number that one to `most` decimal digits write, or `None` if the text is not such a number.
pub fn short_whole_number(text: &str, most: usize) -> Option<u64>
    requires { most ≤ 19 }
    ensures { result ≡ short_whole_number most text.now }
{
    if text.len() > most {
        return None;
    }
    whole_number_up_to(text, u64::MAX)
}
