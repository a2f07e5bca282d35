//! Names and addresses that need no escape.

ghost use Rattle.std.specs.Prelude.{◌≡◌};
ghost use Rattle.std.specs.List.{list_all};
ghost use Rattle.status_page.specs.Plain.{is_address_byte, is_plain_byte, plain_address, plain_text};

/// The name, if it has only ASCII letters, digits, `.`, `-`, `_` and spaces; `unknown` in place of any other.
#[tactic(auto, unfolding(crate::specs::Plain::plain_text))]
pub(crate) fn plain(name: &str) -> &str
    ensures { result.now ≡ plain_text name.now }
{
    if has_plain_bytes_alone(name.as_bytes()) {
        name
    } else {
        "unknown"
    }
}

fn has_plain_bytes_alone(name: &[u8]) -> bool
    ensures { result ≡ list_all is_plain_byte name.now }
{
    name.iter().all(|byte| is_plain_byte(*byte))
}

fn is_plain_byte(byte: u8) -> bool
    ensures { result ≡ is_plain_byte byte }
{
    byte.is_ascii_alphanumeric() || byte == b'.' || byte == b'-' || byte == b'_' || byte == b' '
}

/// The address, if it has only hexadecimal digits, `:` and `.`; `unknown` in place of any other text.
#[tactic(auto, unfolding(crate::specs::Plain::plain_address))]
pub(crate) fn plain_address(address: &str) -> &str
    ensures { result.now ≡ plain_address address.now }
{
    if has_address_bytes_alone(address.as_bytes()) {
        address
    } else {
        "unknown"
    }
}

fn has_address_bytes_alone(address: &[u8]) -> bool
    ensures { result ≡ list_all is_address_byte address.now }
{
    address.iter().all(|byte| is_address_byte(*byte))
}

fn is_address_byte(byte: u8) -> bool
    ensures { result ≡ is_address_byte byte }
{
    byte.is_ascii_hexdigit() || byte == b':' || byte == b'.'
}
