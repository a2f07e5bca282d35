//! Whom a line of the log is about, and what it says.

/// The roles of those that a line names.
static ROLES: [&str; 3] = ["destination", "receiver", "sender"];

/// A line of the log in its parts, as `receiver`, `line 0` and `accepting again`.
#[derive(Clone, Copy)]
pub struct LineParts<'a> {
    /// `destination`, `receiver` or `sender`, and `relay` if it is about all.
    pub role: &'a str,
    /// The name of that one; empty if the line is about all.
    pub name: &'a str,
    /// What happened.
    pub what: &'a str,
}

impl<'a> LineParts<'a> {
    /// The parts of a line without its newline.
    pub fn of(line: &'a str) -> LineParts<'a> {
        let (first, rest) = line.split_once(' ').unwrap_or((line, ""));
        if ROLES.contains(&first) {
            return named(first, rest);
        }
        LineParts {
            role: "relay",
            name: "",
            what: line.strip_prefix("relay ").unwrap_or(line),
        }
    }
}

/// The parts of a line that begins with a role and a name.
fn named<'a>(role: &'a str, rest: &'a str) -> LineParts<'a> {
    let (name, what) = split_name(rest);
    LineParts { role, name, what }
}

/// A name, as `line`, `line 0` or `127.0.0.1:2003`, and what follows it behind a space, or a colon and a space.
fn split_name(text: &str) -> (&str, &str) {
    let (name, rest) = text.split_once(' ').unwrap_or((text, ""));
    if let Some(name) = name.strip_suffix(':') {
        return (name, rest);
    }
    let (number, behind) = rest.split_once(' ').unwrap_or((rest, ""));
    let digits = number.strip_suffix(':').unwrap_or(number);
    if !is_digits(digits) {
        return (name, rest);
    }
    let length = name.len().saturating_add(1).saturating_add(digits.len());
    (text.get(..length).unwrap_or(name), behind)
}

/// Whether a text is a number in decimal digits.
fn is_digits(text: &str) -> bool {
    !text.is_empty() && text.bytes().all(|byte| byte.is_ascii_digit())
}
