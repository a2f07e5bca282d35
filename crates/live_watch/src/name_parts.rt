//! The first parts of a name.

/// The first so many parts of a name, with the dots between them. Tags, which follow a semicolon, are no parts.
pub(crate) fn first_parts(name: &str, parts: u64) -> &str {
    let path = match name.split_once(';') {
        Some((path, _)) => path,
        None => name,
    };
    let mut left = parts;
    for (place, byte) in path.as_bytes().iter().enumerate() {
        if *byte != b'.' {
            continue;
        }
        left = left.saturating_sub(1);
        if left == 0 {
            return path.get(..place).unwrap_or(path);
        }
    }
    path
}
