//! What rows print round their call.

use line_text::{LineBuf, Moment, Point, print_line};
use std::fmt::Debug;
use std::str;

/// How often a row makes its call at most: once more where the first was refused.
pub(crate) const CALLS: usize = 2;

/// The call comes now. Growths are refused from here on.
pub(crate) fn begin(rt: &HostRuntime) {
    let _ = rt.println("call");
}

/// The call was answered. No growth is refused from here on.
pub(crate) fn end(rt: &HostRuntime) {
    let _ = rt.println("done");
}

/// Prints what a call answered.
pub(crate) fn print_answer<T: Debug>(rt: &HostRuntime, answer: &T) {
    let _ = println!(rt; "answer {answer:?}");
}

/// Prints what a call answered. Returns whether it was not refused.
pub(crate) fn is_answered<T: Debug + Drop, E: Debug + Drop>(
    rt: &HostRuntime,
    answer: Result<T, E>,
) -> bool {
    print_answer(rt, &answer);
    answer.is_ok()
}

/// The answer of a call, of which a row prints a part.
pub(crate) trait RowAnswer: Drop {
    /// Prints what can be seen of it, as the answer of the call.
    fn print(&mut self, rt: &HostRuntime);
}

/// Prints what a call made, or its fault, and drops it. Returns whether it was not refused.
pub(crate) fn is_made<T: RowAnswer, E: Debug + Drop>(
    rt: &HostRuntime,
    answer: Result<T, E>,
) -> bool {
    match answer {
        Ok(mut made) => {
            made.print(rt);
            true
        }
        Err(fault) => {
            print_answer(rt, &fault);
            false
        }
    }
}

/// Prints what can be seen of what a call is lent, or has left.
pub(crate) fn print_state<T: Debug>(rt: &HostRuntime, state: &T) {
    let _ = println!(rt; "state {state:?}");
}

/// The second in which all pieces come.
pub(crate) fn moment() -> Option<Moment> {
    Moment::new(1_700_000_000)
}

/// Prints bytes as the text that they are, after a word.
pub(crate) fn print_text(rt: &HostRuntime, word: &str, bytes: &[u8]) {
    match str::from_utf8(bytes) {
        Ok(text) => {
            let _ = println!(rt; "{word} {text:?}");
        }
        Err(_) => {
            let _ = println!(rt; "{word} {bytes:?}");
        }
    }
}

/// Prints a datapoint as its line, after a word.
pub(crate) fn print_point(rt: &HostRuntime, word: &str, point: &Point) {
    if let Ok(mut line) = LineBuf::new(rt.alloc()) {
        print_line(point, &mut line);
        print_text(rt, word, line.bytes());
    }
}

/// Prints datapoints as their lines.
pub(crate) fn print_points(rt: &HostRuntime, points: &[Point]) {
    for point in points {
        print_point(rt, "state", point);
    }
}
