//! Lines for the log from the first thread.

use std::sync::{Mutex, Wait};

/// How many bytes of lines are kept, before another line comes in place of them.
const MOST_KEPT: usize = 4_096;

/// Lines that the first thread has for the log while that runs.
#[derive(Drop)]
pub struct LateNews {
    text: Mutex<Option<String>>,
}

impl LateNews {
    /// None.
    pub fn none() -> LateNews {
        LateNews {
            text: Mutex::new(None),
        }
    }

    /// These are the lines, behind others that the log has not taken, or in place of them if they are many, as where there is no
    /// log, or if out of memory.
    pub fn put<R: Wait>(&self, rt: &R, text: String) {
        let mut place = self.text.lock(rt);
        if let Some(others) = place.as_mut() {
            if others.len() < MOST_KEPT && others.push_str(text.as_str()).is_ok() {
                return;
            }
        }
        *place = Some(text);
    }

    /// Takes the lines, if there are some.
    pub(crate) fn take<R: Wait>(&self, rt: &R) -> Option<String> {
        self.text.lock(rt).take()
    }
}
