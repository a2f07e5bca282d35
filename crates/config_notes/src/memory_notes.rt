//! A note of the memory that a relay may take.
ghost use Rattle.std.specs.Prelude.{◌≤◌};

use crate::memory::most_memory;
use conf_text::Settings;
use note_text::Notes;

/// The length of names for which the memory is computed, in bytes.
const USUAL_NAME: usize = 100;

/// The bytes of a megabyte.
const MEGABYTE: usize = 1_000_000;

/// A note where a relay with these settings may take more memory than there is.
pub(crate) fn add_memory_note(notes: &mut Notes, settings: &Settings, memory: Option<usize>) {
    let Some(memory) = memory else {
        return;
    };
    let dests = settings.destinations().len();
    let receivers = receivers_of(settings);
    let needed = most_memory(dests, settings.max_queue_size(), receivers, USUAL_NAME);
    if needed > memory {
        notes.add(format_args!(
            "the relay takes up to {} MB with metric names of {USUAL_NAME} bytes that do not repeat, and {} MB are available; lower MAX_QUEUE_SIZE, or give it more memory",
            needed / MEGABYTE,
            memory / MEGABYTE
        ));
    }
}

/// How many receivers are on; each is counted once, however many share the port of lines.
fn receivers_of(settings: &Settings) -> usize
    ensures { result ≤ 3 }
{
    let mut count = 0;
    if settings.line_receiver_port() > 0 {
        count += 1;
    }
    if settings.pickle_receiver_port() > 0 {
        count += 1;
    }
    if settings.enable_udp_listener() && settings.udp_receiver_port() > 0 {
        count += 1;
    }
    count
}
