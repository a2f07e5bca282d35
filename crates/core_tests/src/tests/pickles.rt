//! Pickles: names that a reader shares.

use crate::tests::points::shared_name;
use line_text::{Moment, Name, SharedNames};
use pickle_subset::PickleReader;
use std::alloc::Global;
use std::sync::Arc;

/// Two rows, as Python writes them in protocol 2; the second has its path from the memo.
const TWO_ROWS: &[u8] =
    b"\x00\x00\x00\x35\x80\x02]q\x00(X\x03\x00\x00\x00a.bq\x01J\x00\xf1SeG@E\x00\x00\x00\x00\x00\x00\x86q\x02\x86q\x03h\x01J\x01\xf1SeK\x07\x86q\x04\x86q\x05e.";

/// Remembers one name.
#[derive(Drop)]
struct OneName {
    name: Arc<Name>,
}

impl SharedNames for OneName {
    fn shared(&self, text: &[u8]) -> Option<Arc<Name>> {
        if self.name.text().as_bytes() == text {
            Arc::try_clone(&self.name).ok()
        } else {
            None
        }
    }
}

// How many owners a remembered name has, once a reader that shares it has found the two rows of a path.
fn owners_once_found(alloc: Global, reader: &mut PickleReader, names: &OneName) -> Option<usize> {
    let mut points = Vec::new(alloc);
    let found = reader.find(names, TWO_ROWS, Moment::new(9)?, &mut points);
    if found.is_ok() && points.len() == 2 {
        Some(Arc::strong_count(&names.name))
    } else {
        None
    }
}

fn owners_of(alloc: Global, held: &str) -> Option<usize> {
    let names = OneName {
        name: shared_name(alloc, held)?,
    };
    let mut reader = PickleReader::new(alloc);
    let owners = owners_once_found(alloc, &mut reader, &names);
    drop(reader);
    owners
}

#[test]
fn a_name_that_is_held_is_shared(rt: HostRuntime) {
    assert!(rt; owners_of(rt.alloc(), "a.b") == Some(3));
    assert!(rt; owners_of(rt.alloc(), "a.c") == Some(1));
}
