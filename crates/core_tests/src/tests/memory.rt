//! How much memory a relay may take, how much there is, and the note where that is less.

use config_notes::{
    NotesWanted, RunLimits, group_memory, machine_memory, most_memory, notes_of_files, own_group,
};
use note_text::{Source, SourceText, Sources};
use std::alloc::Global;

const RING: &str =
    "[relay]\nRELAY_METHOD = consistent-hashing\nUSE_FLOW_CONTROL = no\nDESTINATION_PROTOCOL = line\nDESTINATIONS = h:1, g:1\nMAX_QUEUE_SIZE = 100000\nPICKLE_RECEIVER_PORT = 0\n";

/// What the relay of `RING` may take: 20 and 60 MB, twice 12.4 MB, and 396,608 datapoints of 200 bytes.
const NEEDED: usize = 184_121_600;

#[test]
fn the_sum(rt: HostRuntime) {
    assert_eq!(rt; most_memory(2, 100_000, 1, 100), NEEDED);
    assert_eq!(rt; most_memory(0, 0, 0, 0), 20_000_000);
    assert_eq!(rt;
        most_memory(1, 10_000, 0, 40),
        20_000_000 + 6_640_000 + 75_536 * 140
    );
    assert_eq!(rt; most_memory(64, 1_000_000, 8, 16_384), 1_137_737_270_528);
}

/// Memory for the relay of `RING`, and a note that is made where there is no more; no note at all if it is empty.
struct Case {
    memory: Option<usize>,
    want: &'static str,
}

static CASES: [Case; 4] = [
    Case {
        memory: Some(100_999_999),
        want: "relayd: note: the relay takes up to 184 MB with metric names of 100 bytes that do not repeat, and 100 MB are available; lower MAX_QUEUE_SIZE, or give it more memory\n",
    },
    Case {
        memory: Some(NEEDED - 1),
        want: "and 184 MB are available",
    },
    Case {
        memory: Some(NEEDED),
        want: "",
    },
    Case {
        memory: None,
        want: "",
    },
];

/// Whether that note is made. Out of memory counts as no.
fn is_noted(alloc: Global, case: &Case) -> bool {
    let files = Sources {
        config: Source {
            path: "relay.conf",
            text: SourceText::Bytes(RING.as_bytes()),
        },
        rules: None,
        rewrite: None,
    };
    let limits = RunLimits {
        memory: case.memory,
        lacks_longest_name: false,
    };
    match notes_of_files(alloc, &files, limits, NotesWanted::All) {
        Ok(notes) => {
            notes.text().contains(case.want) && notes.is_empty() == case.want.is_empty()
        }
        Err(_) => false,
    }
}

#[test]
fn a_note_where_there_is_less(rt: HostRuntime) {
    for case in &CASES {
        assert!(rt; is_noted(rt.alloc(), case), "at {:?}", case.memory);
    }
}

#[test]
fn the_memory_of_a_machine(rt: HostRuntime) {
    let text = "MemTotal:       24683852 kB\nMemFree:          150000 kB\n";
    assert_eq!(rt; machine_memory(text), Some(25_276_264_448));
    assert_eq!(rt;
        machine_memory("MemFree: 1 kB\nMemTotal: 2 kB\n"),
        Some(2_048)
    );
    assert_eq!(rt; machine_memory("MemTotal: 2 MB\n"), None);
    assert_eq!(rt; machine_memory("MemTotal: kB\n"), None);
    assert_eq!(rt; machine_memory(""), None);
}

#[test]
fn the_limit_of_a_group(rt: HostRuntime) {
    assert!(rt;
        own_group("0::/system.slice/relayd.service\n") == Some("/system.slice/relayd.service")
    );
    assert!(rt; own_group("4:memory:/a\n0::/b\n") == Some("/b"));
    assert!(rt; own_group("4:memory:/a\n").is_none());
    assert_eq!(rt; group_memory("2147483648\n"), Some(2_147_483_648));
    assert_eq!(rt; group_memory("max\n"), None);
    assert_eq!(rt; group_memory("2147483648"), None);
}
