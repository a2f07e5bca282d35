//! Pieces of connections, cut at their newlines.

use line_text::{Cut, Lines, split_piece};

/// A piece, and what it is cut into.
struct Case {
    piece: &'static [u8],
    head: Option<&'static [u8]>,
    // Each line with its newline.
    lines: &'static [u8],
    rest: &'static [u8],
}

static CASES: [Case; 7] = [
    Case {
        piece: b"1\na 1 2\nb",
        head: Some(b"1"),
        lines: b"a 1 2\n",
        rest: b"b",
    },
    Case {
        piece: b"abc",
        head: None,
        lines: b"",
        rest: b"abc",
    },
    Case {
        piece: b"\n",
        head: Some(b""),
        lines: b"",
        rest: b"",
    },
    Case {
        piece: b"\n\n",
        head: Some(b""),
        lines: b"\n",
        rest: b"",
    },
    Case {
        piece: b"",
        head: None,
        lines: b"",
        rest: b"",
    },
    Case {
        piece: b"1\n\na 1 2\r\n\nb 3 4\n",
        head: Some(b"1"),
        lines: b"\na 1 2\r\n\nb 3 4\n",
        rest: b"",
    },
    Case {
        piece: b"\nab\n\ncd",
        head: Some(b""),
        lines: b"ab\n\n",
        rest: b"cd",
    },
];

// Whether these lines, each followed by a newline, are a text.
fn are_lines(lines: Lines<'_>, text: &[u8]) -> bool {
    let mut left = text;
    for line in lines {
        let Some(after) = left.strip_prefix(line) else {
            return false;
        };
        let Some(after) = after.strip_prefix(b"\n") else {
            return false;
        };
        left = after;
    }
    left.is_empty()
}

fn is_cut(case: &Case) -> bool {
    let Cut { head, lines, rest } = split_piece(case.piece);
    head == case.head && rest == case.rest && are_lines(lines, case.lines)
}

#[test]
fn each_piece_is_cut_at_its_newlines(rt: HostRuntime) {
    for case in &CASES {
        assert!(rt; is_cut(case), "at {:?}", case.piece);
    }
}
