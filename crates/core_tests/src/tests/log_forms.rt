//! Each kind of line of the log, in its other forms.

use log_format::{push_json_lines, push_timed_lines};
use std::alloc::{AllocError, Global};

/// A line, and what stands behind the time in its other forms.
struct Form {
    line: &'static str,
    timed: &'static str,
    json: &'static str,
}

/// The second at which all of them are written, and its time.
const SECONDS: u64 = 1_795_901_707;

const TIME: &str = "2026-11-28T21:35:07Z";

static FORMS: [Form; 27] = [
    Form {
        line: "destination h:1:a connected\n",
        timed: " info destination h:1:a connected\n",
        json: r#""level":"info","destination":"h:1:a","what":"connected"}"#,
    },
    Form {
        line: "destination h:1 connected again, was lost: closed by the store\n",
        timed: " warning destination h:1 connected again, was lost: closed by the store\n",
        json: r#""level":"warning","destination":"h:1","what":"connected again, was lost: closed by the store"}"#,
    },
    Form {
        line: "destination h:1 cannot connect to 10.0.0.7:1: no answer\n",
        timed: " warning destination h:1 cannot connect to 10.0.0.7:1: no answer\n",
        json: r#""level":"warning","destination":"h:1","what":"cannot connect to 10.0.0.7:1: no answer"}"#,
    },
    Form {
        line: "destination h:1 dropped 12 at a reload\n",
        timed: " warning destination h:1 dropped 12 at a reload\n",
        json: r#""level":"warning","destination":"h:1","what":"dropped 12 at a reload","counts":{"dropped":12}}"#,
    },
    Form {
        line: "destination h:1 spool waits, 3 datapoints, 36 bytes, 5 seconds old\n",
        timed: " info destination h:1 spool waits, 3 datapoints, 36 bytes, 5 seconds old\n",
        json: r#""level":"info","destination":"h:1","what":"spool waits, 3 datapoints, 36 bytes, 5 seconds old","counts":{"datapoints":3,"bytes":36,"age_seconds":5}}"#,
    },
    Form {
        line: "log: 12 lines lost\n",
        timed: " warning log: 12 lines lost\n",
        json: r#""level":"warning","what":"log: 12 lines lost","counts":{"lines_lost":12}}"#,
    },
    Form {
        line: "admin: 1 unknown command, 2 without the key\n",
        timed: " info admin: 1 unknown command, 2 without the key\n",
        json: r#""level":"info","what":"admin: 1 unknown command, 2 without the key","counts":{"unknown_commands":1,"without_key":2}}"#,
    },
    Form {
        line: "spool: d/h:1: cannot read at byte 3: Input/output error (os error 5); it stays, and the next run tries again\n",
        timed: " error spool: d/h:1: cannot read at byte 3: Input/output error (os error 5); it stays, and the next run tries again\n",
        json: r#""level":"error","what":"spool: d/h:1: cannot read at byte 3: Input/output error (os error 5); it stays, and the next run tries again"}"#,
    },
    Form {
        line: "spool: h:1: too long a name for a file; nothing of it is kept\n",
        timed: " warning spool: h:1: too long a name for a file; nothing of it is kept\n",
        json: r#""level":"warning","what":"spool: h:1: too long a name for a file; nothing of it is kept"}"#,
    },
    Form {
        line: "destination h:1 queue full, dropping\n",
        timed: " warning destination h:1 queue full, dropping\n",
        json: r#""level":"warning","destination":"h:1","what":"queue full, dropping"}"#,
    },
    Form {
        line: "destination h:1 stopped dropping, dropped 213\n",
        timed: " warning destination h:1 stopped dropping, dropped 213\n",
        json: r#""level":"warning","destination":"h:1","what":"stopped dropping, dropped 213","counts":{"dropped":213}}"#,
    },
    Form {
        line: "destination h:1 still looking up its host after a second\n",
        timed: " warning destination h:1 still looking up its host after a second\n",
        json: r#""level":"warning","destination":"h:1","what":"still looking up its host after a second"}"#,
    },
    Form {
        line: "destination h:1 not waited for: too slow\n",
        timed: " warning destination h:1 not waited for: too slow\n",
        json: r#""level":"warning","destination":"h:1","what":"not waited for: too slow"}"#,
    },
    Form {
        line: "destination h:1 spool sent\n",
        timed: " info destination h:1 spool sent\n",
        json: r#""level":"info","destination":"h:1","what":"spool sent"}"#,
    },
    Form {
        line: "destination h:1 spool begins\n",
        timed: " warning destination h:1 spool begins\n",
        json: r#""level":"warning","destination":"h:1","what":"spool begins"}"#,
    },
    Form {
        line: "destination h:1 spool full\n",
        timed: " warning destination h:1 spool full\n",
        json: r#""level":"warning","destination":"h:1","what":"spool full"}"#,
    },
    Form {
        line: "destination h:1 spool goes on\n",
        timed: " info destination h:1 spool goes on\n",
        json: r#""level":"info","destination":"h:1","what":"spool goes on"}"#,
    },
    Form {
        line: "destination h:1 spool: no room\n",
        timed: " error destination h:1 spool: no room\n",
        json: r#""level":"error","destination":"h:1","what":"spool: no room"}"#,
    },
    Form {
        line: "destination h:1 stopped, 7931 datapoints spooled\n",
        timed: " info destination h:1 stopped, 7931 datapoints spooled\n",
        json: r#""level":"info","destination":"h:1","what":"stopped, 7931 datapoints spooled","counts":{"spooled":7931}}"#,
    },
    Form {
        line: "receiver line paused: too many open files (error 24)\n",
        timed: " warning receiver line paused: too many open files (error 24)\n",
        json: r#""level":"warning","receiver":"line","what":"paused: too many open files (error 24)"}"#,
    },
    Form {
        line: "receiver line 0 accepting again\n",
        timed: " info receiver line 0 accepting again\n",
        json: r#""level":"info","receiver":"line 0","what":"accepting again"}"#,
    },
    Form {
        line: "receiver line 1: 12 bad lines, 1 bad name\n",
        timed: " warning receiver line 1: 12 bad lines, 1 bad name\n",
        json: r#""level":"warning","receiver":"line 1","what":"12 bad lines, 1 bad name","counts":{"bad_lines":12,"bad_names":1}}"#,
    },
    Form {
        line: "receiver line: bad line from 10.1.2.3: 4 fields\n",
        timed: " warning receiver line: bad line from 10.1.2.3: 4 fields\n",
        json: r#""level":"warning","receiver":"line","what":"bad line from 10.1.2.3: 4 fields"}"#,
    },
    Form {
        line: "receiver line has 1,024 connections, refusing more\n",
        timed: " warning receiver line has 1,024 connections, refusing more\n",
        json: r#""level":"warning","receiver":"line","what":"has 1,024 connections, refusing more"}"#,
    },
    Form {
        line: "sender 0 ended: out of memory\n",
        timed: " error sender 0 ended: out of memory\n",
        json: r#""level":"error","sender":"0","what":"ended: out of memory"}"#,
    },
    Form {
        line: "relay stopped, 0 datapoints not sent\n",
        timed: " info relay stopped, 0 datapoints not sent\n",
        json: r#""level":"info","what":"stopped, 0 datapoints not sent","counts":{"not_sent":0}}"#,
    },
    Form {
        line: "receiver udp failed: \"a\\b\"\n",
        timed: " error receiver udp failed: \"a\\b\"\n",
        json: r#""level":"error","receiver":"udp","what":"failed: \"a\\b\""}"#,
    },
];

// Whether a line has its forms.
fn has_forms(alloc: Global, form: &Form) -> bool {
    let mut timed = String::new(alloc);
    let mut json = String::new(alloc);
    let is_timed = push_timed_lines(&mut timed, form.line, SECONDS).is_ok()
        && timed.as_str().strip_prefix(TIME) == Some(form.timed);
    let is_json = push_json_lines(alloc, &mut json, form.line, SECONDS).is_ok();
    match wanted_json(alloc, form.json) {
        Ok(wanted) => is_timed && is_json && wanted.as_str() == json.as_str(),
        Err(_) => false,
    }
}

// The whole object that ends so.
fn wanted_json(alloc: Global, end: &str) -> Result<String, AllocError> {
    format!(in alloc; "{{\"time\":\"{TIME}\",{end}\n")
}

#[test]
fn each_line_has_its_forms(rt: HostRuntime) {
    for form in &FORMS {
        assert!(rt; has_forms(rt.alloc(), form), "{}", form.line);
    }
}
