//! What `--help` adds to `-h`: examples and exit statuses.

/// Of `relayd`.
pub const RELAYD_HELP: &str = "Examples:
    relayd check --config relay.conf --rules relay-rules.conf --explain
    relayd route --config relay.conf --rules relay-rules.conf servers.web1.cpu.load
    relayd run --config relay.conf --rules relay-rules.conf --longest-name 1024 --admin 2015
    relayd report --admin 2015
    relayd stop --admin 2015 --wait

Exit status:
    0    success
    1    a file, a metric name or a script has a fault, or --strict found one in the input
    2    the command line is wrong
    3    a file, a port, standard input or standard output failed
    4    out of memory

A fault is one line on standard error. With --explain, notes after it show where it is and how to
cure it. For one FILE, - is standard input. man relayd describes all options, man relay.conf the files, docs/FAULTS.md each fault.";

/// Of `relayd pass`.
pub const PASS_HELP: &str = "Examples:
    relayd pass < lines.txt > good.txt
    relayd pass --explain < lines.txt > good.txt
    relayd pass --pickle --explain < frames.bin > good.txt

A line has a name, a value and a time, separated by spaces. At the end, standard error says how
many lines were bad.

Exit status: 0 success, even if lines were bad; 1 with --strict, if one was; 3 standard input or
output failed.";

/// Of `relayd check`.
pub const CHECK_HELP: &str = "Examples:
    relayd check --config relay.conf --rules relay-rules.conf --explain
    relayd check --config relay.conf --explain --strict
    relayd check --config relay.conf --explain --json

A note is a line on standard error that begins with `relayd: note: `. Notes show where a fault is
and how to cure it; if there is none, they show what may be a mistake.

Exit status: 0 no fault; 1 a fault or, with --strict, a note; 3 a file cannot be read.";

/// Of `relayd route`.
pub const ROUTE_HELP: &str = "Examples:
    relayd route --config relay.conf --rules relay-rules.conf servers.web1.cpu.load
    relayd route --config relay.conf --names names.txt
    cut -d ' ' -f 1 lines.txt | relayd route --config relay.conf --names - --strict
    relayd route --config relay.conf --names names.txt --json
    relayd route --admin 2015 servers.web1.cpu.load

It prints the name, the new name if rewriting changes it, and the destinations. With --admin it
reads no files of a configuration: a running relay answers, by those of its last reload.

Exit status: 0 success, even if some names of a file are bad; 1 the files or NAME have a fault or,
with --strict, a name is bad, is dropped or goes nowhere; 3 a file cannot be read, or no relay
listens on the port.";

/// Of `relayd replay`.
pub const REPLAY_HELP: &str = "Examples:
    relayd replay --config relay.conf --rules relay-rules.conf metrics.script
    relayd replay --config relay.conf --rules relay-rules.conf --lines lines.txt --text

A script has a line for each reader, such as `reader line`, and for each event: `piece 0 1700000000
6120..` gives reader 0 bytes in hexadecimal digits, `up 0` connects destination 0, and `take 0` and
`wrote 0 100` hand it a batch. docs/REPLAY.md describes all events. --lines needs no script: its file
has one datapoint per line, as a producer sends it.

Exit status: 0 success; 1 the files or the script have a fault or, with --strict, input is bad, or a
name is dropped or goes nowhere; 3 a file cannot be read.";

/// Of `relayd run`.
pub const RUN_HELP: &str = "Example:
    relayd run --config relay.conf --rules relay-rules.conf --longest-name 1024 --admin 2015 --log

It stays in the foreground, and prints `ready` when it receives datapoints. `relayd stop --admin 2015`
stops it. A signal ends it at once, and what is queued is lost; as the first process of a container it
ignores SIGTERM and SIGHUP. There run relayd-supervised, which turns them into a stop and a reload.

Exit status: 0 stopped; 1 the files have a fault; 3 it cannot listen on a port, or failed later; 4
out of memory.";

/// Of `relayd report`.
pub const REPORT_HELP: &str = "Examples:
    relayd report --admin 2015
    relayd report --admin 2015 --json

Exit status: 0 the relay answered; 3 no relay listens on the port.";

/// Of `relayd watch`.
pub const WATCH_HELP: &str = "Examples:
    relayd watch --admin 2015 '^servers\\.web01\\.'
    relayd watch --admin 2015 --dest 10.0.0.5:2004 --lines 20
    relayd watch --admin 2015 --names 2 --seconds 10

A line has, with tabs between them: the receiver, the address of the producer, the line as it was read,
the name after rewriting (or `dropped`), and each destination with what became of it there, kept or
dropped. At most 1000 a second are shown; what is not is counted, and said at the end. One at a time may
watch, who sees what producers send.

Exit status: 0 success; 1 PATTERN or DESTINATION has a fault; 3 another one watches, no relay listens on
the port, or it ended.";

/// Of `relayd stop`.
pub const STOP_HELP: &str = "Example:
    relayd stop --admin 2015 --wait

It prints the answer of the relay, `stopping`. With --wait it returns when the relay has ended and
its ports are free.

Exit status: 0 the relay stops or, with --wait, has ended; 3 no relay listens on the port.";

/// Of `relayd reload`.
pub const RELOAD_HELP: &str = "Example:
    relayd reload --admin 2015 --explain

The relay reads the files again that it began with, and goes on by them: it keeps its ports but
those that changed, its connections and what is queued. It prints `reloaded` and what changed. With
a fault the relay goes on as it was. For other files or options, restart the relay.

Exit status: 0 the relay goes on by the files; 1 they have a fault; 3 a file cannot be read, a port
cannot be bound, or no relay listens on the port; 4 out of memory.";

/// Of `relayd restart`.
pub const RESTART_HELP: &str = "Example:
    relayd restart --config relay.conf --rules relay-rules.conf --longest-name 1024 --admin 2015

It checks the files as `relayd check` does. If they have no fault, it stops the relay and waits for
its end, as `relayd stop --wait` does; what supervises the relay, such as systemd, then starts it
with these files. With a fault the relay goes on as it is.

Exit status: 0 the relay has ended; 1 a fault; 3 a file cannot be read, or no relay listens on the
port.";
