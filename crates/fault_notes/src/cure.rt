//! Cures, in a few words.

use std::fmt;

/// The cure of a fault, in words.
#[derive(Clone, Copy)]
pub(crate) struct Cure(&'static str);

impl Cure {
    pub(crate) const READABLE_PATH: Cure = Cure("give the path of a file that this user may read");

    pub(crate) const NEWLINES: Cure = Cure("turn them into newlines: tr '\\r' '\\n'");

    pub(crate) const FROM_C_RELAY: Cure = Cure(
        "write the files of relayd by hand: docs/MIGRATING_C_RELAY.md says what corresponds",
    );

    pub(crate) const FROM_RELAY_NG: Cure = Cure(
        "write the files of relayd by hand: docs/MIGRATING_CARBON_RELAY_NG.md says what corresponds",
    );

    pub(crate) const KEEP_CARBON_AGGREGATOR: Cure = Cure(
        "leave these metrics to carbon-aggregator: docs/MIGRATING.md",
    );

    pub(crate) const SECTIONS_AND_KEYS: Cure = Cure(
        "write sections and keys, as in examples/relay.conf",
    );

    pub(crate) const WITHOUT_QUOTES: Cure = Cure("write it without them");

    pub(crate) const BEGIN_COMMENT: Cure = Cure("begin it with `#`");

    pub(crate) const GUNZIP: Cure = Cure("unpack it: gunzip");

    pub(crate) const TEXT_FILE: Cure = Cure("give the path of a text file");

    pub(crate) const ONE_SIGN: Cure = Cure("write one of the two");

    pub(crate) const ONE_EQUALS: Cure = Cure(
        "write one of the two, or \\x3d for one in the pattern",
    );

    pub(crate) const DELETE_WHITE: Cure = Cure("delete it: no metric name has any");

    pub(crate) const NO_ARROW: Cure = Cure("write `=` without `>`");

    pub(crate) const GIVE_RELAY_RULES: Cure = Cure(
        "give sections with pattern and destinations, as in examples/relay-rules.conf",
    );

    pub(crate) const FIRST_FIELDS: Cure = Cure(
        "keep the first field of each line: cut -d ' ' -f 1",
    );

    pub(crate) const ALTERNATIVES: Cure = Cure(
        "write (a|b) for {a,b}, and \\{ for the character itself",
    );

    pub(crate) const COMMA_FOR_SEMICOLON: Cure = Cure("write a comma for `;`");

    pub(crate) const JOIN_LISTS: Cure = Cure(
        "write both lists on one line, with a comma between; to delete one loses its stores",
    );

    pub(crate) const HOST_NAME: Cure = Cure(
        "write a host name that has the address, for example one of /etc/hosts",
    );

    pub(crate) const WRITE_OTHER_VALUE: Cure = Cure("write the value itself");

    pub(crate) const KEEP_CARBON_RELAY: Cure = Cure(
        "leave these metrics to carbon-relay, with relayd in front of it: docs/MIGRATING.md",
    );

    pub(crate) const INSTANCE_AFTER_COLON: Cure = Cure("write host:port:instance");

    pub(crate) const HEADER_WITHOUT_WHITE: Cure = Cure("write [pre] or [post]");

    pub(crate) const ADD_GROUP: Cure = Cure(
        "put round brackets around the part of the pattern that the group stands for",
    );

    pub(crate) const FROM_UTF16: Cure = Cure("turn it into UTF-8: iconv -f UTF-16 -t UTF-8");

    pub(crate) const FROM_LATIN1: Cure = Cure("turn it into UTF-8: iconv -f LATIN1 -t UTF-8");

    pub(crate) const DELETE_MARK: Cure = Cure("delete the mark: sed '1s/^\\xef\\xbb\\xbf//'");

    pub(crate) const DELETE_NO_BREAK_SPACE: Cure = Cure("write a space instead, or delete it");

    pub(crate) const RELAY_HEADER: Cure = Cure("write [relay] above the first setting");

    pub(crate) const RULE_HEADER: Cure = Cure(
        "write a header above the first key: every rule has a section of its own",
    );

    pub(crate) const ONE_SECTION: Cure = Cure(
        "merge the two, or delete the wrong one; the sections of rules have different names",
    );

    pub(crate) const ONE_KEY: Cure = Cure("delete the wrong one");

    pub(crate) const HEADER_ABOVE: Cure = Cure(
        "write a header such as [web] above this rule: each has a section of its own; or delete the wrong one",
    );

    pub(crate) const ONE_LINE: Cure = Cure("write the whole value on one line");

    pub(crate) const HEADER_ALONE: Cure = Cure(
        "write `[NAME]` alone on its line, and the comment on another",
    );

    pub(crate) const KEY_AND_VALUE: Cure = Cure("write KEY = VALUE, or begin a comment with `#`");

    pub(crate) const OTHER_FILE: Cure = Cure("give each file to its own option");

    pub(crate) const RENAME_RELAY: Cure = Cure("write the header as [relay]");

    pub(crate) const COPY_INTO_RELAY: Cure = Cure(
        "make a file for each instance, with the keys of [relay:NAME] in its [relay]",
    );

    pub(crate) const WRITE_IN_RELAY: Cure = Cure("write it in [relay]; names are case-sensitive");

    pub(crate) const WRITE_DESTINATIONS: Cure = Cure(
        "write DESTINATIONS = host:port, .. in [relay]",
    );

    pub(crate) const WRITE_FLOW_CONTROL: Cure = Cure("write USE_FLOW_CONTROL = false in [relay]");

    pub(crate) const WRITE_PROTOCOL: Cure = Cure(
        "write DESTINATION_PROTOCOL = line in [relay], and list in DESTINATIONS the ports at which the stores receive lines",
    );

    pub(crate) const HOST_AND_PORT: Cure = Cure(
        "write host:port or host:port:instance for each item",
    );

    pub(crate) const AT_MOST_64: Cure = Cure("list at most 64 destinations");

    pub(crate) const WRITE_METHOD: Cure = Cure("write rules or consistent-hashing, in lower case");

    pub(crate) const NAME_ONCE: Cure = Cure("list each destination once");

    pub(crate) const OTHER_INSTANCES: Cure = Cure(
        "list a destination once; on a new ring give the stores of one host different instances; on a ring in use a new instance moves metrics: docs/FAULTS.md",
    );

    pub(crate) const ITEMS_ALONE: Cure = Cure("write the items alone, separated by commas");

    pub(crate) const WRITE_NUMBER: Cure = Cure(
        "write a number in this range in decimal digits, and nothing after it",
    );

    pub(crate) const WRITE_TRUTH: Cure = Cure("write true or false");

    pub(crate) const FLOW_CONTROL_OFF: Cure = Cure(
        "write false; a full queue then drops new datapoints, and counts them",
    );

    pub(crate) const LINE_PROTOCOL: Cure = Cure(
        "write line, and list in DESTINATIONS the ports at which the stores receive lines",
    );

    pub(crate) const RULE_DESTINATIONS: Cure = Cure(
        "give the section destinations = host:port, ..",
    );

    pub(crate) const PATTERN_OR_DEFAULT: Cure = Cure("delete one of the two");

    pub(crate) const ONE_DEFAULT: Cure = Cure("give one of them a pattern, or delete it");

    pub(crate) const ADD_DEFAULT: Cure = Cure("add a section with default = true and destinations");

    pub(crate) const CORRECT_KEY: Cure = Cure(
        "write RELAY_METHOD, in capitals and with plain spaces",
    );

    pub(crate) const GIVE_RULES: Cure = Cure(
        "give --rules FILE, or write RELAY_METHOD = consistent-hashing",
    );

    pub(crate) const PRE_OR_POST: Cure = Cure(
        "write [pre] or [post] above the rules; for a pattern that begins with `[`, write (?:[ab])",
    );

    pub(crate) const WRITE_RULE: Cure = Cure(
        "write PATTERN = REPLACEMENT, with `=` even if the replacement is empty; begin a comment with `#`",
    );

    pub(crate) const EQUALS_AS_HEX: Cure = Cure("write \\x3d for `=` in a pattern");

    pub(crate) const REPLACEMENT: Cure = Cure(
        "write \\1 to \\9 for groups of the pattern and \\\\ for a backslash",
    );

    pub(crate) const LOOK_AROUND: Cure = Cure(
        "write a rule for the names that must not match above this one, and repeat in it the destinations of the later rules that match them: docs/FAULTS.md",
    );

    pub(crate) const TEXT_IN_PLACE: Cure = Cure(
        "write a group instead, as (?:web) for (?<=web): a rule asks only whether its pattern is found",
    );

    pub(crate) const LOOK_AROUND_IN_REWRITING: Cure = Cure(
        "put what must stand before or after into a group, and write the group back; for what must not stand there, mark those names first: docs/FAULTS.md",
    );

    pub(crate) const BACK_REFERENCE: Cure = Cure(
        "write out the text that the group finds; a class in its place also finds other text, since it does not repeat what the group found",
    );

    pub(crate) const ZERO_BYTE: Cure = Cure("write \\x00 for \\0; no metric name has that byte");

    pub(crate) const ATOMIC_GROUP: Cure = Cure("write (?:..) for (?>..); it may find more");

    pub(crate) const CLASS_FOR_FLAG: Cure = Cure("write the class itself, as [A-Za-z0-9_] for \\w");

    pub(crate) const END_OF_TEXT: Cure = Cure("write $ for \\Z");

    pub(crate) const ESCAPE: Cure = Cure(
        "write the character without the backslash, or in square brackets",
    );

    pub(crate) const BRACE: Cure = Cure("write \\{ for the character itself, and {0,3} for {,3}");

    pub(crate) const CLOSE_GROUP: Cure = Cure(
        "close it, or write \\( or \\[ for the character itself",
    );

    pub(crate) const BRACKET_ITSELF: Cure = Cure("write \\) for the character itself");

    pub(crate) const BYTE_AS_HEX: Cure = Cure(
        "write the byte as \\x and two digits, as \\x41 for \\101",
    );

    pub(crate) const REPEAT_SOMETHING: Cure = Cure(
        "write .* for any text, or \\* for the character itself",
    );

    pub(crate) const PATTERN_COMMENT: Cure = Cure("write the comment on a line of its own");

    pub(crate) const SMALLER_PATTERN: Cure = Cure(
        "write a smaller count, or a smaller class, as [a-z0-9_] for \\w",
    );

    pub(crate) const NAME_ALONE: Cure = Cure(
        "give the name without value and time; in a shell, put a name with tags in quotes",
    );

    pub(crate) const MORE_DESCRIPTORS: Cure = Cure(
        "raise `ulimit -n`, or LimitNOFILE of the service",
    );

    pub(crate) const FREE_PORT: Cure = Cure(
        "`ss -ltnup` shows who listens there; choose another port, or an address of this machine; only root may use a port below 1024",
    );

    pub(crate) const TWO_PORTS: Cure = Cure("give each its own port");

    pub(crate) const SCRIPT_LINE: Cure = Cure(
        "a script has a line for each reader, such as `reader line`, and then a line for each event, such as `piece 0 1700000000 612031` or `up 0`: docs/REPLAY.md",
    );
}

impl fmt::Display for Cure {
    fn fmt<W: fmt::Write>(&self, f: &mut fmt::Formatter<W>) -> fmt::Result {
        write!(f, "cure: {}", self.0)
    }
}
