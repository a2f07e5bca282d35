//! Causes of faults.

use crate::cure::Cure;
use note_text::Notes;
use std::fmt;

/// What is found in place of the right text.
#[derive(Clone, Copy)]
pub(crate) struct Cause {
    text: &'static str,
    /// The cure, if the cause alone gives it.
    cure: Option<Cure>,
}

impl Cause {
    pub(crate) const BYTE_ORDER_MARK: Cause = Cause {
        text: "the file begins with a byte order mark, which relayd reads as part of the first word",
        cure: Some(Cure::DELETE_MARK),
    };

    pub(crate) const UTF16: Cause = Cause {
        text: "the file is UTF-16, and must be UTF-8",
        cure: Some(Cure::FROM_UTF16),
    };

    pub(crate) const NO_BREAK_SPACE: Cause = Cause {
        text: "\\u{00a0} is a no-break space, which relayd does not treat as white space",
        cure: Some(Cure::DELETE_NO_BREAK_SPACE),
    };

    pub(crate) const CONTINUED_LINE: Cause = Cause {
        text: "the line begins with white space: carbon adds it to the value above, and relayd reads each line by itself",
        cure: Some(Cure::ONE_LINE),
    };

    pub(crate) const LIST_GOES_ON: Cause = Cause {
        text: "the list ends here, and the next line begins with white space: carbon adds that line to the list, and relayd reads each line by itself",
        cure: Some(Cure::ONE_LINE),
    };

    pub(crate) const COMMENT_AFTER_HEADER: Cause = Cause {
        text: "a header ends with `]`, and nothing may follow it",
        cure: Some(Cure::HEADER_ALONE),
    };

    pub(crate) const COMMENT_AFTER_VALUE: Cause = Cause {
        text: "everything up to the end of the line is part of the value, even after `#` or `;`",
        cure: None,
    };

    pub(crate) const REWRITE_FILE_AS_RULES: Cause = Cause {
        text: "the file has [pre] or [post], and looks like a rewrite file, which --rewrite takes",
        cure: Some(Cure::OTHER_FILE),
    };

    pub(crate) const RULES_FILE_AS_REWRITE: Cause = Cause {
        text: "the file has `destinations`, and looks like relay rules, which --rules takes",
        cure: Some(Cure::OTHER_FILE),
    };

    pub(crate) const RULES_FILE_AS_CONFIG: Cause = Cause {
        text: "the file has no section [relay] and has `destinations`, and looks like relay rules, which --rules takes",
        cure: Some(Cure::OTHER_FILE),
    };

    pub(crate) const REWRITE_FILE_AS_CONFIG: Cause = Cause {
        text: "the file has no section [relay] and has [pre] or [post], and looks like a rewrite file, which --rewrite takes",
        cure: Some(Cure::OTHER_FILE),
    };

    pub(crate) const CONFIG_FILE_AS_OTHER: Cause = Cause {
        text: "the file has [relay], and looks like a configuration, which --config takes",
        cure: Some(Cure::OTHER_FILE),
    };

    pub(crate) const MORE_THAN_A_NAME: Cause = Cause {
        text: "a line of a file of names has one name and nothing after it",
        cure: Some(Cure::FIRST_FIELDS),
    };

    pub(crate) const LINES_AS_SCRIPT: Cause = Cause {
        text: "the line is a datapoint, and the file looks like one of lines, which --lines takes",
        cure: Some(Cure::OTHER_FILE),
    };

    pub(crate) const COMMENT_SIGN: Cause = Cause {
        text: "a comment is a line that begins with `#`, and this one does not",
        cure: Some(Cure::BEGIN_COMMENT),
    };

    pub(crate) const GZIP: Cause = Cause {
        text: "the file is compressed by gzip",
        cure: Some(Cure::GUNZIP),
    };

    pub(crate) const BINARY: Cause = Cause {
        text: "the file has control bytes, and is no text",
        cure: Some(Cure::TEXT_FILE),
    };

    pub(crate) const NO_SECTION: Cause = Cause {
        text: "the file is empty, or has comments alone",
        cure: Some(Cure::SECTIONS_AND_KEYS),
    };

    pub(crate) const NO_RELAY_SECTION: Cause = Cause {
        text: "the file has no section [relay]",
        cure: None,
    };

    pub(crate) const INSTANCE_SECTION: Cause = Cause {
        text: "relayd reads settings from [relay] only, and carbon also from [relay:NAME] for one instance",
        cure: Some(Cure::COPY_INTO_RELAY),
    };

    pub(crate) const SECTION_IN_OTHER_CASE: Cause = Cause {
        text: "names of sections are case-sensitive, and white space is part of them",
        cure: Some(Cure::RENAME_RELAY),
    };

    pub(crate) const SECTION_LIKE_RELAY: Cause = Cause {
        text: "relayd reads settings from [relay] only, and the file has no section of just this name",
        cure: Some(Cure::RENAME_RELAY),
    };

    pub(crate) const EMPTY_ITEM: Cause = Cause {
        text: "an item of the list is empty; perhaps the list ends with a comma",
        cure: None,
    };

    pub(crate) const ADDRESS_OF_IPV6: Cause = Cause {
        text: "relayd accepts no IPv6 address as a host",
        cure: Some(Cure::HOST_NAME),
    };

    pub(crate) const VALUE_OF_OTHER_KEY: Cause = Cause {
        text: "carbon replaces `%(KEY)s` by the value of that key, and relayd does not",
        cure: Some(Cure::WRITE_OTHER_VALUE),
    };

    pub(crate) const VARIABLE: Cause = Cause {
        text: "relayd replaces no variables and fills no templates",
        cure: Some(Cure::WRITE_OTHER_VALUE),
    };

    pub(crate) const SECOND_SIGN: Cause = Cause {
        text: "the first `=` or `:` of a line ends its key, and the value begins with a second one",
        cure: Some(Cure::ONE_SIGN),
    };

    pub(crate) const BEYOND_ASCII: Cause = Cause {
        text: "a character of the value is beyond ASCII, even if it looks like a letter, a digit or `-`",
        cure: None,
    };

    pub(crate) const METHOD_OF_CARBON: Cause = Cause {
        text: "carbon has this method, and relayd does not; by another one most metrics go to other stores",
        cure: Some(Cure::KEEP_CARBON_RELAY),
    };

    pub(crate) const LIST_IN_BRACKETS: Cause = Cause {
        text: "a list and its items are written without brackets or quotes",
        cure: Some(Cure::ITEMS_ALONE),
    };

    pub(crate) const VALUE_IN_QUOTES: Cause = Cause {
        text: "a value is written without quotes",
        cure: Some(Cure::WITHOUT_QUOTES),
    };

    pub(crate) const CONTINUED_BY_BACKSLASH: Cause = Cause {
        text: "a backslash at the end does not continue a line",
        cure: Some(Cure::ONE_LINE),
    };

    pub(crate) const SEMICOLON_BETWEEN_ITEMS: Cause = Cause {
        text: "commas separate the items of a list",
        cure: Some(Cure::COMMA_FOR_SEMICOLON),
    };

    pub(crate) const TWO_INSTANCES: Cause = Cause {
        text: "a destination has one instance at most",
        cure: None,
    };

    pub(crate) const SCHEME: Cause = Cause {
        text: "a destination is written without a scheme such as `tcp://`",
        cure: None,
    };

    pub(crate) const WHITE_IN_ITEM: Cause = Cause {
        text: "a destination contains no white space; commas separate the items",
        cure: None,
    };

    pub(crate) const INSTANCE_AFTER_EQUALS: Cause = Cause {
        text: "carbon-c-relay writes an instance after `=`, and relayd after `:`",
        cure: Some(Cure::INSTANCE_AFTER_COLON),
    };

    pub(crate) const NO_PORT: Cause = Cause {
        text: "the port is missing",
        cure: None,
    };

    pub(crate) const BAD_PORT: Cause = Cause {
        text: "a port is a number from 1 to 65535, in decimal digits",
        cure: None,
    };

    pub(crate) const BAD_HOST: Cause = Cause {
        text: "a host and an instance have 1 to 255 characters: ASCII letters, digits, `.`, `-` and `_`",
        cure: None,
    };

    pub(crate) const SAME_DESTINATION: Cause = Cause {
        text: "the list already has it, with the same host, port and instance",
        cure: None,
    };

    pub(crate) const SAME_NODE: Cause = Cause {
        text: "the list already has it, with the same host and instance: on a ring the port is not part of a node",
        cure: Some(Cure::OTHER_INSTANCES),
    };

    pub(crate) const CUT_AT_FIRST_EQUALS: Cause = Cause {
        text: "relayd splits the line at its first `=`, so the pattern ends before it",
        cure: Some(Cure::EQUALS_AS_HEX),
    };

    pub(crate) const SECOND_EQUALS: Cause = Cause {
        text: "relayd splits the line at its first `=`, and the replacement begins with a second one",
        cure: Some(Cure::ONE_EQUALS),
    };

    pub(crate) const ARROW: Cause = Cause {
        text: "`=` alone is between pattern and replacement, so `>` is part of the replacement",
        cure: Some(Cure::NO_ARROW),
    };

    pub(crate) const CUT_IN_LOOK_AROUND: Cause = Cause {
        text: "relayd splits the line at its first `=`, here inside a look-around, which relayd does not support",
        cure: Some(Cure::LOOK_AROUND_IN_REWRITING),
    };

    pub(crate) const SEMICOLON_COMMENT: Cause = Cause {
        text: "in a rewrite file `#` begins a comment, and `;` does not",
        cure: None,
    };

    pub(crate) const PATTERN_AS_HEADER: Cause = Cause {
        text: "a line that begins with `[` and ends with `]` is a header, even if a rule was meant",
        cure: None,
    };

    pub(crate) const WHITE_IN_HEADER: Cause = Cause {
        text: "the header has white space inside its brackets, which relayd takes as part of the name",
        cure: Some(Cure::HEADER_WITHOUT_WHITE),
    };

    pub(crate) const LINES_OF_CARRIAGE_RETURNS: Cause = Cause {
        text: "the lines of the file end with byte 13, and only byte 10 ends a line for relayd",
        cure: Some(Cure::NEWLINES),
    };

    pub(crate) const C_RELAY_FILE: Cause = Cause {
        text: "the file looks like a configuration of carbon-c-relay, which relayd cannot read",
        cure: Some(Cure::FROM_C_RELAY),
    };

    pub(crate) const RELAY_NG_FILE: Cause = Cause {
        text: "the file looks like a configuration of carbon-relay-ng, which relayd cannot read",
        cure: Some(Cure::FROM_RELAY_NG),
    };

    pub(crate) const AGGREGATION_FILE: Cause = Cause {
        text: "the file looks like aggregation rules of carbon, and relayd does not aggregate",
        cure: Some(Cure::KEEP_CARBON_AGGREGATOR),
    };

    pub(crate) const STORAGE_FILE: Cause = Cause {
        text: "the file looks like one of carbon-cache, as storage-schemas.conf, which no relay reads",
        cure: Some(Cure::GIVE_RELAY_RULES),
    };

    pub(crate) const JSON_FILE: Cause = Cause {
        text: "the file looks like JSON, which relayd cannot read",
        cure: Some(Cure::SECTIONS_AND_KEYS),
    };

    pub(crate) const YAML_FILE: Cause = Cause {
        text: "the file looks like YAML, which relayd cannot read",
        cure: Some(Cure::SECTIONS_AND_KEYS),
    };

    pub(crate) const ESCAPE_IN_REPLACEMENT: Cause = Cause {
        text: "after a backslash relayd expects a digit from 1 to 9, the number of a group, or a second backslash",
        cure: None,
    };

    pub(crate) const NAMED_GROUP: Cause = Cause {
        text: "`\\g` names a group in Python, and relayd knows groups by their numbers only",
        cure: None,
    };

    pub(crate) const CHANGED_GROUP: Cause = Cause {
        text: "carbon-c-relay changes the case or the dots of a group here, and relayd cannot",
        cure: None,
    };

    pub(crate) const LONG_GROUP_NUMBER: Cause = Cause {
        text: "the number of a group has one digit, and another digit follows it",
        cure: None,
    };

    pub(crate) const NO_SUCH_GROUP: Cause = Cause {
        text: "the pattern has no group with this number; groups are counted by their opening brackets, from 1",
        cure: Some(Cure::ADD_GROUP),
    };

    pub(crate) const WHITE_IN_REPLACEMENT: Cause = Cause {
        text: "a replacement contains no white space and no control byte",
        cure: Some(Cure::DELETE_WHITE),
    };

    pub(crate) const COMMENT_IN_REPLACEMENT: Cause = Cause {
        text: "everything after the first `=` is the replacement, even after `#`",
        cure: Some(Cure::PATTERN_COMMENT),
    };

    /// The cure of a fault with this cause, if the cause alone gives it; otherwise the cure of the fault.
    fn cure_or(self, cure: Cure) -> Cure {
        self.cure.unwrap_or(cure)
    }
}

/// Adds the cure of a fault, after its cause if that is known, which may have a cure of its own.
pub(crate) fn add_cure(notes: &mut Notes, cause: Option<Cause>, cure: Cure) {
    let Some(cause) = cause else {
        return notes.add(cure);
    };
    notes.add(cause);
    notes.add(cause.cure_or(cure));
}

/// Adds the cause of a fault, if it is known, and its own cure, if it has one.
pub(crate) fn add_cause(notes: &mut Notes, cause: Option<Cause>) {
    let Some(cause) = cause else {
        return;
    };
    notes.add(cause);
    if let Some(cure) = cause.cure {
        notes.add(cure);
    }
}

impl fmt::Display for Cause {
    fn fmt<W: fmt::Write>(&self, f: &mut fmt::Formatter<W>) -> fmt::Result {
        f.write_str(self.text)
    }
}
