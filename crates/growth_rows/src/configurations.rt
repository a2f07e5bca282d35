//! Rows of `conf_text`.

use crate::marks::{CALLS, RowAnswer, begin, end, is_made, print_answer, print_state};
use conf_text::{Dest, DestFault, Ini, IniFault, Section, SettingFault, Settings};
use std::alloc::{AllocError, Global};
use worked_files::TWO_DESTINATIONS;

pub(crate) const NAMES: &[&str] = &["Ini::read", "Dest::read", "Settings::read"];

/// Rows that are refused no growth.
pub(crate) const WORKED: &[&str] = &["sections and pairs"];

pub(crate) fn run(rt: &HostRuntime, alloc: Global, name: &str) -> Option<()> {
    match name {
        "Ini::read" => read_files(rt, alloc),
        "Dest::read" => read_dests(rt, alloc),
        "Settings::read" => read_settings(rt, alloc),
        "sections and pairs" => read_sections(rt, alloc),
        _ => None,
    }
}

/// A file, and one with a key before any section.
static FILES: [&str; 2] = [TWO_DESTINATIONS, "key = value\n[relay]\n"];

fn read_files(rt: &HostRuntime, alloc: Global) -> Option<()> {
    for file in &FILES {
        read_file(rt, alloc, file)?;
    }
    Some(())
}

fn read_file(rt: &HostRuntime, alloc: Global, file: &str) -> Option<()> {
    for _ in 0..CALLS {
        begin(rt);
        let answer = Ini::read(alloc, file);
        end(rt);
        let for_want = matches!(&answer, Err(IniFault::NoMemory));
        is_made(rt, answer);
        if !for_want {
            return Some(());
        }
    }
    None
}

/// Prints how many sections there are, and a value.
impl RowAnswer for Ini {
    fn print(&mut self, rt: &HostRuntime) {
        let _ = println!(rt;
            "answer {} {:?}",
            self.sections().len(),
            self.get("relay", "MAX_QUEUE_SIZE")
        );
    }
}

static TEXTS: [&str; 32] = [
    "",
    "\n\n",
    "[a]",
    "[a]\nx = 1\n",
    "[a]\nx = 1",
    "[a]\r\nx = 1\r\n",
    "\t [a]\x0b\n \x0cx\t=\t1 \n",
    "[a]\nx=1\ny=2\n[b]\nx=3\n",
    "[a]\n# x = 1\n; y = 2\n  # z\n",
    "# before\n[a]\n",
    "[a]\nx = 1 # no comment\n",
    "[a]\nx = 1 ; no comment\n",
    "[a]\nx =\n",
    "[a]\nx:\n",
    "[a]\nx : 1\n",
    "[a]\nx = h:1\n",
    "[a]\nx : h=1\n",
    "[a]\nx == 1\n",
    "[a]\nx =: 1\n",
    "[a]\nx := 1\n",
    "[a]\na b  c = d  e\n",
    "[a]\nX = 1\nx = 2\n",
    "[a]\n[A]\n",
    "[ a ]\n[a]\n",
    "[ ]\n",
    "[[x]]\n",
    "[a]]\n",
    "[a][b]\n",
    "[#]\n",
    "[a]\n]x = 1\n",
    "[a]\né = ü\n",
    "[é]\n",
];

/// Prints the sections of each text, each as `[name]` and then `<key=value>` for each pair.
fn read_sections(rt: &HostRuntime, alloc: Global) -> Option<()> {
    for text in &TEXTS {
        let ini = Ini::read(alloc, text).ok()?;
        let printed = print_sections(rt, alloc, &ini);
        drop(ini);
        printed?;
    }
    Some(())
}

fn print_sections(rt: &HostRuntime, alloc: Global, ini: &Ini) -> Option<()> {
    let mut out = String::new(alloc);
    for section in ini.sections() {
        push_section(&mut out, section).ok()?;
    }
    print_answer(rt, &out.as_str());
    Some(())
}

fn push_section(out: &mut String, section: &Section) -> Result<(), AllocError> {
    out.push('[')?;
    out.push_str(section.name())?;
    out.push(']')?;
    for pair in section.pairs() {
        out.push('<')?;
        out.push_str(pair.key())?;
        out.push('=')?;
        out.push_str(pair.value())?;
        out.push('>')?;
    }
    Ok(())
}

static DESTS: [&str; 3] = ["10.0.0.1:2004:a", "127.0.0.1:3001", "127.0.0.1"];

fn read_dests(rt: &HostRuntime, alloc: Global) -> Option<()> {
    for text in &DESTS {
        read_dest(rt, alloc, text)?;
    }
    Some(())
}

fn read_dest(rt: &HostRuntime, alloc: Global, text: &str) -> Option<()> {
    for _ in 0..CALLS {
        print_state(rt, &text);
        begin(rt);
        let answer = Dest::read(alloc, text);
        end(rt);
        let for_want = matches!(&answer, Err(DestFault::NoMemory));
        print_answer(rt, &answer);
        if !for_want {
            return Some(());
        }
    }
    None
}

/// Settings that are accepted, and others with a fault each.
static CONFIGURATIONS: [&str; 7] = [
    TWO_DESTINATIONS,
    "[relay]\nDESTINATIONS = h:1, h:2\nDESTINATION_PROTOCOL = line\n",
    "[relay]\nDESTINATIONS = h:1, h:2\nUSE_FLOW_CONTROL = True\nDESTINATION_PROTOCOL = line\n",
    "[relay]\nDESTINATIONS = h:1, h:2\nUSE_FLOW_CONTROL = False\nDESTINATION_PROTOCOL = pickle\n",
    "[relay]\nDESTINATIONS = 127.0.0.1\nUSE_FLOW_CONTROL = False\nDESTINATION_PROTOCOL = line\n",
    "[relay]\nDESTINATIONS = h:1, h:2\nUSE_FLOW_CONTROL = False\nDESTINATION_PROTOCOL = line\n",
    "[relay]\nDESTINATIONS = h:1, h:2\nUSE_FLOW_CONTROL = False\nDESTINATION_PROTOCOL = line\n\
RELAY_METHOD = consistent-hashing\n",
];

fn read_settings(rt: &HostRuntime, alloc: Global) -> Option<()> {
    for text in &CONFIGURATIONS {
        let ini = Ini::read(alloc, text).ok()?;
        let read = read_settings_of(rt, alloc, &ini);
        drop(ini);
        read?;
    }
    Some(())
}

fn read_settings_of(rt: &HostRuntime, alloc: Global, ini: &Ini) -> Option<()> {
    for _ in 0..CALLS {
        begin(rt);
        let answer = Settings::read(alloc, ini);
        end(rt);
        let for_want = matches!(&answer, Err(SettingFault::NoMemory));
        is_made(rt, answer);
        if !for_want {
            return Some(());
        }
    }
    None
}

/// Prints how many destinations there are, the size of a queue, and the port of lines.
impl RowAnswer for Settings {
    fn print(&mut self, rt: &HostRuntime) {
        let _ = println!(rt;
            "answer {} {} {}",
            self.destinations().len(),
            self.max_queue_size(),
            self.line_receiver_port()
        );
    }
}
