//! Rows of `rewrite_rules`.

use crate::marks::{CALLS, RowAnswer, begin, end, is_made, print_answer, print_state};
use line_text::Name;
use rewrite_rules::{RewriteFault, RewriteReadFault, RewriteRules};
use std::alloc::Global;

pub(crate) const NAMES: &[&str] = &["RewriteRules::read", "RewriteRules::apply"];

pub(crate) fn run(rt: &HostRuntime, alloc: Global, name: &str) -> Option<()> {
    match name {
        "RewriteRules::read" => read_all(rt, alloc),
        "RewriteRules::apply" => apply(rt, alloc),
        _ => None,
    }
}

/// A rule of each section; the second one leaves nothing of a name.
const RULES: &str = "\
[post]
total$ = sum
[pre]
^collectd\\.([a-z0-9]+)\\. = \\1.system.
^x$ =
";

/// Rules, and others with a fault each.
static FILES: [&str; 7] = [
    RULES,
    "[pre]\na\n",
    "[pre]\n( = x\n",
    "[pre]\n(a) = \\2\n",
    "[pre]\n(a) = \\10\n",
    "[pre]\na = b c\n",
    "[mid]\n",
];

/// The new name of the first has more bytes than a name has in itself.
static TEXTS: [&str; 3] = [
    "collectd.web1.of.the.first.rack.of.the.second.hall.of.the.east.wing.cpu.total",
    "collectd.web1.cpu",
    "x",
];

fn read_all(rt: &HostRuntime, alloc: Global) -> Option<()> {
    for file in &FILES {
        read(rt, alloc, file)?;
    }
    Some(())
}

fn read(rt: &HostRuntime, alloc: Global, file: &str) -> Option<()> {
    for _ in 0..CALLS {
        begin(rt);
        let answer = RewriteRules::read(alloc, file);
        end(rt);
        let for_want = matches!(&answer, Err(RewriteReadFault::NoMemory));
        is_made(rt, answer);
        if !for_want {
            return Some(());
        }
    }
    None
}

/// Prints what rules make of a name.
impl RowAnswer for RewriteRules {
    fn print(&mut self, rt: &HostRuntime) {
        let _ = rt.println("answer rules");
        if let Ok(name) = Name::read(rt.alloc(), b"collectd.web1.cpu") {
            let rewritten = self.apply(&name);
            if let Ok(name) = &rewritten {
                print_state(rt, &name.text());
            }
        }
    }
}

fn apply(rt: &HostRuntime, alloc: Global) -> Option<()> {
    let mut rules = RewriteRules::read(alloc, RULES).ok()?;
    let applied = apply_all(rt, alloc, &mut rules);
    drop(rules);
    applied
}

fn apply_all(rt: &HostRuntime, alloc: Global, rules: &mut RewriteRules) -> Option<()> {
    for text in &TEXTS {
        apply_to(rt, rules, &Name::read(alloc, text.as_bytes()).ok()?)?;
    }
    Some(())
}

fn apply_to(rt: &HostRuntime, rules: &mut RewriteRules, name: &Name) -> Option<()> {
    for _ in 0..CALLS {
        print_state(rt, &name.text());
        begin(rt);
        let answer = rules.apply(name);
        end(rt);
        match &answer {
            Ok(name) => print_answer(rt, &name.text()),
            Err(fault) => print_answer(rt, fault),
        }
        if !matches!(answer, Err(RewriteFault::NoMemory)) {
            return Some(());
        }
    }
    None
}
