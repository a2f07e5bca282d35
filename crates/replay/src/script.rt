//! A script: its readers and its events.
ghost use Rattle.std.specs.Prelude.{◌≡◌, ◌≤◌, [], Ok, IfOk, OnOk, IfErr, length};
ghost use Rattle.relay_base.specs.Memory.{Fails, Gives};
ghost use Rattle.replay.specs.ScriptEvent.{event_seen};
ghost use Rattle.replay.specs.ScriptLine.{Reader, Event};
ghost use Rattle.replay.specs.ReadScriptLine.{meaning_seen};
ghost use Rattle.replay.specs.ScriptText.{script_of};
ghost use Rattle.replay.specs.ScriptSteps.{line_gives};

use crate::script_event::{OwnedEvent, ScriptEvent};
use crate::script_fault::ScriptFault;
use crate::script_line::{Line, read_line};
use dest_queue::MOST_READERS;
use reader_core::ReaderKind;
use std::alloc::Global;
use std::marker::Model;

/// What a script says: the kinds of its readers, which are numbered from 0, and its events in order.
///
/// Clauses see it as these two lists.
#[derive(Drop)]
pub struct Script {
    kinds: Vec<ReaderKind>,
    events: Vec<ScriptEvent>,
}

impl Model for Script {
    ghost use Rattle.replay.specs.ScriptText.{ScriptText};

    ghost Value = { ScriptText };

    ghost view = { λ s. record { kinds = s.kinds.items; events = s.events.items } };

    ghost use Rattle.std.specs.Prelude.{◌≤◌, length};
    ghost use Rattle.dest_queue.specs.declared.queue.TheConstants.{MOST_READERS};

    ghost invariant = { λ s. length s.kinds.items ≤ MOST_READERS };
}

impl Script {
    /// Reads a script (the project's own form, `docs/FORMATS.md`).
    ///
    /// The text is cut at byte 10, and each line is stripped of bytes 9, 11, 12, 13 and 32. A line that is empty or
    /// begins with `#` is skipped. Any other line declares a reader, as `reader line`, or is an event, as
    /// `offer 0`; exactly one space separates its words.
    ///
    /// `BadLine` has the number of the first faulty line: one that is none of these, a reader after an event or after 8,192
    /// others, or an event before the first reader. `NoMemory` comes where a growth was refused.
    pub fn read(alloc: Global, text: &str) -> Result<Script, ScriptFault>
        ensures script { Gives ScriptFault.NoMemory (λ script. script) result
            (script_of text.now) }
        ensures readers { IfOk result (λ script. 1 ≤ length script.kinds) }
    {
        let mut script = Script {
            kinds: Vec::new(alloc),
            events: Vec::new(alloc),
        };
        match script.add_lines(alloc, text) {
            Ok(()) => Ok(script),
            Err(fault) => {
                drop(script);
                Err(fault)
            }
        }
    }

    /// The kinds of the readers, at most [`MOST_READERS`].
    pub fn kinds(&self) -> &[ReaderKind]
        ensures kinds { result.now ≡ self.now.kinds }
        ensures count { length self.now.kinds ≤ MOST_READERS }
    {
        self.kinds.as_slice()
    }

    /// The events, in order.
    pub fn events(&self) -> &[ScriptEvent]
        ensures { result.now ≡ self.now.events }
    {
        self.events.as_slice()
    }

    /// Adds what the lines of a text say to a script that is empty.
    fn add_lines(&mut self, alloc: Global, text: &str) -> Result<(), ScriptFault>
        requires { self.old ≡ record { kinds = []; events = [] } }
        ensures script { Gives ScriptFault.NoMemory (λ _. self.new) result
            (script_of text.now) }
        ensures readers { OnOk result (1 ≤ length self.new.kinds) }
    {
        let mut number = 0;
        for line in text.split('\n') {
            number += 1;
            self.add_line(number, read_line(alloc, line)?)?;
        }
        if self.kinds().is_empty() {
            return Err(ScriptFault::BadLine { line: 0 });
        }
        Ok(())
    }

    fn add_line(&mut self, number: usize, line: Line) -> Result<(), ScriptFault>
        ensures ok { OnOk result (line_gives self.old number (meaning_seen line) ≡ Ok self.new) }
        ensures err { IfErr result
            (Fails ScriptFault.NoMemory (line_gives self.old number (meaning_seen line))) }
    {
        match line {
            Line::Skipped => Ok(()),
            Line::Reader(kind) => self.add_reader(number, kind),
            Line::Event(event) => self.add_event(number, event),
            Line::Bad => Err(ScriptFault::BadLine { line: number }),
        }
    }

    fn add_reader(&mut self, number: usize, kind: ReaderKind) -> Result<(), ScriptFault>
        ensures ok { OnOk result (line_gives self.old number (Reader kind) ≡ Ok self.new) }
        ensures err { IfErr result
            (Fails ScriptFault.NoMemory (line_gives self.old number (Reader kind))) }
    {
        if !self.events.is_empty() || self.kinds.len() >= MOST_READERS {
            return Err(ScriptFault::BadLine { line: number });
        }
        self.kinds.push(kind)?;
        Ok(())
    }

    fn add_event(&mut self, number: usize, event: OwnedEvent) -> Result<(), ScriptFault>
        ensures ok { OnOk result
            (line_gives self.old number (Event (event_seen event)) ≡ Ok self.new) }
        ensures err { IfErr result
            (Fails ScriptFault.NoMemory (line_gives self.old number (Event (event_seen event)))) }
    {
        if self.kinds.is_empty() {
            return Err(ScriptFault::BadLine { line: number });
        }
        self.events.push(ScriptEvent::new(number, event))?;
        Ok(())
    }
}
