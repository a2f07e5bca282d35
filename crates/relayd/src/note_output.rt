//! Where notes go, and in which form.

use crate::file_limit::limited_output;
use crate::json_notes::NotedFiles;
use command_line::{Invocation, OutputForm, Paths};
use note_text::Notes;
use relay_base::NoMemory;
use relay_files::{RelayFault, write_out};
use std::alloc::Global;
use std::io::Write;

/// Writes notes: to standard error as they are, or to standard output as objects of JSON.
#[derive(Drop)]
pub struct NoteOutput<'a> {
    rt: &'a HostRuntime,
    alloc: Global,
    paths: &'a Paths,
    form: OutputForm,
    /// Whether the notes are of a fault.
    is_fault: bool,
    has_notes: bool,
    failure: Option<RelayFault>,
}

impl<'a> NoteOutput<'a> {
    /// An output for the notes of a command with these files, which had a fault or none.
    pub fn new(
        rt: &'a HostRuntime,
        alloc: Global,
        invocation: &Invocation,
        paths: &'a Paths,
        is_fault: bool,
    ) -> NoteOutput<'a> {
        let form = match invocation {
            Invocation::Check(command) => command.form,
            _ => OutputForm::Text,
        };
        NoteOutput {
            rt,
            alloc,
            paths,
            form,
            is_fault,
            has_notes: false,
            failure: None,
        }
    }

    /// Whether there was a note.
    pub fn has_notes(&self) -> bool {
        self.has_notes
    }

    /// Why objects were not written, if some were not.
    pub fn failure(&self) -> Option<RelayFault> {
        self.failure
    }

    /// Writes notes. If there was no memory for them, there are none on standard error.
    pub fn write(&mut self, notes: Result<Notes, NoMemory>) {
        match self.form {
            OutputForm::Text => self.write_text(notes),
            OutputForm::Json => {
                if let Err(fault) = self.write_objects(notes) {
                    self.failure = Some(fault);
                }
            }
        }
    }

    /// Writes notes as they are.
    fn write_text(&mut self, notes: Result<Notes, NoMemory>) {
        if let Ok(notes) = notes {
            self.has_notes = self.has_notes || !notes.is_empty();
            let _ = self.rt.stderr().write_all(notes.text().as_bytes());
        }
    }

    /// Writes notes as objects.
    fn write_objects(&mut self, notes: Result<Notes, NoMemory>) -> Result<(), RelayFault> {
        let notes = notes?;
        self.has_notes = self.has_notes || !notes.is_empty();
        let text = objects_of(self.alloc, self.paths, notes.text(), self.is_fault);
        drop(notes);
        let text = text?;
        let mut output = limited_output(self.rt);
        write_out(&mut output, text.as_str().as_bytes())?;
        Ok(())
    }
}

/// Notes of files at these paths, as objects.
fn objects_of(
    alloc: Global,
    paths: &Paths,
    notes: &str,
    is_fault: bool,
) -> Result<String, NoMemory> {
    let files = NotedFiles::new(alloc, paths)?;
    let mut text = String::new(alloc);
    let pushed = files.push_objects(&mut text, notes, is_fault);
    drop(files);
    match pushed {
        Ok(()) => Ok(text),
        Err(_) => {
            drop(text);
            Err(NoMemory)
        }
    }
}
