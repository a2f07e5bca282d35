//! Whether what a command routes gets somewhere.

use crate::watched_reader::WatchedReader;
use line_text::{Moment, Name, NameFault, Point, Value};
use reader_core::ReaderKind;
use relay_base::{DestId, NoMemory, add, strip_bytes};
use relay_files::{PIECE, Status};
use replay::{OwnedEvent, Script};
use router::Plan;
use std::alloc::Global;
use std::sync::Arc;

/// A plan beside that of a command, to which go the same names and datapoints: whether one of them was bad, was dropped or
/// went nowhere.
#[derive(Drop)]
pub struct WatchedRoute {
    alloc: Global,
    plan: Plan,
    // Lent to the plan for the destinations of a datapoint.
    dests: Vec<DestId>,
    has_fault: bool,
}

impl WatchedRoute {
    /// Nothing went to the plan yet.
    pub fn new(alloc: Global, plan: Plan) -> WatchedRoute {
        WatchedRoute {
            alloc,
            plan,
            dests: Vec::new(alloc),
            has_fault: false,
        }
    }

    /// The status of a command that had no other fault.
    pub fn status(&self) -> Status {
        if self.has_fault {
            Status::ConfigurationFault
        } else {
            Status::Done
        }
    }

    /// Routes a name.
    pub fn route_name(&mut self, text: &[u8]) -> Result<(), NoMemory> {
        match Name::read(self.alloc, text) {
            Ok(name) => {
                let point = Point {
                    name: Arc::new(self.alloc, name)?,
                    value: Value::of_whole(0),
                    time: 0,
                };
                self.route_point(point)?;
                Ok(())
            }
            Err(NameFault::BadName) => {
                self.has_fault = true;
                Ok(())
            }
            Err(NameFault::NoMemory) => Err(NoMemory),
        }
    }

    /// Routes the names of a text, one a line.
    pub fn route_names(&mut self, text: &[u8]) -> Result<(), NoMemory> {
        for line in text.split_inclusive(|byte| *byte == b'\n') {
            let name = strip_bytes(line.strip_suffix(b"\n").unwrap_or(line));
            if !name.is_empty() {
                self.route_name(name)?;
            }
        }
        Ok(())
    }

    /// Routes a datapoint, and returns to how many destinations it goes.
    fn route_point(&mut self, point: Point) -> Result<usize, NoMemory> {
        let sent = self.plan.send_into(point, &mut self.dests)?;
        let count = match sent {
            Some(_) => self.dests.len(),
            None => 0,
        };
        self.has_fault = self.has_fault || count == 0;
        Ok(count)
    }

    /// Routes the datapoints of lines that a reader gets as one connection.
    pub fn route_lines(&mut self, lines: &[u8], moment: Moment) -> Result<(), NoMemory> {
        let mut reader = WatchedReader::new(self.alloc, ReaderKind::Line);
        let routed = self.route_pieces(&mut reader, lines, moment);
        drop(reader);
        routed
    }

    fn route_pieces(
        &mut self,
        reader: &mut WatchedReader,
        lines: &[u8],
        moment: Moment,
    ) -> Result<(), NoMemory> {
        for piece in lines.chunks(PIECE) {
            self.route_piece(reader, piece, moment)?;
        }
        Ok(())
    }

    /// Routes the datapoints of a script that a replay has run.
    pub fn route_script(&mut self, script: &Script) -> Result<(), NoMemory> {
        let mut readers = Vec::new(self.alloc);
        let routed = self.route_events(script, &mut readers);
        drop(readers);
        routed
    }

    fn route_events(
        &mut self,
        script: &Script,
        readers: &mut Vec<WatchedReader>,
    ) -> Result<(), NoMemory> {
        for kind in script.kinds() {
            add(readers, WatchedReader::new(self.alloc, *kind))?;
        }
        for event in script.events() {
            self.route_event(event.event(), readers)?;
        }
        Ok(())
    }

    /// Routes the datapoints of an event, if the replay has not refused it.
    fn route_event(
        &mut self,
        event: &OwnedEvent,
        readers: &mut Vec<WatchedReader>,
    ) -> Result<(), NoMemory> {
        let number = match event {
            OwnedEvent::Piece(number, ..) | OwnedEvent::End(number) | OwnedEvent::Offer(number) =>
                *number,
            _ => return Ok(()),
        };
        let Some(reader) = readers.get_mut(number) else {
            return Ok(());
        };
        match event {
            OwnedEvent::Piece(_, bytes, moment) if reader.waiting == 0 => {
                self.route_piece(reader, bytes.as_slice(), *moment)
            }
            OwnedEvent::End(_) => {
                reader.end(self.alloc);
                Ok(())
            }
            OwnedEvent::Offer(_) => {
                reader.waiting = reader.waiting.saturating_sub(1);
                Ok(())
            }
            _ => Ok(()),
        }
    }

    /// Routes the datapoints of a piece.
    fn route_piece(
        &mut self,
        reader: &mut WatchedReader,
        piece: &[u8],
        moment: Moment,
    ) -> Result<(), NoMemory> {
        let mut points = Vec::new(self.alloc);
        let routed = match reader.read(self.alloc, piece, moment, &mut points) {
            Ok(is_bad) => {
                self.has_fault = self.has_fault || is_bad;
                self.route_points(reader, &mut points)
            }
            Err(fault) => Err(fault),
        };
        drop(points);
        routed
    }

    fn route_points(
        &mut self,
        reader: &mut WatchedReader,
        points: &mut Vec<Point>,
    ) -> Result<(), NoMemory> {
        for point in points.drain(..) {
            let count = self.route_point(point)?;
            reader.waiting = reader.waiting.saturating_add(count);
        }
        Ok(())
    }
}
