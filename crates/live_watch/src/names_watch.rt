//! A watch that counts datapoints by the first parts of their names.

use crate::found::FoundPiece;
use crate::name_parts::first_parts;
use crate::name_sketch::NameSketch;
use relay_base::NoMemory;
use std::alloc::Global;
use std::fmt::Write as _;
use std::mem;

/// How many of the greatest are said.
const MOST_SAID: usize = 1_000;

/// A watch that counts datapoints by the first parts of their names.
#[derive(Drop)]
pub(crate) struct NamesWatch {
    alloc: Global,
    parts: u64,
    pub(crate) sketch: NameSketch,
}

impl NamesWatch {
    /// A watch of so many parts that has seen nothing.
    pub(crate) fn new(alloc: Global, parts: u64) -> NamesWatch {
        NamesWatch {
            alloc,
            parts,
            sketch: NameSketch::new(alloc),
        }
    }

    /// Takes a piece with these datapoints.
    pub(crate) fn take(&mut self, found: &FoundPiece) -> Result<(), NoMemory> {
        for one in found.found.as_slice() {
            self.sketch
                .note(first_parts(one.point.name.text(), self.parts))?;
        }
        Ok(())
    }

    /// Adds the greatest, one a line: how often it came at most, how many of these may be of others, and the parts. Returns how
    /// many they are. It has seen nothing then.
    pub(crate) fn push_greatest(&mut self, text: &mut String) -> Result<u64, NoMemory> {
        let sketch = mem::replace(&mut self.sketch, NameSketch::new(self.alloc));
        let greatest = sketch.into_greatest()?;
        let mut count: u64 = 0;
        for counter in greatest.as_slice().iter().take(MOST_SAID) {
            writeln!(
                text,
                "{} {} {}",
                counter.count,
                counter.error,
                counter.text.as_str()
            )?;
            count = count.saturating_add(1);
        }
        drop(greatest);
        Ok(count)
    }
}
