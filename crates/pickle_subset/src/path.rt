//! Texts of a pickle with the names that they are.
ghost use Rattle.std.specs.Prelude.{◌≡◌, Ok, option_map};
ghost use Rattle.std.specs.Arc.{arc_value};
ghost use Rattle.relay_base.specs.Memory.{Gives};
ghost use Rattle.pickle_subset.specs.RowPoint.{path_name};

use crate::fault::PickleFault;
use line_text::{Name, NameFault, SharedNames};
use std::alloc::Global;
use std::sync::Arc;

/// A text of a pickle, and the name that it is, which all datapoints of that name share: the text may be long and be
/// in many rows.
#[derive(Drop)]
pub struct Path<'a> {
    pub text: &'a str,
    /// `None` if the text is not a name.
    pub name: Option<Arc<Name>>,
    ghost named: { option_map arc_value name ≡ path_name text.now },
}

impl<'a> Path<'a> {
    /// A text with its name. A remembered name is shared, and takes no memory.
    pub fn new<N: SharedNames>(
        alloc: Global,
        names: &N,
        text: &'a str,
    ) -> Result<Path<'a>, PickleFault>
        ensures { Gives PickleFault.NoMemory (λ path. path.text.now) result (Ok text.now) }
    {
        let name = name_of(alloc, names, text)?;
        Ok(Path { text, name })
    }
}

/// The name that a text is, if it is one.
pub fn name_of<N: SharedNames>(
    alloc: Global,
    names: &N,
    text: &str,
) -> Result<Option<Arc<Name>>, PickleFault>
    ensures { Gives PickleFault.NoMemory (λ name. option_map arc_value name) result
        (Ok (path_name text.now)) }
{
    if let Some(name) = names.shared(text.as_bytes()) {
        return Ok(Some(name));
    }
    match Name::read(alloc, text.as_bytes()) {
        Ok(name) => Ok(Some(Arc::new(alloc, name)?)),
        Err(NameFault::BadName) => Ok(None),
        Err(NameFault::NoMemory) => Err(PickleFault::NoMemory),
    }
}

/// The same name, shared once more.
pub fn share(name: &Option<Arc<Name>>) -> Result<Option<Arc<Name>>, PickleFault>
    ensures { Gives PickleFault.NoMemory (λ name. option_map arc_value name) result
        (Ok (option_map arc_value name.now)) }
{
    match name {
        Some(name) => Ok(Some(name.clone()?)),
        None => Ok(None),
    }
}
