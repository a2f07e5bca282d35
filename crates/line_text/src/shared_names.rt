//! Metric names that are in memory already.
ghost use Rattle.std.specs.Prelude.{◌≡◌, IfSome, IsTrue};
ghost use Rattle.std.specs.Arc.{arc_value};
ghost use Rattle.line_text.specs.Name.{is_name};

use crate::name::Name;
use std::sync::Arc;

/// Remembers metric names, so that a datapoint whose name it remembers shares that name and takes no memory for it.
pub trait SharedNames {
    /// The name that a text is, if it is remembered. The reader makes any other name from the text.
    fn shared(&self, text: &[u8]) -> Option<Arc<Name>>
        ensures { IfSome result (λ name. (arc_value name ≡ text.now)
            × IsTrue (is_name text.now)) };
}

/// Remembers no names.
#[derive(Clone, Copy)]
pub(crate) struct NoNames;

impl SharedNames for NoNames {
    fn shared(&self, _text: &[u8]) -> Option<Arc<Name>> {
        None
    }
}
