//! A reader to which no names are lent.
use line_text::{Name, SharedNames};
use std::sync::Arc;

/// Remembers no names.
#[derive(Clone, Copy)]
pub struct NoNames;

impl SharedNames for NoNames {
    fn shared(&self, _text: &[u8]) -> Option<Arc<Name>> {
        None
    }
}
