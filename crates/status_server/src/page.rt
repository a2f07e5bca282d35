//! The pages that the server has.

use std::alloc::AllocError;

/// A page.
#[derive(Clone, Copy)]
pub enum Page {
    /// The page for people, at `/`.
    Html,
    /// The status as JSON, at `/status.json`.
    Json,
    /// The status as metrics, at `/metrics`.
    Metrics,
    /// Whether the relay goes on, at `/healthz`.
    Health,
}

/// The source of the texts of the pages.
pub trait StatusTexts {
    /// Adds the text of a page. Refuses if out of memory.
    fn push_text(&self, page: Page, text: &mut String) -> Result<(), AllocError>;

    /// Whether the relay is about to end: then `/healthz` has the status 503.
    fn is_ending(&self) -> bool;
}
