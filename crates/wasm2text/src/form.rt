//! What is written for a module.

use crate::part::Part;

/// What is written for a module.
#[derive(Clone, Copy)]
pub enum Form<'a> {
    /// The text without ANSI escape sequences.
    Plain,
    /// The text with ANSI escape sequences.
    InColors,
    /// A part of the text, or what no text shows, without ANSI escape sequences.
    Part(Part<'a>),
}
