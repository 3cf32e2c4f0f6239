//! The trait [`Print`], the destination for text, lines and styles, and the handle through which layout code calls it:
//! the trait [`Output`], and [`Printer`], which implements it over a [`Print`].
#![tactic(auto)]

pub mod ansi_sequences;
mod fmt_write;
mod halt;
mod layout_output_trait;
mod options;
mod print;
mod print_text;
mod printer;
mod style;

pub use fmt_write::{PrintFmtWrite, WriteText};
pub use halt::Halt;
pub use layout_output_trait::{FoldingOutput, Output};
pub use options::PrintOptions;
pub use print::Print;
pub use print_text::{PrintText, text_is_gained};
pub use printer::{LayoutOptions, Printer};
pub use style::Style;
