//! Printers: over byte writers, with colors and without, and a printer that keeps its text and the starts of its lines,
//! with the law that no line of a module is lost.
#![tactic(auto)]

mod ansi_writer;
mod color_enum;
mod color_spec;
mod contents_laws;
mod io_write;
mod line_iterator;
mod line_tracker;
mod line_tracker_laws;
mod no_color_writer;
mod termcolor;
mod write_bytes_trait;
mod write_color;

pub use ansi_writer::Ansi;
pub use color_enum::Color;
pub use color_spec::ColorSpec;
pub use contents_laws::{ansi_gains_colored_text, io_write_gains_text, no_color_gains_text};
pub use io_write::PrintIoWrite;
pub use line_iterator::{LineStart, OffsetsAndLines};
pub use line_tracker::LineTracker;
pub use line_tracker_laws::no_line_is_lost;
pub use no_color_writer::NoColor;
pub use termcolor::PrintTermcolor;
pub use write_bytes_trait::WriteBytes;
pub use write_color::WriteColor;
