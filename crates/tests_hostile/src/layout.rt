//! The layouts of operators, and the kinds of errors with which printers and writers fail.

use std::io::ErrorKind;
use wasmprinter::Config;

/// The layout of operators.
#[derive(Clone, Copy, Debug)]
pub enum Layout {
    Flat,
    Folded,
}

pub const LAYOUTS: &[Layout] = &[Layout::Flat, Layout::Folded];

/// The kinds of errors with which printers and writers fail. A writer is not called again after an error of either
/// kind.
pub const KINDS: &[ErrorKind] = &[ErrorKind::BrokenPipe, ErrorKind::StorageFull];

impl Layout {
    /// Returns the default options with this layout.
    pub fn config(self) -> Config {
        let mut config = Config::new();
        config.fold_instructions(matches!(self, Layout::Folded));
        config
    }
}
