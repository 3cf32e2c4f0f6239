//! Prints WebAssembly modules: translates the binary format into the text format.
//!
//! - [`print_bytes`] returns the text of a module, and [`print_file`] that of the module in a file.
//! - [`Config`] has the options. [`Config::print`] prints to any [`Print`], and [`Config::print_to_ansi`] returns
//!   the text in color.
//! - [`Config::offsets_and_lines`] returns the lines of the text, and [`place_of`] finds the line of an operator
//!   among them.
//!
//! The contracts say what these calls promise. In particular, the text reads back as exactly the module that the
//! bytes encode, under the conditions that the contracts state. docs/LIBRARY.md has examples, which the tests run.
#![tactic(auto)]

mod ansi_memory_printer;
mod ansi_printing;
mod config;
mod file_printing;
mod find_operator_line;
mod offsets_and_lines;
pub mod printer_laws;
mod source_trait;
mod string_printer;
mod string_printing;

pub use config::Config;
pub use file_printing::print_file;
pub use find_operator_line::place_of;
pub use print::{Print, PrintFmtWrite, PrintIoWrite, PrintTermcolor, PrintText};
pub use source_trait::Source;
pub use string_printing::print_bytes;
pub use wasmprinter_bytes::Error;
pub use wasmprinter_writers::{LineStart, OffsetsAndLines};

/// Printers: the destinations of a module's text.
pub mod print {
    pub use wasmprinter_print::{Print, PrintFmtWrite, PrintText, WriteText};
    pub use wasmprinter_writers::{
        Ansi, Color, ColorSpec, NoColor, PrintIoWrite, PrintTermcolor, WriteBytes, WriteColor,
    };
}

/// Writing single values in the text format: floats and quoted strings.
pub mod text {
    pub use wasmprinter_text::standalone_values::{
        write_bytes, write_f32, write_f64, write_quoted,
    };
}

/// Decoding modules in the binary format, and reading the decoded modules.
pub mod wasm {
    pub use wasmprinter_custom::{Names, Space};
    pub use wasmprinter_decoder::{Body, Module, decode};
    pub use wasmprinter_ops::block_immediates::{BlockType, Catch, Catches, Targets};
    pub use wasmprinter_ops::expression::OperatorsReader;
    pub use wasmprinter_ops::mem_arg::MemArg;
    pub use wasmprinter_ops::opcode_shapes_arities_and_roles::Opcode;
    pub use wasmprinter_ops::operator::{Immediates, Operator};
    pub use wasmprinter_ops::{HeapType, RefType, ValType, ValTypes};
}
