//! The modules that are printed, and the ways of printing them.

use crate::modules::{
    BLOCKS, BLOCKS_COLORED, BLOCKS_TEXT, BODIES, BODIES_TEXT, CUSTOMS, CUSTOMS_TEXT, EMPTY,
    EVERYTHING, EVERYTHING_COLORED, EVERYTHING_TEXT, EXPORTS, EXPORTS_TEXT, FIELDS, FIELDS_TEXT,
    FOLDED_CUSTOMS_TEXT, FOLDED_FIELDS_TEXT, FOLDED_NAMES_TEXT, FOLDED_OPERANDS_CALLS,
    FOLDED_OPERANDS_COLORED, FOLDED_OPERANDS_TEXT, LINKED, LINKED_TEXT, LISTS, LISTS_TEXT, LOCALS,
    LOCALS_TEXT, LONG_NAME, LONG_NAME_TEXT, NAMES, NAMES_AGAIN, NAMES_AGAIN_TEXT, NAMES_ONCE,
    NAMES_ONCE_TEXT, NAMES_REPLACED, NAMES_REPLACED_TEXT, NAMES_TEXT, OPERANDS, TYPES, TYPES_TEXT,
    UNORDERED_NAMES, UNORDERED_NAMES_TEXT,
};
use wasmprinter_samples::expected_calls::{
    CUSTOMS_CALLS, CUT_CALLS, GLOBAL_FOLDED, HINTED_FOLDED, IDENTITY_FOLDED, MEMORY_CALLS,
    PRODUCERS_CALLS, UNKNOWN_CALLS,
};
use wasmprinter_samples::{
    CUSTOMS_AROUND_A_MEMORY, DYLINK_CUT, DYLINK_MEMORY, DYLINK_UNKNOWN, GLOBAL_BLOCK, HINTED_IF,
    IDENTITY, RAW_PRODUCERS,
};

/// The way in which a module is printed.
#[derive(Clone, Copy)]
pub enum Way {
    /// With each of the calls that print the bytes of a module.
    Plain,
    /// Not printed: its names are read, and compared with the lines of the text.
    Names,
    /// With `print_file`, from a file of the system.
    File,
    /// With `print_file`, from a `Source` that copies the bytes.
    Source,
    /// Appended to a text, with its lines.
    Lines,
    /// The same, with its operators folded.
    FoldedLines,
    /// To a `PrintFmtWrite` over a `String`.
    FmtWrite,
    /// To a user-defined printer that keeps the text.
    Keeping,
    /// In color, as bytes.
    Colors,
    /// To a `PrintTermcolor` with `Ansi` over a `Vec`.
    Termcolor,
    /// As a string, with its operators folded.
    FoldedString,
    /// In color, as bytes, with its operators folded.
    FoldedColors,
    /// With its operators folded, to a printer that allocates nothing.
    Folded,
    /// The same, with each call compared. A refused section ends the calls.
    FoldedCalls,
    /// Not printed: trackers receive lines, and are used further after a failed allocation.
    Trackers,
    /// In lines. No call follows.
    Setup,
    /// In lines. Each call that needs no memory follows.
    WithoutMemory,
}

/// A module, with the expected text.
#[derive(Drop)]
pub struct Shape {
    pub name: &'static str,
    pub way: Way,
    pub wasm: &'static [u8],
    pub text: &'static str,
    /// The number of functions that it defines.
    pub functions: u32,
}

/// The shapes to print. The last one is the empty module.
pub const SHAPES: &[Shape] = &[
    Shape {
        name: "types",
        way: Way::Plain,
        wasm: TYPES,
        text: TYPES_TEXT,
        functions: 0,
    },
    Shape {
        name: "exports",
        way: Way::Plain,
        wasm: EXPORTS,
        text: EXPORTS_TEXT,
        functions: 0,
    },
    Shape {
        name: "locals",
        way: Way::Plain,
        wasm: LOCALS,
        text: LOCALS_TEXT,
        functions: 1,
    },
    Shape {
        name: "bodies",
        way: Way::Plain,
        wasm: BODIES,
        text: BODIES_TEXT,
        functions: 2,
    },
    Shape {
        name: "blocks",
        way: Way::Plain,
        wasm: BLOCKS,
        text: BLOCKS_TEXT,
        functions: 1,
    },
    Shape {
        name: "fields",
        way: Way::Plain,
        wasm: FIELDS,
        text: FIELDS_TEXT,
        functions: 0,
    },
    Shape {
        name: "names",
        way: Way::Plain,
        wasm: NAMES,
        text: NAMES_TEXT,
        functions: 1,
    },
    Shape {
        name: "unordered names",
        way: Way::Plain,
        wasm: UNORDERED_NAMES,
        text: UNORDERED_NAMES_TEXT,
        functions: 0,
    },
    Shape {
        name: "names again",
        way: Way::Plain,
        wasm: NAMES_AGAIN,
        text: NAMES_AGAIN_TEXT,
        functions: 3,
    },
    Shape {
        name: "names once",
        way: Way::Plain,
        wasm: NAMES_ONCE,
        text: NAMES_ONCE_TEXT,
        functions: 3,
    },
    Shape {
        name: "names replaced",
        way: Way::Plain,
        wasm: NAMES_REPLACED,
        text: NAMES_REPLACED_TEXT,
        functions: 3,
    },
    Shape {
        name: "customs",
        way: Way::Plain,
        wasm: CUSTOMS,
        text: CUSTOMS_TEXT,
        functions: 1,
    },
    Shape {
        name: "everything",
        way: Way::Plain,
        wasm: EVERYTHING,
        text: EVERYTHING_TEXT,
        functions: 1,
    },
    Shape {
        name: "lines",
        way: Way::Lines,
        wasm: BLOCKS,
        text: BLOCKS_TEXT,
        functions: 1,
    },
    Shape {
        name: "lines in quotes",
        way: Way::Lines,
        wasm: LONG_NAME,
        text: LONG_NAME_TEXT,
        functions: 0,
    },
    Shape {
        name: "pieces in a string",
        way: Way::FmtWrite,
        wasm: BLOCKS,
        text: BLOCKS_TEXT,
        functions: 1,
    },
    Shape {
        name: "colors of blocks",
        way: Way::Colors,
        wasm: BLOCKS,
        text: BLOCKS_COLORED,
        functions: 1,
    },
    Shape {
        name: "colors",
        way: Way::Colors,
        wasm: EVERYTHING,
        text: EVERYTHING_COLORED,
        functions: 1,
    },
    Shape {
        name: "colors in a vector",
        way: Way::Termcolor,
        wasm: EVERYTHING,
        text: EVERYTHING_COLORED,
        functions: 1,
    },
    Shape {
        name: "folded string",
        way: Way::FoldedString,
        wasm: OPERANDS,
        text: FOLDED_OPERANDS_TEXT,
        functions: 1,
    },
    Shape {
        name: "folded",
        way: Way::Folded,
        wasm: OPERANDS,
        text: FOLDED_OPERANDS_TEXT,
        functions: 1,
    },
    Shape {
        name: "names alone",
        way: Way::Names,
        wasm: NAMES_AGAIN,
        text: "n\nd\n#func1 a\n#func2 b\ny",
        functions: 3,
    },
    Shape {
        name: "file",
        way: Way::File,
        wasm: EVERYTHING,
        text: EVERYTHING_TEXT,
        functions: 1,
    },
    Shape {
        name: "source",
        way: Way::Source,
        wasm: EVERYTHING,
        text: EVERYTHING_TEXT,
        functions: 1,
    },
    Shape {
        name: "user-defined printer",
        way: Way::Keeping,
        wasm: BLOCKS,
        text: BLOCKS_TEXT,
        functions: 1,
    },
    Shape {
        name: "folded fields",
        way: Way::Folded,
        wasm: FIELDS,
        text: FOLDED_FIELDS_TEXT,
        functions: 0,
    },
    Shape {
        name: "folded names",
        way: Way::Folded,
        wasm: NAMES,
        text: FOLDED_NAMES_TEXT,
        functions: 1,
    },
    Shape {
        name: "folded customs",
        way: Way::Folded,
        wasm: CUSTOMS,
        text: FOLDED_CUSTOMS_TEXT,
        functions: 1,
    },
    Shape {
        name: "folded lines",
        way: Way::FoldedLines,
        wasm: OPERANDS,
        text: FOLDED_OPERANDS_TEXT,
        functions: 1,
    },
    Shape {
        name: "folded colors",
        way: Way::FoldedColors,
        wasm: OPERANDS,
        text: FOLDED_OPERANDS_COLORED,
        functions: 1,
    },
    Shape {
        name: "folded calls",
        way: Way::FoldedCalls,
        wasm: OPERANDS,
        text: FOLDED_OPERANDS_CALLS,
        functions: 1,
    },
    Shape {
        name: "folded calls of identity",
        way: Way::FoldedCalls,
        wasm: IDENTITY,
        text: IDENTITY_FOLDED,
        functions: 1,
    },
    Shape {
        name: "folded calls of a global",
        way: Way::FoldedCalls,
        wasm: GLOBAL_BLOCK,
        text: GLOBAL_FOLDED,
        functions: 0,
    },
    Shape {
        name: "folded calls of a hint",
        way: Way::FoldedCalls,
        wasm: HINTED_IF,
        text: HINTED_FOLDED,
        functions: 1,
    },
    Shape {
        name: "folded calls of custom sections",
        way: Way::FoldedCalls,
        wasm: CUSTOMS_AROUND_A_MEMORY,
        text: CUSTOMS_CALLS,
        functions: 0,
    },
    Shape {
        name: "folded calls of producers",
        way: Way::FoldedCalls,
        wasm: RAW_PRODUCERS,
        text: PRODUCERS_CALLS,
        functions: 0,
    },
    Shape {
        name: "folded calls of a linked memory",
        way: Way::FoldedCalls,
        wasm: DYLINK_MEMORY,
        text: MEMORY_CALLS,
        functions: 0,
    },
    Shape {
        name: "folded calls of a cut section",
        way: Way::FoldedCalls,
        wasm: DYLINK_CUT,
        text: CUT_CALLS,
        functions: 0,
    },
    Shape {
        name: "folded calls of an unknown subsection",
        way: Way::FoldedCalls,
        wasm: DYLINK_UNKNOWN,
        text: UNKNOWN_CALLS,
        functions: 0,
    },
    Shape {
        name: "dynamic linking",
        way: Way::Plain,
        wasm: LINKED,
        text: LINKED_TEXT,
        functions: 0,
    },
    Shape {
        name: "lists",
        way: Way::Plain,
        wasm: LISTS,
        text: LISTS_TEXT,
        functions: 1,
    },
    Shape {
        name: "trackers that go on",
        way: Way::Trackers,
        wasm: EMPTY,
        text: "",
        functions: 0,
    },
    Shape {
        name: "setup",
        way: Way::Setup,
        wasm: LISTS,
        text: LISTS_TEXT,
        functions: 1,
    },
    Shape {
        name: "calls without memory",
        way: Way::WithoutMemory,
        wasm: LISTS,
        text: LISTS_TEXT,
        functions: 1,
    },
    Shape {
        name: "empty",
        way: Way::Plain,
        wasm: EMPTY,
        text: "(module)\n",
        functions: 0,
    },
];
