//! Modules that tests print, with their expected texts and calls, and a printer that records its calls. Everything is
//! typed by hand: bytes by the binary format, texts by the text format and the layout.
#![tactic(auto)]

pub mod expected_calls;
pub mod modules;
pub mod modules_and_texts_from_parts;
mod recorder;
pub mod sections;
mod text_comparison;

pub use modules::MODULES;
pub use modules::customs::{
    CUSTOMS_AROUND_A_MEMORY, DYLINK_CUT, DYLINK_MEMORY, DYLINK_UNKNOWN, HINTED_IF, RAW_PRODUCERS,
};
pub use modules::sections::GLOBAL_BLOCK;
pub use modules::with_calls::{
    CONTROL, CONTROL_CALLS, EMPTY_CALLS, EMPTY_TEXT, EVERY_SPACE, EVERYTHING, EVERYTHING_CALLS,
    EVERYTHING_TEXT, FIELDS, FIELDS_CALLS, FIELDS_TEXT, IDENTITY, IDENTITY_CALLS, IDENTITY_TEXT,
    KINDS, KINDS_CALLS, MINUS_ONE, NAMED, NAMED_CALLS, PREAMBLE, SYNTHESIZED_CALLS,
};
pub use recorder::{REFUSED, Recorder};
pub use text_comparison::{Different, expect_same, expect_text};
