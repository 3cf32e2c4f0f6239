//! Terms of the text format for any output: words, numbers, strings, comments and floats in their styles (sections 6.2
//! and 6.3 of the WebAssembly Core Specification), lines and groups, types (section 6.4) and indices with their
//! identifiers.
#![tactic(auto)]

pub mod annotations;
pub mod bytes_or_ellipsis;
pub mod comments;
pub mod declarations_and_indices;
mod float_bit_format;
pub mod floats;
pub mod hints;
mod identifiers;
pub mod integers;
pub mod limits;
pub mod lines;
pub mod parens_and_words;
pub mod standalone_values;
pub mod strings;
pub mod type_use;
pub mod types;
