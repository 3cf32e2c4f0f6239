//! Reads the bytes of a WebAssembly module: a cursor, numbers, names and lists (sections 5.1 and 5.2 of the WebAssembly
//! Core Specification), and the error type of the printer.
#![tactic(auto)]

pub mod cursor;
pub mod decode_traits;
pub mod lazy_items;
mod library_error;
mod malformed;

pub use library_error::Error;
pub use malformed::Malformed;
