//! Tests of the decoder. All expected values are typed by hand, except that `faults` compares two ways of reading
//! damaged operators.
//!
//! - At the root: conversions to errors, the places that errors report, the cursor, numbers in LEB128, and the decoders
//!   of types, opcodes and operators.
//! - `module`: the contents of decoded modules, and the places of errors in refused ones.
//! - `parts`: names and the contents of known custom sections.
#![tactic(auto)]

#[cfg(test)]
mod cursor;
#[cfg(test)]
mod errors;
#[cfg(test)]
mod faults;
#[cfg(test)]
mod module;
#[cfg(test)]
mod numbers;
#[cfg(test)]
mod operators;
#[cfg(test)]
mod parts;
