//! Writes operators as flat text (section 6.5 of the WebAssembly Core Specification), with their branch hints and the
//! labels of open blocks, to any output.
#![tactic(auto)]

mod block_immediates;
mod float_immediates;
mod immediate_context;
mod immediates;
mod index_immediates;
mod label_immediates;
mod memory_immediates;
pub mod open_labels;
pub mod operators;
mod val_and_ref_type_immediates;
mod vector_immediates;
