//! Types (section 5.3 of the WebAssembly Core Specification) and operators (section 5.4): opcodes with their
//! immediates, and iterators over the bytes that encode them.
#![tactic(auto)]

pub mod block_immediates;
pub mod cast_flags;
pub mod composite_types;
pub mod expression;
mod fixed_bytes;
pub mod mem_arg;
pub mod opcode_shapes_arities_and_roles;
mod opcode_tables;
mod open_blocks;
pub mod operator;
mod val_types;

pub use val_types::{
    HeapType, RefType, ValType, ValTypes, begins_type, read_heap_type, read_ref_type, read_type,
    read_type_index, read_types,
};
