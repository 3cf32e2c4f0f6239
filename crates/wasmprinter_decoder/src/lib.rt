//! Modules in the binary format (section 5.5 of the WebAssembly Core Specification): the contents of each section,
//! `decode`, and the decoded [`Module`] with its items.
#![tactic(auto)]

mod byte_checks;
mod code;
mod collect_names;
pub mod custom_section_positions;
pub mod custom_sections;
mod data_segments;
mod decode_module;
mod defined_function;
mod elements;
mod exports;
pub mod find_branch_hints;
mod flag_bits;
mod function_section;
mod global_types;
mod globals;
mod imports;
mod limits;
mod memories;
mod module;
mod sections;
mod start;
mod table_types;
mod tables;
mod tags;
mod type_section;

pub use code::{Body, BodyParts, LocalEntry, Locals};
pub use custom_section_positions::{CustomEntry, SectionKind};
pub use custom_sections::Custom;
pub use data_segments::{Data, DataMode};
pub use decode_module::{decode, is_component};
pub use defined_function::Function;
pub use elements::{Element, ElementItems, ElementMode};
pub use exports::{Export, ExternKind};
pub use global_types::GlobalType;
pub use globals::Global;
pub use imports::{ExternType, Import};
pub use limits::Limits;
pub use memories::{Memory, MemoryType};
pub use module::{Fields, Module};
pub use start::Start;
pub use table_types::TableType;
pub use tables::Table;
pub use tags::Tag;
pub use type_section::TypeGroup;
pub use wasmprinter_custom::{Name, NameEntries, Names, Space};
