//! Writes the sections of a module as text (section 6.6 of the WebAssembly Core Specification), with the custom
//! sections among them (appendix "Custom Annotations"), and the whole module, to any printer.
#![tactic(auto)]

mod custom_sections;
mod data_segments;
mod dylink;
mod elements;
mod exports;
mod expressions;
mod field_trait;
mod func_and_tag_headers;
mod functions;
mod globals;
mod imports;
mod limits;
mod locals;
mod memories;
mod module_printing;
mod nesting_constants;
mod operators;
mod printing_scope;
mod producers;
mod raw;
mod section_fields;
mod start;
mod symbol_flag_printing;
mod tables;
mod tags;
mod types;
mod whole_module;

pub use custom_sections::{write_custom, write_customs};
pub use module_printing::print_module;
