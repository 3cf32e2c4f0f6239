//! The known custom sections.
//!
//! - Name sections, with the names and identifiers of a module's items (appendix "Name Section" of the WebAssembly Core
//!   Specification, and the extended name section proposal).
//! - `producers` and `dylink.0` (tool conventions) and branch hints (Code Metadata), read from their bytes without
//!   allocating.
#![tactic(auto)]

mod branch_hints;
mod dylink;
mod dylink_name_list;
mod identifier_chars;
mod index_space;
mod item_identifiers;
mod lazy_borrowing_items;
mod name_position_guesses;
mod name_section;
mod name_subsection_ids;
mod names;
mod producers;
mod section_treatment;
mod sorted_names_builder;
mod sorted_names_search;
mod subsections_with_names;
mod symbol_flags;

pub use branch_hints::{FunctionHints, Hint, Hints, is_hint_section};
pub use dylink::{Content, Dylink, ExportInfo, ImportInfo, MemInfo, Subsection};
pub use dylink_name_list::DylinkNames;
pub use identifier_chars::is_id;
pub use index_space::Space;
pub use item_identifiers::{Identifier, Identifiers};
pub use lazy_borrowing_items::{ItemsIn, ReadFrom, ValueSource};
pub use name_section::read_names;
pub use names::{LabelName, Name, NameEntries, Names, NamesBuilder};
pub use producers::{Producers, ProducersField, Value, Values};
pub use section_treatment::{CustomTreatment, custom_treatment};
pub use symbol_flags::{FlagWords, SymbolFlags};
