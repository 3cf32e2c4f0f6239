//! What the text of a module does not show: where its bytes have a shorter encoding, and names and hints that are not used.
#![tactic(auto)]

mod body_findings;
mod custom_data_findings;
mod custom_data_lengths;
mod custom_findings;
mod entry_lengths;
mod entry_places;
mod excess;
pub mod finding;
mod findings;
mod function_findings;
mod hidden_bytes;
mod hint_entries;
mod hint_findings;
mod list_lengths;
mod name_counts;
mod name_entries;
mod name_findings;
mod name_subsections;
mod named_items;
mod operator_lengths;
mod section_extents;
mod section_findings;
mod section_ids;
pub mod shortest;
#[cfg(test)]
mod tests;
mod type_lengths;

pub use hidden_bytes::{findings_are_unique, hidden, names_are_those_given};
