//! Laws over the definitions. A law is a theorem: the contract of a function with an empty body, which the toolchain
//! proves. The laws contain no code of the printer: they relate the grammar, the layout and the reader of text.
//!
//! - `module_text_reads_back`: printed text reads back as the module that the bytes encode.
//! - `literals_read_back`: quoted strings and floats.
//! - `printable_text`: which characters printed text has, and which lists of calls have one text.
//! - `names_and_identifiers`: name sections, identifiers and labels.
//! - `line_places`: the lines of a text and their places in the module.
//! - `folded_trees`: folding and unfolding lists of operators; the groups of folded text are the nodes of its trees.
//! - `colors`: colors add only ANSI escape sequences.
#![tactic(auto)]

mod colors;
mod folded_trees;
mod line_places;
mod literals_read_back;
mod module_text_reads_back;
mod names_and_identifiers;
mod printable_text;

pub use colors::{
    color_adds_sequences, colored_groups_are_nodes, colored_modules_have_trees, colored_text_keeps,
    colors_keep_text, sequences_stay_within_calls,
};
pub use folded_trees::{
    folded_groups_are_nodes, folded_modules_have_trees, folded_text_is_by_own_arities,
    folding_loses_nothing, nested_operators_are_folded, nested_operators_have_trees,
    operands_are_the_shortest_run, trees_say_their_lists,
};
pub use line_places::{
    alike_calls_have_the_same_lines, bodies_lie_apart, finds_lines, finds_places,
    functions_have_lines, lines_begin_after_feeds, lines_join_to_the_text,
};
pub use literals_read_back::{
    float_text_reads, floats_are_exact, quoted_bytes_read, quoted_text_reads,
};
pub use module_text_reads_back::{
    bytes_spell_at_most_one_module, folded_operators_read_back, folded_text_reads_as_flat,
    folded_text_reads_as_flat_by_any_arities, hints_stay, named_operators_read_back,
    places_and_indent_keep_tokens, printed_operators_read_back, printed_text_reads_back,
    reader_takes_nested_operators,
};
pub use names_and_identifiers::{
    entries_are_given, identifiers_are_apart, identifiers_are_named, identifiers_resolve,
    labels_mean_their_blocks, modules_have_identifiers, name_maps_end_at_the_first_error,
    name_sections_give_entries, name_sections_give_one_list,
};
pub use printable_text::{
    alike_calls_have_one_text, plain_text_has_no_color, plain_text_is_utf8, plain_texts_join,
    printed_text_is_plain,
};
