//! Folded operators (section 6.5 of the WebAssembly Core Specification, "Folded Instructions"): each in parentheses,
//! with its operands.
//!
//! - `arities`: how many operands an operator takes, and how many results it gives.
//! - `nodes`: the nodes that operators fold into, as one list.
//! - `node_text`: their texts in one buffer, and the function that writes them without recursion.
//! - [`Folder`] folds a list of operators and writes its nodes.
//! - `fold_refusals`: which modules can be folded, and the error for the others.
#![tactic(auto)]

mod arities;
mod fold_printer;
pub mod fold_refusals;
mod growing_tree;
mod node_text;
mod nodes;

pub use fold_printer::Folder;
