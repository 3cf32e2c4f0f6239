//! Tests of texts that are built by code, and of the calls in which a printer receives a text: deep nesting, large
//! modules, many types, single values, strings, colors, and refusals of folding in colors and as lines; of reserved
//! opcodes; of the number of defined functions; and of the helpers of the tests. Most other texts are rows of files,
//! which the crate `check_rows` checks. Only the tests of `parts` and `helpers` call functions that the crate
//! `wasmprinter` does not export. All expected texts and calls are typed by hand, except that `strings` builds texts
//! from pseudorandom bytes; `pieces/lists.rt` says from where its calls were typed.
#![tactic(auto)]

#[cfg(test)]
mod calls;
#[cfg(test)]
mod colors;
#[cfg(test)]
mod control;
#[cfg(test)]
mod cuts;
#[cfg(test)]
mod fold_refusals;
#[cfg(test)]
mod helpers;
#[cfg(test)]
mod imports;
#[cfg(test)]
mod large;
#[cfg(test)]
mod opcodes;
#[cfg(test)]
mod parts;
#[cfg(test)]
mod pieces;
#[cfg(test)]
mod runs;
#[cfg(test)]
mod strings;
#[cfg(test)]
mod types;
#[cfg(test)]
mod values;
