//! Tests of whole modules: refusals, limits, names, custom sections, branch hints, decoded modules, options, lines and
//! places, and the examples of the documents. Parts of a decoded module that the library does not export are read
//! through the traits of `wasmprinter_decoder` and `wasmprinter_ops`. Expected values are typed by hand.
#![tactic(auto)]

#[cfg(test)]
mod customs;
#[cfg(test)]
mod decoding;
#[cfg(test)]
mod doc_examples;
#[cfg(test)]
mod example;
#[cfg(test)]
mod hints;
#[cfg(test)]
mod large;
#[cfg(test)]
mod limits;
#[cfg(test)]
mod lines;
#[cfg(test)]
mod names;
#[cfg(test)]
mod options;
#[cfg(test)]
mod places;
#[cfg(test)]
mod refusals;
#[cfg(test)]
mod rows;
#[cfg(test)]
mod setters;
#[cfg(test)]
mod storage;
