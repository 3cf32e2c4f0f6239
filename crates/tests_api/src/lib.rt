//! Tests of the library's public items: each is used by its path in the crate `wasmprinter`. Shared modules and texts
//! are those of `wasmprinter_samples`. `faults` prints to a printer that counts its failed calls, and proves the
//! count. All tests of files are here, since each crate with one proves what drops a file of the system. Expected values
//! are typed by hand.
#![tactic(auto)]

#[cfg(test)]
mod bodies;
#[cfg(test)]
mod coloring;
#[cfg(test)]
mod custom;
#[cfg(test)]
mod errors;
pub mod faults;
#[cfg(test)]
mod files;
#[cfg(test)]
mod lines;
#[cfg(test)]
mod listed;
#[cfg(test)]
mod named;
#[cfg(test)]
mod options;
#[cfg(test)]
mod printers;
#[cfg(test)]
mod printing;
#[cfg(test)]
mod unreadable;
#[cfg(test)]
mod values;
