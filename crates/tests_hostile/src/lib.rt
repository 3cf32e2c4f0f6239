//! Tests of hostile use, through the public paths of the crate `wasmprinter` only: damaged modules, and printers and
//! writers that fail at each of their calls. `byte_printers` tests printers over writers of bytes and of text, with
//! colors and without. Expected values are typed by hand, except that a separate decoder counted the damaged modules
//! that are printed.
#![tactic(auto)]

#[cfg(test)]
mod answers;
#[cfg(test)]
mod byte_printers;
#[cfg(test)]
mod claims;
#[cfg(test)]
mod damage;
#[cfg(test)]
mod damaged;
#[cfg(test)]
mod examples;
#[cfg(test)]
mod failing;
#[cfg(test)]
mod layout;
#[cfg(test)]
mod outcome;
