//! Tests of `decode`: the contents of decoded modules, and the places of errors in refused ones.

mod contents;
mod customs;
mod faults;
mod modules;
mod places;
mod sections;
mod types;
