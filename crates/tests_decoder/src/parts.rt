//! Tests of the contents of custom sections, and of names.

mod customs;
mod names;
