//! Tests of single parts of the printer, which the library does not export: the lines of custom sections, the labels of
//! open blocks, and the text of operators.

mod annotations;
mod labels;
mod operators;
mod printing;
