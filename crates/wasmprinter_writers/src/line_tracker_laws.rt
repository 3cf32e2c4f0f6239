//! The law that a tracker loses no line of a module. It is the contract of a function with an empty body.
ghost use Rattle.wasmprinter_writers.specs.NoLineLost.{NoLineLost};

/// States that a tracker without lines, with any text to begin with, loses no line if all calls on it succeed and are
/// those of a module, or a prefix of them. This holds for all options, modules and answers to claims of custom sections,
/// and however the text is split into calls.
pub fn no_line_is_lost()
    ensures { NoLineLost }
{}
