//! The lengths of shortest encodings: a law over their definitions.
ghost use Rattle.wasmprinter_hidden.specs.Shortest.{AreShortest};

/// States that the lengths that this crate compares with are those of the shortest encodings. Has no code: this is a law
/// over the definitions of the lengths and of the binary format.
pub fn lengths_are_shortest()
    ensures { AreShortest }
{}
