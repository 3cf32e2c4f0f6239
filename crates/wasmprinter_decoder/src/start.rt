//! The start section (section 5.5, "Start Section").
ghost use Rattle.std.specs.Prelude.{◌≡◌, Some};
ghost use Rattle.wasmprinter_spec.specs.Binary.Start.{start_section};
ghost use Rattle.wasmprinter_decoder.specs.Contents.{ReadsAll};

use crate::byte_checks::expect_end;
use std::marker::Model;
use wasmprinter_bytes::Malformed;
use wasmprinter_bytes::cursor::Cursor;

/// The start function, which is called when the module is instantiated (section 2.5, "Start Function"),
/// with the place of its index.
#[derive(Clone, Copy)]
pub struct Start {
    place: u64,
    function: u32,
}

impl Model for Start {
    ghost use Rattle.std.specs.Prelude.{ℕ};
    ghost use Rattle.wasmprinter_spec.specs.Grammar.{Placed};

    ghost Value = { Placed ℕ };

    ghost view = { λ s. record { place = s.place; value = s.function } };

    ghost inverse = { λ s. record { place = s.place; function = s.value } };
}

impl Start {
    /// Returns the place of the first byte of the function's index: a byte offset from the start of the module.
    pub fn place(&self) -> u64
        ensures { result ≡ self.now.place }
    {
        self.place
    }

    /// Returns the index of the function. It may refer to no function.
    pub fn function(&self) -> u32
        ensures { result ≡ self.now.value }
    {
        self.function
    }
}

/// Reads the content of a start section. On `Ok`, `Some` of the result is the value that the grammar gives for all
/// remaining bytes (`None` is the content of a missing section).
///
/// # Errors
///
/// `Malformed` if the bytes do not encode a function index and nothing after it, with a place as
/// [`Error::Malformed`](wasmprinter_bytes::Error::Malformed) describes it.
pub fn read_start(cursor: &mut Cursor) -> Result<Start, Malformed>
    ensures { ReadsAll (λ s. Some s) start_section.parse cursor.old result }
{
    let place = cursor.place();
    let function = cursor.u32()?;
    expect_end(cursor)?;
    Ok(Start { place, function })
}
