//! Global types (section 5.3, "Global Types").
ghost use Rattle.wasmprinter_spec.specs.Binary.Globals.{global_type as global_type_grammar};
ghost use Rattle.wasmprinter_bytes.specs.Reads.{Decodes};
ghost use Rattle.wasmprinter_decoder.specs.Externs.{global_type_view};

use wasmprinter_bytes::Malformed;
use wasmprinter_bytes::cursor::Cursor;
use wasmprinter_ops::composite_types::read_mutability;
use wasmprinter_ops::{ValType, read_type};

/// The type of a global (section 2.3, "Global Types").
#[derive(Clone, Copy, Debug, PartialEq, Eq)]
pub struct GlobalType {
    /// Whether the global can be changed.
    pub mutable: bool,
    /// The type of its value.
    pub ty: ValType,
}

impl GlobalType {
    /// Reads the type of the value, and whether the global can be changed. On `Ok`, the result and the new
    /// place are those that the grammar gives. After an error, the cursor may have advanced.
    ///
    /// # Errors
    ///
    /// `Malformed` if the bytes do not encode a global type, with a place as
    /// [`Error::Malformed`](wasmprinter_bytes::Error::Malformed) describes it.
    pub fn read(cursor: &mut Cursor) -> Result<GlobalType, Malformed>
        ensures { Decodes global_type_view global_type_grammar.parse cursor.old result cursor.new }
    {
        let ty = read_type(cursor)?;
        let mutable = read_mutability(cursor)?;
        Ok(GlobalType { mutable, ty })
    }
}
