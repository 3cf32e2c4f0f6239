//! The limits of tables and memories (section 5.3, "Limits").
ghost use Rattle.wasmprinter_spec.specs.Binary.Limits.{limits as limits_grammar};
ghost use Rattle.wasmprinter_bytes.specs.Reads.{Decodes};
ghost use Rattle.wasmprinter_decoder.specs.Externs.{limits_view};

use wasmprinter_bytes::Malformed;
use wasmprinter_bytes::cursor::Cursor;

/// The bit of the flags that says that a maximum is given.
pub(crate) const MAX_BIT: u32 = 0;

/// The bit of the flags that says that addresses or indices have 64 bits.
pub(crate) const WIDE_BIT: u32 = 2;

/// The size of a memory in pages, or of a table in elements (section 2.3, "Limits").
#[derive(Clone, Copy, Debug, PartialEq, Eq)]
pub struct Limits {
    /// The minimum.
    pub min: u64,
    /// The maximum, or `None` if it is not given.
    pub max: Option<u64>,
}

impl Limits {
    /// Reads the minimum, and the maximum if `has_max` is true.
    pub(crate) fn read(cursor: &mut Cursor, has_max: bool) -> Result<Limits, Malformed>
        ensures { Decodes limits_view (limits_grammar has_max).parse cursor.old result cursor.new }
    {
        let min = cursor.u64()?;
        let max = if has_max { Some(cursor.u64()?) } else { None };
        Ok(Limits { min, max })
    }
}
