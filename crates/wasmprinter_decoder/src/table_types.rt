//! Table types (section 5.3, "Table Types").
ghost use Rattle.wasmprinter_spec.specs.Binary.Tables.{table_type as table_type_grammar};
ghost use Rattle.wasmprinter_bytes.specs.Reads.{Decodes};
ghost use Rattle.wasmprinter_decoder.specs.Externs.{table_type_view};

use crate::flag_bits::has_bit;
use crate::limits::{Limits, MAX_BIT, WIDE_BIT};
use wasmprinter_bytes::Malformed;
use wasmprinter_bytes::cursor::Cursor;
use wasmprinter_ops::{RefType, read_ref_type};

/// The flags of limits without a maximum, with 32-bit indices.
const MIN: u32 = 0x00;

/// The flags of limits with a maximum, with 32-bit indices.
const MIN_MAX: u32 = 0x01;

/// The flags of limits without a maximum, with 64-bit indices.
const MIN_WIDE: u32 = 0x04;

/// The flags of limits with a maximum, with 64-bit indices.
const MIN_MAX_WIDE: u32 = 0x05;

/// The type of a table (section 2.3, "Table Types").
#[derive(Clone, Copy, Debug, PartialEq, Eq)]
pub struct TableType {
    /// Whether indices have 64 bits, not 32.
    pub wide: bool,
    /// The size in elements.
    pub limits: Limits,
    /// The type of the elements.
    pub element: RefType,
}

impl TableType {
    /// Reads the type of the elements, the flags, and the limits. On `Ok`, the result and the new place are
    /// those that the grammar gives. After an error, the cursor may have advanced.
    ///
    /// # Errors
    ///
    /// `Malformed` if the bytes do not encode a table type, with a place as
    /// [`Error::Malformed`](wasmprinter_bytes::Error::Malformed) describes it.
    pub fn read(cursor: &mut Cursor) -> Result<TableType, Malformed>
        ensures { Decodes table_type_view table_type_grammar.parse cursor.old result cursor.new }
    {
        let element = read_ref_type(cursor)?;
        let place = cursor.place();
        let flags = u32::from(cursor.u8()?);
        match flags {
            MIN | MIN_MAX | MIN_WIDE | MIN_MAX_WIDE => {
                let limits = Limits::read(cursor, has_bit(flags, MAX_BIT))?;
                Ok(TableType {
                    wide: has_bit(flags, WIDE_BIT),
                    limits,
                    element,
                })
            }
            _ => Err(Malformed { place }),
        }
    }
}
