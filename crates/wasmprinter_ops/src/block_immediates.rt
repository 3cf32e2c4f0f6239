//! Block types, catch clauses and the labels of `br_table` (sections 2.4 and 5.4).
ghost use Rattle.wasmprinter_spec.specs.Name.{vec};
ghost use Rattle.wasmprinter_spec.specs.Instructions.{block_type, catch};
ghost use Rattle.wasmprinter_bytes.specs.Reads.{Decodes};
ghost use Rattle.wasmprinter_ops.specs.Blocks.{block_type_view, catch_at, catches_view};

use crate::{ValType, begins_type, read_type, read_type_index};
use wasmprinter_bytes::Malformed;
use wasmprinter_bytes::cursor::Cursor;
use wasmprinter_bytes::decode_traits::Decode;
use wasmprinter_bytes::lazy_items::{Items, read_items};

/// The byte that encodes the type of a block without parameters and results.
const EMPTY: u8 = 0x40;

/// A block type (section 5.4, "Control Instructions").
#[derive(Clone, Copy, Debug, PartialEq, Eq)]
pub enum BlockType {
    /// No parameters and no results.
    Empty,
    /// One result.
    Value(ValType),
    /// The function type with the index.
    Func(u32),
}

/// A catch clause of `try_table` (section 5.4, "Control Instructions"): a tag, unless it catches all exceptions, and
/// the label of the branch.
#[derive(Clone, Copy, Debug, PartialEq, Eq)]
pub enum Catch {
    /// `catch`, with the tag and the label.
    One(u32, u32),
    /// `catch_ref`, with the tag and the label.
    OneRef(u32, u32),
    /// `catch_all`, with the label.
    All(u32),
    /// `catch_all_ref`, with the label.
    AllRef(u32),
}

/// The labels of a `br_table` (section 5.4, "Control Instructions"), without the default label. Each label is read
/// again from the bytes when it is requested.
pub type Targets<'a> = Items<'a, u32>;

/// The catch clauses of a `try_table` (section 5.4, "Control Instructions"). Each clause is read again from
/// the bytes when it is requested.
pub type Catches<'a> = Items<'a, Catch>;

impl Decode for Catch {
    ghost parse = { catch_at };

    fn read(cursor: &mut Cursor) -> Result<Catch, Malformed> {
        let place = cursor.place();
        match cursor.u8()? {
            0x00 => {
                let tag = cursor.u32()?;
                Ok(Catch::One(tag, cursor.u32()?))
            }
            0x01 => {
                let tag = cursor.u32()?;
                Ok(Catch::OneRef(tag, cursor.u32()?))
            }
            0x02 => Ok(Catch::All(cursor.u32()?)),
            0x03 => Ok(Catch::AllRef(cursor.u32()?)),
            _ => Err(Malformed { place }),
        }
    }
}

/// Reads a count and that many catch clauses.
pub(crate) fn read_catches<'a>(cursor: &mut Cursor<'a>) -> Result<Catches<'a>, Malformed>
    ensures { Decodes catches_view (vec catch).parse cursor.old result cursor.new }
{
    read_items(cursor)
}

/// Reads a block type: the byte 40, a value type, or a type index.
pub(crate) fn read_block_type(cursor: &mut Cursor) -> Result<BlockType, Malformed>
    ensures { Decodes block_type_view block_type.parse cursor.old result cursor.new }
{
    let place = cursor.place();
    let Some(first) = cursor.peek() else {
        return Err(Malformed { place });
    };
    if first == EMPTY {
        cursor.u8()?;
        Ok(BlockType::Empty)
    } else if begins_type(first) {
        Ok(BlockType::Value(read_type(cursor)?))
    } else {
        Ok(BlockType::Func(read_type_index(cursor)?))
    }
}
