//! The data section and the data count section (section 5.5, "Data Section" and "Data Count Section").
ghost use Rattle.std.specs.Prelude.{◌≡◌, ◌<◌, Some};
ghost use Rattle.wasmprinter_spec.specs.Grammar.{value_with_place};
ghost use Rattle.wasmprinter_spec.specs.Binary.DataSegments.{data_mode, byte_vec, segment, data_count_section};
ghost use Rattle.wasmprinter_spec.specs.Sections.{DataSection};
ghost use Rattle.wasmprinter_bytes.specs.Reads.{Decodes};
ghost use Rattle.wasmprinter_bytes.specs.Lists.{DecodesWithAllocation, reader};
ghost use Rattle.wasmprinter_decoder.specs.Growing.{DataModeGrows, DataGrows};
ghost use Rattle.wasmprinter_decoder.specs.Contents.{DecodesContent, ReadsAll};
ghost use Rattle.wasmprinter_decoder.specs.Segments.{data_mode_view};

use crate::byte_checks::expect_end;
use std::alloc::Global;
use std::marker::Model;
use wasmprinter_bytes::cursor::Cursor;
use wasmprinter_bytes::decode_traits::{GrownIn, read_grown_list};
use wasmprinter_bytes::{Error, Malformed};
use wasmprinter_ops::expression::Expression;

/// The flags of a segment that is active in memory 0.
const ACTIVE: u32 = 0;

/// The flags of a passive segment.
const PASSIVE: u32 = 1;

/// The flags are below this. The greatest are those of an active segment with an explicit memory index.
const FLAGS_END: u32 = 3;

/// The mode of a data segment (section 2.5, "Data Segments").
#[derive(Drop)]
pub enum DataMode<'a> {
    /// The segment is used only by operators that refer to it.
    Passive,
    /// The segment is copied to a memory when the module is instantiated.
    Active {
        /// The index of the memory.
        memory: u32,
        /// The offset in the memory.
        offset: Expression<'a>,
    },
}

/// A data segment, with the place of its entry.
#[derive(Drop)]
pub struct Data<'a> {
    place: u64,
    mode: DataMode<'a>,
    bytes: &'a [u8],
}

impl<'a> Model for Data<'a> {
    ghost use Rattle.wasmprinter_spec.specs.Grammar.{Placed};
    ghost use Rattle.wasmprinter_spec.specs.Operator.{Operator};
    ghost use Rattle.wasmprinter_spec.specs.Placed.{Data as DataValue, data_of};
    ghost use Rattle.wasmprinter_decoder.specs.Segments.{data_mode_view};

    ghost Value = { Placed (DataValue (Placed Operator)) };

    ghost view = { λ d. record { place = d.place; value = data_of (data_mode_view d.mode) d.bytes.now } };
}

impl<'a> DataMode<'a> {
    /// Reads the memory and the offset, as the flags require.
    fn read(alloc: Global, flags: u32, cursor: &mut Cursor<'a>) -> Result<Self, Error>
        requires { flags < 3 }
        ensures { DecodesWithAllocation data_mode_view (reader (data_mode flags).parse (DataModeGrows flags)) cursor.old result cursor.new }
    {
        match flags {
            ACTIVE => {
                let offset = Expression::read(alloc, cursor)?;
                Ok(DataMode::Active { memory: 0, offset })
            }
            PASSIVE => Ok(DataMode::Passive),
            _ => {
                let memory = cursor.u32()?;
                let offset = Expression::read(alloc, cursor)?;
                Ok(DataMode::Active { memory, offset })
            }
        }
    }
}

/// Reads a count and that many bytes.
fn read_bytes<'a>(cursor: &mut Cursor<'a>) -> Result<&'a [u8], Malformed>
    ensures { Decodes (λ b. b.now) byte_vec.parse cursor.old result cursor.new }
{
    let len = cursor.u32()?;
    cursor.take(len as usize)
}

impl<'a> GrownIn<'a> for Data<'a> {
    ghost parse = { (value_with_place segment).parse };

    ghost grows = { DataGrows };

    fn read(alloc: Global, cursor: &mut Cursor<'a>) -> Result<Data<'a>, Error> {
        let place = cursor.place();
        let flags = cursor.u32()?;
        if flags >= FLAGS_END {
            return Err(Error::Malformed { place });
        }
        let mode = DataMode::read(alloc, flags, cursor)?;
        let bytes = read_bytes(cursor)?;
        Ok(Data { place, mode, bytes })
    }
}

impl<'a> Data<'a> {
    /// Returns the place of the entry's first byte: a byte offset from the start of the module.
    pub fn place(&self) -> u64
        ensures { result ≡ self.now.place }
    {
        self.place
    }

    /// Returns the mode. The memory of an active segment may not exist.
    pub fn mode(&self) -> &DataMode<'a>
        ensures { data_mode_view result.now ≡ self.now.value.mode }
    {
        &self.mode
    }

    /// Returns the bytes.
    pub fn bytes(&self) -> &'a [u8]
        ensures { result.now ≡ self.now.value.bytes }
    {
        self.bytes
    }
}

/// Reads the content of a data section. On `Ok`, the result is the value that the grammar gives for all
/// remaining bytes.
///
/// # Errors
///
/// - `Malformed` if the bytes do not encode a list of data segments and nothing after it, with a place as
///   [`Error::Malformed`](wasmprinter_bytes::Error::Malformed) describes it.
/// - `Memory` if an allocation fails, which happens only if the bytes begin with a count above zero.
pub fn read_data<'a>(alloc: Global, cursor: &mut Cursor<'a>) -> Result<Vec<Data<'a>>, Error>
    ensures { DecodesContent DataSection (λ v. v.items) cursor.old result }
{
    let segments = read_grown_list(alloc, cursor)?;
    expect_end(cursor)?;
    Ok(segments)
}

/// Reads the content of a data count section. On `Ok`, `Some` of the result is the value that the grammar gives for all
/// remaining bytes (`None` is the content of a missing section).
///
/// # Errors
///
/// `Malformed` if the bytes do not encode a number and nothing after it, with a place as
/// [`Error::Malformed`](wasmprinter_bytes::Error::Malformed) describes it.
pub fn read_data_count(cursor: &mut Cursor) -> Result<u32, Malformed>
    ensures { ReadsAll (λ n. Some n) data_count_section.parse cursor.old result }
{
    let count = cursor.u32()?;
    expect_end(cursor)?;
    Ok(count)
}
