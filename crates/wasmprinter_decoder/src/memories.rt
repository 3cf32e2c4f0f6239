//! The memory section (section 5.5, "Memory Section"), with memory types (section 5.3, "Memory Types").
ghost use Rattle.std.specs.Prelude.{◌≡◌, ◌<◌, IfOk};
ghost use Rattle.wasmprinter_spec.specs.Grammar.{value_with_place};
ghost use Rattle.wasmprinter_spec.specs.Binary.Memories.{page as page_grammar, memory_type as memory_type_grammar};
ghost use Rattle.wasmprinter_spec.specs.Sections.{MemorySection};
ghost use Rattle.wasmprinter_bytes.specs.Reads.{Decodes};
ghost use Rattle.wasmprinter_decoder.specs.Contents.{DecodesContent};
ghost use Rattle.wasmprinter_decoder.specs.Externs.{memory_type_view, IsPageExponent};

use crate::byte_checks::expect_end;
use crate::flag_bits::has_bit;
use crate::limits::{Limits, MAX_BIT, WIDE_BIT};
use std::alloc::Global;
use std::marker::Model;
use wasmprinter_bytes::cursor::Cursor;
use wasmprinter_bytes::decode_traits::{DecodeIn, read_list};
use wasmprinter_bytes::{Error, Malformed};

/// The flags are below this.
const FLAGS_END: u32 = 16;

/// The bit of the flags that says that the memory is shared.
const SHARED_BIT: u32 = 1;

/// The bit of the flags that says that the page size is given.
const PAGE_BIT: u32 = 3;

/// The type of a memory (section 2.3, "Memory Types").
#[derive(Clone, Copy, Debug, PartialEq, Eq)]
pub struct MemoryType {
    /// Whether addresses have 64 bits, not 32.
    pub wide: bool,
    /// Whether threads may share the memory.
    pub shared: bool,
    /// The size in pages.
    pub limits: Limits,
    /// The exponent of the page size in bytes, a power of two. `None` if it is not given, which means 16.
    pub page: Option<u32>,
}

/// A memory that the module defines, with the place of its entry.
#[derive(Drop)]
pub struct Memory {
    place: u64,
    ty: MemoryType,
}

impl Model for Memory {
    ghost use Rattle.wasmprinter_spec.specs.Grammar.{Placed};
    ghost use Rattle.wasmprinter_spec.specs.Types.{MemoryType as MemoryTypeValue};
    ghost use Rattle.wasmprinter_decoder.specs.Externs.{memory_type_view, IsPageExponent};

    ghost Value = { Placed MemoryTypeValue };

    ghost view = { λ m. record { place = m.place; value = memory_type_view m.ty } };

    ghost invariant = { λ m. IsPageExponent m.ty.page };
}

/// Reads the exponent of the page size, if it is given.
fn read_page(cursor: &mut Cursor, is_given: bool) -> Result<Option<u32>, Malformed>
    ensures decodes { Decodes (λ p. p) (page_grammar is_given).parse cursor.old result cursor.new }
    ensures fits { IfOk result IsPageExponent }
{
    if !is_given {
        return Ok(None);
    }
    let place = cursor.place();
    let exponent = cursor.u32()?;
    if exponent < u64::BITS {
        Ok(Some(exponent))
    } else {
        Err(Malformed { place })
    }
}

impl MemoryType {
    /// Reads the flags, the limits and the page size.
    pub(crate) fn read(cursor: &mut Cursor) -> Result<MemoryType, Malformed>
        ensures decodes { Decodes memory_type_view memory_type_grammar.parse cursor.old result cursor.new }
        ensures fits { IfOk result (λ m. IsPageExponent m.page) }
    {
        let place = cursor.place();
        let flags = u32::from(cursor.u8()?);
        if flags >= FLAGS_END {
            return Err(Malformed { place });
        }
        let limits = Limits::read(cursor, has_bit(flags, MAX_BIT))?;
        let page = read_page(cursor, has_bit(flags, PAGE_BIT))?;
        Ok(MemoryType {
            wide: has_bit(flags, WIDE_BIT),
            shared: has_bit(flags, SHARED_BIT),
            limits,
            page,
        })
    }
}

impl<'a> DecodeIn<'a> for Memory {
    ghost parse = { (value_with_place memory_type_grammar).parse };

    fn read(cursor: &mut Cursor<'a>) -> Result<Memory, Malformed> {
        let place = cursor.place();
        let ty = MemoryType::read(cursor)?;
        Ok(Memory { place, ty })
    }
}

impl Memory {
    /// Returns the place of the entry's first byte: a byte offset from the start of the module.
    pub fn place(&self) -> u64
        ensures { result ≡ self.now.place }
    {
        self.place
    }

    /// Returns the type (`is`). The exponent of its page size, if given, is below 64 (`page`).
    pub fn ty(&self) -> MemoryType
        ensures is { memory_type_view result ≡ self.now.value }
        ensures page { IsPageExponent result.page }
    {
        self.ty
    }
}

/// Reads the content of a memory section. On `Ok`, the result is the value that the grammar gives for all
/// remaining bytes.
///
/// # Errors
///
/// - `Malformed` if the bytes do not encode a list of memory types and nothing after it, with a place as
///   [`Error::Malformed`](wasmprinter_bytes::Error::Malformed) describes it.
/// - `Memory` if an allocation fails, which happens only if the bytes begin with a count above zero.
pub fn read_memories(alloc: Global, cursor: &mut Cursor) -> Result<Vec<Memory>, Error>
    ensures { DecodesContent MemorySection (λ v. v.items) cursor.old result }
{
    let memories = read_list(alloc, cursor)?;
    expect_end(cursor)?;
    Ok(memories)
}
