//! The element section (section 5.5, "Element Section").
ghost use Rattle.std.specs.Prelude.{◌≡◌};
ghost use Rattle.wasmprinter_spec.specs.Grammar.{value_with_place};
ghost use Rattle.wasmprinter_spec.specs.Binary.Elements.{element as element_grammar, function_items, expression_items};
ghost use Rattle.wasmprinter_spec.specs.Sections.{ElementSection};
ghost use Rattle.wasmprinter_bytes.specs.Reads.{Decodes};
ghost use Rattle.wasmprinter_bytes.specs.Lists.{DecodesWithAllocation, reader, CountsItems};
ghost use Rattle.wasmprinter_decoder.specs.Growing.{ModeGrows, ItemsGrow, ElementGrows};
ghost use Rattle.wasmprinter_ops.specs.ValTypes.{ref_view};
ghost use Rattle.wasmprinter_decoder.specs.Contents.{DecodesContent};
ghost use Rattle.wasmprinter_decoder.specs.Segments.{element_mode_view, element_items_view, mode_by, items_by, has_table_index, omits_kind};

use crate::byte_checks::{expect_end, read_only};
use crate::flag_bits::has_bit;
use std::alloc::Global;
use std::marker::Model;
use wasmprinter_bytes::cursor::Cursor;
use wasmprinter_bytes::decode_traits::{GrownIn, read_grown_list};
use wasmprinter_bytes::lazy_items::{Items, read_items};
use wasmprinter_bytes::{Error, Malformed};
use wasmprinter_ops::expression::Expression;
use wasmprinter_ops::{HeapType, RefType, read_ref_type};

/// The byte before function indices, for segments in which the kind of the items is written.
const FUNCTIONS: u8 = 0x00;

/// The flags are below this.
const FLAGS_END: u32 = 8;

/// The bit of the flags that is set if the segment is passive or declarative, and clear if it is active.
const INACTIVE_BIT: u32 = 0;

/// The bit of the flags that is set if an active segment has an explicit table index, or if an
/// inactive one is declarative.
const EXPLICIT_BIT: u32 = 1;

/// The bit of the flags that is set if the items are expressions, and clear if they are function indices.
const EXPRESSIONS_BIT: u32 = 2;

/// The type of nullable references to functions.
const FUNCREF: RefType = RefType {
    nullable: true,
    heap: HeapType::Func,
};

/// The mode of an element segment (section 2.5, "Element Segments").
#[derive(Drop)]
pub enum ElementMode<'a> {
    /// The segment is used only by operators that refer to it.
    Passive,
    /// The segment only declares functions that are referred to.
    Declared,
    /// The segment is copied to a table when the module is instantiated.
    Active {
        /// The index of the table.
        table: u32,
        /// The offset in the table.
        offset: Expression<'a>,
    },
}

/// The items of an element segment.
#[derive(Drop)]
pub enum ElementItems<'a> {
    /// References to the functions with these indices.
    Functions(Items<'a, u32>),
    /// The values of these expressions, which are references of this type.
    Expressions(RefType, Vec<Expression<'a>>),
}

/// An element segment, with the place of its entry.
#[derive(Drop)]
pub struct Element<'a> {
    place: u64,
    has_table_index: bool,
    mode: ElementMode<'a>,
    items: ElementItems<'a>,
}

impl<'a> Model for Element<'a> {
    ghost use Rattle.wasmprinter_spec.specs.Grammar.{Placed};
    ghost use Rattle.wasmprinter_spec.specs.Placed.{ElementEntry, element_of, entry_of};
    ghost use Rattle.wasmprinter_decoder.specs.Segments.{element_mode_view, element_items_view};

    ghost Value = { Placed ElementEntry };

    ghost view = { λ e. record {
      place = e.place;
      value = entry_of e.has_table_index (element_of (element_mode_view e.mode) (element_items_view e.items));
    } };
}

impl<'a> ElementMode<'a> {
    /// Reads the table and the offset, as the flags require.
    fn read(alloc: Global, flags: u32, cursor: &mut Cursor<'a>) -> Result<Self, Error>
        ensures { DecodesWithAllocation element_mode_view (reader (mode_by flags).parse (ModeGrows flags)) cursor.old result cursor.new }
    {
        let is_explicit = has_bit(flags, EXPLICIT_BIT);
        if has_bit(flags, INACTIVE_BIT) {
            return Ok(if is_explicit {
                ElementMode::Declared
            } else {
                ElementMode::Passive
            });
        }
        let table = if is_explicit { cursor.u32()? } else { 0 };
        let offset = Expression::read(alloc, cursor)?;
        Ok(ElementMode::Active { table, offset })
    }
}

impl<'a> ElementItems<'a> {
    /// Reads a count and that many function indices.
    fn read_functions(cursor: &mut Cursor<'a>) -> Result<Self, Malformed>
        ensures { Decodes element_items_view function_items.parse cursor.old result cursor.new }
    {
        Ok(ElementItems::Functions(read_items(cursor)?))
    }

    /// Reads a count and that many expressions.
    fn read_expressions(alloc: Global, ty: RefType, cursor: &mut Cursor<'a>) -> Result<Self, Error>
        ensures { DecodesWithAllocation element_items_view (reader (expression_items (ref_view ty)).parse CountsItems) cursor.old result cursor.new }
    {
        let expressions = read_grown_list(alloc, cursor)?;
        Ok(ElementItems::Expressions(ty, expressions))
    }

    /// Reads the items, with their kind or type if the flags require it.
    fn read(alloc: Global, flags: u32, cursor: &mut Cursor<'a>) -> Result<Self, Error>
        ensures { DecodesWithAllocation element_items_view (reader (items_by flags).parse (ItemsGrow flags)) cursor.old result cursor.new }
    {
        let is_omitted = is_kind_omitted(flags);
        if has_bit(flags, EXPRESSIONS_BIT) {
            let ty = if is_omitted {
                FUNCREF
            } else {
                read_ref_type(cursor)?
            };
            return ElementItems::read_expressions(alloc, ty, cursor);
        }
        if !is_omitted {
            read_only(cursor, FUNCTIONS)?;
        }
        Ok(ElementItems::read_functions(cursor)?)
    }
}

/// Reports whether a table index follows the flags.
fn announce_table(flags: u32) -> bool
    ensures { result ≡ has_table_index flags }
{
    !has_bit(flags, INACTIVE_BIT) && has_bit(flags, EXPLICIT_BIT)
}

/// Reports whether neither the kind nor the type of the items is written. The items are then functions, and the
/// segment is active in table 0.
fn is_kind_omitted(flags: u32) -> bool
    ensures { result ≡ omits_kind flags }
{
    !has_bit(flags, INACTIVE_BIT) && !has_bit(flags, EXPLICIT_BIT)
}

impl<'a> GrownIn<'a> for Element<'a> {
    ghost parse = { (value_with_place element_grammar).parse };

    ghost grows = { ElementGrows };

    fn read(alloc: Global, cursor: &mut Cursor<'a>) -> Result<Element<'a>, Error> {
        let place = cursor.place();
        let flags = cursor.u32()?;
        if flags >= FLAGS_END {
            return Err(Error::Malformed { place });
        }
        let mode = ElementMode::read(alloc, flags, cursor)?;
        let items = ElementItems::read(alloc, flags, cursor)?;
        Ok(Element {
            place,
            has_table_index: announce_table(flags),
            mode,
            items,
        })
    }
}

impl<'a> Element<'a> {
    /// Returns the place of the entry's first byte: a byte offset from the start of the module.
    pub fn place(&self) -> u64
        ensures { result ≡ self.now.place }
    {
        self.place
    }

    /// Reports whether the bytes contain the segment's table index. In the binary format, an active segment without one
    /// uses table 0.
    pub fn has_table_index(&self) -> bool
        ensures { result ≡ self.now.value.has_table_index }
    {
        self.has_table_index
    }

    /// Returns the mode. The table of an active segment may not exist.
    pub fn mode(&self) -> &ElementMode<'a>
        ensures { element_mode_view result.now ≡ self.now.value.element.mode }
    {
        &self.mode
    }

    /// Returns the items. Their indices may refer to nothing.
    pub fn items(&self) -> &ElementItems<'a>
        ensures { element_items_view result.now ≡ self.now.value.element.items }
    {
        &self.items
    }
}

/// Reads the content of an element section. On `Ok`, the result is the value that the grammar gives for all
/// remaining bytes.
///
/// # Errors
///
/// - `Malformed` if the bytes do not encode a list of element segments and nothing after it, with a place
///   as [`Error::Malformed`](wasmprinter_bytes::Error::Malformed) describes it.
/// - `Memory` if an allocation fails, which happens only if the bytes begin with a count above zero.
pub fn read_elements<'a>(alloc: Global, cursor: &mut Cursor<'a>) -> Result<Vec<Element<'a>>, Error>
    ensures { DecodesContent ElementSection (λ v. v.items) cursor.old result }
{
    let elements = read_grown_list(alloc, cursor)?;
    expect_end(cursor)?;
    Ok(elements)
}
