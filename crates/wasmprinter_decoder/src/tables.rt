//! The table section (section 5.5, "Table Section").
ghost use Rattle.std.specs.Prelude.{◌≡◌, ◌↔◌, IsTrue};
ghost use Rattle.wasmprinter_spec.specs.Grammar.{value_with_place};
ghost use Rattle.wasmprinter_spec.specs.Binary.Tables.{table_by, table as table_grammar};
ghost use Rattle.wasmprinter_spec.specs.Sections.{TableSection};
ghost use Rattle.wasmprinter_bytes.specs.Lists.{DecodesWithAllocation, reader};
ghost use Rattle.wasmprinter_decoder.specs.Growing.{TableGrows};
ghost use Rattle.wasmprinter_decoder.specs.Contents.{DecodesContent};
ghost use Rattle.wasmprinter_decoder.specs.Tables.{FindsEmpty};
ghost use Rattle.wasmprinter_decoder.specs.Externs.{table_type_view};
ghost use Rattle.wasmprinter_decoder.specs.Segments.{init_view};
ghost use Rattle.wasmprinter_decoder.specs.Refusals.{IsEmptyInit};

use crate::byte_checks::{expect_end, read_only};
use crate::table_types::TableType;
use std::alloc::Global;
use std::marker::Model;
use wasmprinter_bytes::Error;
use wasmprinter_bytes::cursor::Cursor;
use wasmprinter_bytes::decode_traits::{GrownIn, read_grown_list};
use wasmprinter_ops::expression::Expression;

/// The byte before a table with an initialiser.
const WITH_INIT: u8 = 0x40;

/// The reserved byte after [`WITH_INIT`].
const RESERVED: u8 = 0x00;

/// A table that the module defines, with the place of its entry (section 2.5, "Tables").
#[derive(Drop)]
pub struct Table<'a> {
    place: u64,
    ty: TableType,
    init: Option<Expression<'a>>,
}

impl<'a> Model for Table<'a> {
    ghost use Rattle.wasmprinter_spec.specs.Grammar.{Placed};
    ghost use Rattle.wasmprinter_spec.specs.Operator.{Operator};
    ghost use Rattle.wasmprinter_spec.specs.Placed.{Table as TableValue, table_of};
    ghost use Rattle.wasmprinter_decoder.specs.Externs.{table_type_view};
    ghost use Rattle.wasmprinter_decoder.specs.Segments.{init_of};

    ghost Value = { Placed (TableValue (Placed Operator)) };

    ghost view = { λ t. record { place = t.place; value = table_of (table_type_view t.ty) (init_of t.init) } };
}

impl<'a> GrownIn<'a> for Table<'a> {
    ghost parse = { (value_with_place table_grammar).parse };

    ghost grows = { TableGrows };

    fn read(alloc: Global, cursor: &mut Cursor<'a>) -> Result<Table<'a>, Error> {
        let place = cursor.place();
        let Some(first) = cursor.peek() else {
            return Err(Error::Malformed { place });
        };
        if first == WITH_INIT {
            return Table::read_initialised(alloc, cursor);
        }
        let ty = TableType::read(cursor)?;
        let init = None;
        Ok(Table { place, ty, init })
    }
}

impl<'a> Table<'a> {
    /// Reads the two bytes before a table with an initialiser, a table type, and the initialiser.
    fn read_initialised(alloc: Global, cursor: &mut Cursor<'a>) -> Result<Self, Error>
        ensures { DecodesWithAllocation (λ t. t) (reader (value_with_place (table_by 0x40)).parse TableGrows) cursor.old result cursor.new }
    {
        let place = cursor.place();
        read_only(cursor, WITH_INIT)?;
        read_only(cursor, RESERVED)?;
        let ty = TableType::read(cursor)?;
        let init = Some(Expression::read(alloc, cursor)?);
        Ok(Table { place, ty, init })
    }

    /// Returns the place of the entry's first byte: a byte offset from the start of the module.
    pub fn place(&self) -> u64
        ensures { result ≡ self.now.place }
    {
        self.place
    }

    /// Returns the type.
    pub fn ty(&self) -> TableType
        ensures { table_type_view result ≡ self.now.value.type }
    {
        self.ty
    }

    /// Returns the initialiser of the elements, or `None` if there is none.
    pub fn init(&self) -> Option<&Expression<'a>>
        ensures { init_view result ≡ self.now.value.init }
    {
        match &self.init {
            Some(init) => Some(init),
            None => None,
        }
    }

    /// Reports whether there is an empty initialiser.
    fn is_empty(&self) -> bool
        ensures { IsTrue result ↔ IsEmptyInit self.now.value.init }
    {
        match &self.init {
            Some(init) => init.is_empty(),
            None => false,
        }
    }
}

/// Returns the place of the first table with an empty initialiser.
fn empty_table(tables: &[Table]) -> Option<u64>
    ensures { FindsEmpty tables.now result }
{
    for table in tables {
        if table.is_empty() {
            return Some(table.place());
        }
    }
    None
}

/// Reads the content of a table section. On `Ok`, the result is the value that the grammar gives for all
/// remaining bytes, and no initialiser is empty.
///
/// # Errors
///
/// - `Malformed` if the bytes do not encode a list of tables and nothing after it, with a place as
///   [`Error::Malformed`](wasmprinter_bytes::Error::Malformed) describes it.
/// - `EmptyTableInit` if the initialiser of a table has no operators. If the bytes encode a list of tables, the place is
///   that of the first such table.
/// - `Memory` if an allocation fails, which happens only if the bytes begin with a count above zero.
pub fn read_tables<'a>(alloc: Global, cursor: &mut Cursor<'a>) -> Result<Vec<Table<'a>>, Error>
    ensures { DecodesContent TableSection (λ v. v.items) cursor.old result }
{
    let tables = read_grown_list(alloc, cursor)?;
    expect_end(cursor)?;
    match empty_table(&tables) {
        Some(place) => Err(Error::EmptyTableInit { place }),
        None => Ok(tables),
    }
}
