//! The global section (section 5.5, "Global Section").
ghost use Rattle.std.specs.Prelude.{◌≡◌};
ghost use Rattle.wasmprinter_spec.specs.Grammar.{value_with_place};
ghost use Rattle.wasmprinter_spec.specs.Binary.Globals.{global as global_grammar};
ghost use Rattle.wasmprinter_spec.specs.Sections.{GlobalSection};
ghost use Rattle.wasmprinter_decoder.specs.Contents.{DecodesContent};
ghost use Rattle.wasmprinter_decoder.specs.Externs.{global_type_view};
ghost use Rattle.wasmprinter_decoder.specs.Growing.{GlobalGrows};

use crate::byte_checks::expect_end;
use crate::global_types::GlobalType;
use std::alloc::Global as Allocator;
use std::marker::Model;
use wasmprinter_bytes::Error;
use wasmprinter_bytes::cursor::Cursor;
use wasmprinter_bytes::decode_traits::{GrownIn, read_grown_list};
use wasmprinter_ops::expression::Expression;

/// A global that the module defines, with the place of its entry (section 2.5, "Globals").
#[derive(Drop)]
pub struct Global<'a> {
    place: u64,
    ty: GlobalType,
    init: Expression<'a>,
}

impl<'a> Model for Global<'a> {
    ghost use Rattle.wasmprinter_spec.specs.Grammar.{Placed};
    ghost use Rattle.wasmprinter_spec.specs.Operator.{Operator};
    ghost use Rattle.wasmprinter_spec.specs.Placed.{Global as GlobalValue, global_of};
    ghost use Rattle.wasmprinter_decoder.specs.Externs.{global_type_view};

    ghost Value = { Placed (GlobalValue (Placed Operator)) };

    ghost view = { λ g. record { place = g.place; value = global_of (global_type_view g.ty) g.init.items } };
}

impl<'a> GrownIn<'a> for Global<'a> {
    ghost parse = { (value_with_place global_grammar).parse };

    ghost grows = { GlobalGrows };

    fn read(alloc: Allocator, cursor: &mut Cursor<'a>) -> Result<Global<'a>, Error> {
        let place = cursor.place();
        let ty = GlobalType::read(cursor)?;
        let init = Expression::read(alloc, cursor)?;
        Ok(Global { place, ty, init })
    }
}

impl<'a> Global<'a> {
    /// Returns the place of the entry's first byte: a byte offset from the start of the module.
    pub fn place(&self) -> u64
        ensures { result ≡ self.now.place }
    {
        self.place
    }

    /// Returns the type.
    pub fn ty(&self) -> GlobalType
        ensures { global_type_view result ≡ self.now.value.type }
    {
        self.ty
    }

    /// Returns the initialiser. In contracts its `items` are its operators, each with its place. The contract does not
    /// give the place of its `end`.
    pub fn init(&self) -> &Expression<'a>
        ensures { result.now.items ≡ self.now.value.init }
    {
        &self.init
    }
}

/// Reads the content of a global section. On `Ok`, the result is the value that the grammar gives for all
/// remaining bytes.
///
/// # Errors
///
/// - `Malformed` if the bytes do not encode a list of globals and nothing after it, with a place as
///   [`Error::Malformed`](wasmprinter_bytes::Error::Malformed) describes it.
/// - `Memory` if an allocation fails, which happens only if the bytes begin with a count above zero.
pub fn read_globals<'a>(alloc: Allocator, cursor: &mut Cursor<'a>) -> Result<Vec<Global<'a>>, Error>
    ensures { DecodesContent GlobalSection (λ v. v.items) cursor.old result }
{
    let globals = read_grown_list(alloc, cursor)?;
    expect_end(cursor)?;
    Ok(globals)
}
