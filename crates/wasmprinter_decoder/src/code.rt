//! The code section (section 5.5, "Code Section"): bodies of functions, each with its locals and an expression.
ghost use Rattle.std.specs.Prelude.{◌≡◌, ◌<◌, ◌≤◌, ◌↔◌, IsTrue};
ghost use Rattle.wasmprinter_spec.specs.Grammar.{value_with_place};
ghost use Rattle.wasmprinter_spec.specs.Binary.Code.{local_entry};
ghost use Rattle.wasmprinter_spec.specs.Instructions.{roles};
ghost use Rattle.wasmprinter_spec.specs.Limits.{local_count, most_locals};
ghost use Rattle.wasmprinter_spec.specs.Nesting.{Nests, Sequence};
ghost use Rattle.wasmprinter_bytes.specs.Reads.{end_of};
ghost use Rattle.wasmprinter_ops.specs.ValTypes.{val_type_view};
ghost use Rattle.wasmprinter_spec.specs.Sections.{CodeSection};
ghost use Rattle.wasmprinter_decoder.specs.Bodies.{TakesBody, TakesEntry, TakesBodies};
ghost use Rattle.wasmprinter_decoder.specs.Contents.{DecodesContent};

use crate::byte_checks::expect_end;
use std::alloc::Global;
use std::marker::Model;
use wasmprinter_bytes::cursor::Cursor;
use wasmprinter_bytes::decode_traits::Decode;
use wasmprinter_bytes::lazy_items::{Items, read_items};
use wasmprinter_bytes::{Error, Malformed};
use wasmprinter_ops::expression::{Expression, OperatorsReader};
use wasmprinter_ops::{ValType, read_type};

/// The greatest number of locals that a function may have, not counting parameters.
const MOST_LOCALS: u64 = 50_000;

/// A number of locals of one type, with the place of the entry.
#[derive(Drop)]
pub struct LocalEntry {
    place: u64,
    count: u32,
    val_type: ValType,
}

impl Model for LocalEntry {
    ghost use Rattle.wasmprinter_spec.specs.Grammar.{Placed};
    ghost use Rattle.wasmprinter_spec.specs.Placed.{LocalEntry as LocalEntryValue};
    ghost use Rattle.wasmprinter_ops.specs.ValTypes.{val_type_view};

    ghost Value = { Placed LocalEntryValue };

    ghost view = { λ e. record { place = e.place; value = record { count = e.count; type = val_type_view e.val_type } } };
}

impl Decode for LocalEntry {
    ghost parse = { (value_with_place local_entry).parse };

    fn read(cursor: &mut Cursor) -> Result<LocalEntry, Malformed> {
        let place = cursor.place();
        let count = cursor.u32()?;
        let val_type = read_type(cursor)?;
        Ok(LocalEntry {
            place,
            count,
            val_type,
        })
    }
}

impl LocalEntry {
    /// Returns the place of the entry's first byte: a byte offset from the start of the module.
    pub fn place(&self) -> u64
        ensures { result ≡ self.now.place }
    {
        self.place
    }

    /// Returns the number of locals that the entry declares.
    pub fn count(&self) -> u32
        ensures { result ≡ self.now.value.count }
    {
        self.count
    }

    /// Returns the type of the locals.
    pub fn val_type(&self) -> ValType
        ensures { val_type_view result ≡ self.now.value.type }
    {
        self.val_type
    }
}

/// The locals of a function, not including parameters.
pub type Locals<'a> = Items<'a, LocalEntry>;

/// Reports whether there are more locals than a function may have.
fn are_too_many(locals: &Locals) -> bool
    ensures { IsTrue result ↔ (most_locals < local_count locals.now) }
{
    let mut count: u64 = 0;
    for entry in locals.iter() {
        count += u64::from(entry.count);
        if count > MOST_LOCALS {
            return true;
        }
    }
    false
}

/// The body of a function: its locals and its operators, as bytes whose encoding was checked.
#[derive(Drop)]
pub struct Body<'a> {
    place: u64,
    locals: Locals<'a>,
    code: Expression<'a>,
}

impl<'a> Model for Body<'a> {
    ghost use Rattle.wasmprinter_spec.specs.Grammar.{Placed};
    ghost use Rattle.wasmprinter_spec.specs.Placed.{Body as BodyValue};
    ghost use Rattle.wasmprinter_spec.specs.Binary.Code.{body_from};

    ghost Value = { Placed BodyValue };

    ghost view = { λ b. record { place = b.place; value = body_from b.locals b.code } };
}

impl<'a> Body<'a> {
    /// Reads locals, at most `MOST_LOCALS` of them, and an expression.
    fn read(alloc: Global, cursor: &mut Cursor<'a>) -> Result<Self, Error>
        ensures reads { TakesBody cursor.old result cursor.new }
        ensures end { end_of cursor.new ≡ end_of cursor.old }
        ensures forward { cursor.old.place ≤ cursor.new.place }
    {
        let place = cursor.place();
        let locals = read_items(cursor)?;
        if are_too_many(&locals) {
            return Err(Error::TooManyLocals { place });
        }
        let code = Expression::read(alloc, cursor)?;
        Ok(Body {
            place,
            locals,
            code,
        })
    }

    /// Reads an entry of a code section: a size, and a body of exactly that many bytes.
    fn read_entry(alloc: Global, cursor: &mut Cursor<'a>) -> Result<Self, Error>
        ensures reads { TakesEntry cursor.old result cursor.new }
        ensures end { end_of cursor.new ≡ end_of cursor.old }
        ensures forward { cursor.old.place ≤ cursor.new.place }
    {
        let size = cursor.u32()?;
        let mut part = cursor.part(size as usize)?;
        let body = Body::read(alloc, &mut part)?;
        if part.is_empty() {
            Ok(body)
        } else {
            Err(Error::Malformed {
                place: part.place(),
            })
        }
    }

    /// Returns a body equal to this one, with the same places.
    pub fn fork(&self) -> Body<'a>
        ensures { result ≡ self.now }
    {
        Body {
            place: self.place,
            locals: self.locals.iter(),
            code: self.code.fork(),
        }
    }

    /// Returns the operators in order, each with its place, without the last `end` (`all`). They are well nested, as a
    /// whole sequence of operators (`Sequence`): each block that one of them opens is closed by another (`nested`).
    pub fn operators(&self) -> OperatorsReader<'a>
        ensures all { result ≡ self.now.value.operators }
        ensures nested { Nests Sequence (roles self.now.value.operators) }
    {
        self.code.operators()
    }

    /// Returns the place of the body's first byte, after its size: a byte offset from the start of the module.
    pub fn place(&self) -> u64
        ensures { result ≡ self.now.place }
    {
        self.place
    }

    /// Returns the place of the last `end`: a byte offset from the start of the module.
    /// It is the place of the `end` byte itself, the last byte of the body, not the place after it.
    pub fn end(&self) -> u64
        ensures { result ≡ self.now.value.end }
    {
        self.code.end()
    }
}

/// The parts of a function's body.
pub trait BodyParts<'a> {
    /// Returns the entries of the list of locals, each a number of locals and their type. Parameters are not included.
    fn locals(&self) -> Locals<'a>;

    /// Returns the operators as an expression. In contracts its `items` are the operators, each with its place
    /// (`operators`), and its `end` is the place of the `end` that closes it, as [`Body::end`] (`end`).
    fn expression(&self) -> &Expression<'a>;
}

impl<'a> BodyParts<'a> for Body<'a> {
    fn locals(&self) -> Locals<'a>
        ensures { result ≡ self.now.value.locals }
    {
        self.locals.iter()
    }

    fn expression(&self) -> &Expression<'a>
        ensures operators { result.now.items ≡ self.now.value.operators }
        ensures end { result.now.end ≡ self.now.value.end }
    {
        &self.code
    }
}

/// Reads the list of bodies of a code section.
fn read_bodies<'a>(alloc: Global, cursor: &mut Cursor<'a>) -> Result<Vec<Body<'a>>, Error>
    ensures reads { TakesBodies (λ v. v.items) cursor.old result cursor.new }
    ensures end { end_of cursor.new ≡ end_of cursor.old }
    ensures forward { cursor.old.place ≤ cursor.new.place }
{
    let count = cursor.u32()?;
    let mut bodies = Vec::new(alloc);
    for _ in 0..count {
        bodies.push(Body::read_entry(alloc, cursor)?)?;
    }
    Ok(bodies)
}

/// Reads the content of a code section. On `Ok`, the result is the value that the grammar gives for all
/// remaining bytes.
///
/// # Errors
///
/// - `Malformed` if the bytes do not encode a list of bodies and nothing after it, with a place as
///   [`Error::Malformed`](wasmprinter_bytes::Error::Malformed) describes it.
/// - `TooManyLocals` if a body has more than 50,000 locals, not counting parameters. If the bytes encode a list of
///   bodies, the place is that of the first such body, after its size.
/// - `Memory` if an allocation fails, which happens only if the bytes begin with a count above zero.
pub fn read_code<'a>(alloc: Global, cursor: &mut Cursor<'a>) -> Result<Vec<Body<'a>>, Error>
    ensures { DecodesContent CodeSection (λ v. v.items) cursor.old result }
{
    let bodies = read_bodies(alloc, cursor)?;
    expect_end(cursor)?;
    Ok(bodies)
}
