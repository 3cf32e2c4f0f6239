//! Heap types, reference types and value types (section 5.3 of the WebAssembly Core Specification, "Heap Types",
//! "Reference Types" and "Value Types").
ghost use Rattle.std.specs.Prelude.{◌≡◌, ◌≤◌, ◌^◌, ◌<ℤ◌, pos, IfOk, option_map};
ghost use Rattle.wasmprinter_spec.specs.Grammar.{byte as byte_grammar};
ghost use Rattle.wasmprinter_spec.specs.Name.{vec};
ghost use Rattle.wasmprinter_spec.specs.Binary.ValTypes.{abstract_heap_of, number_type_of, non_negative, signed_index, heap_type};
ghost use Rattle.wasmprinter_spec.specs.Binary.ValTypes.{ref_type_after, reference_type, val_type_after, val_type, begins_val_type};
ghost use Rattle.wasmprinter_bytes.specs.Reads.{Decodes, DecodesFrom};
ghost use Rattle.wasmprinter_ops.specs.ValTypes.{heap_view, ref_view, val_type_view, val_types_view, type_at};

use wasmprinter_bytes::Malformed;
use wasmprinter_bytes::cursor::Cursor;
use wasmprinter_bytes::decode_traits::Decode;
use wasmprinter_bytes::lazy_items::{Items, read_items};

/// The byte before the heap type of a reference that can't be null.
const REF: u8 = 0x64;

/// The byte before the heap type of a reference that may be null.
const REF_NULL: u8 = 0x63;

/// A heap type, which classifies what references refer to (section 2.3, "Heap Types").
#[derive(Clone, Copy, Debug, PartialEq, Eq)]
pub enum HeapType {
    /// `exn`: exceptions.
    Exn,
    /// `array`: arrays of any type.
    Array,
    /// `struct`: structures of any type.
    Struct,
    /// `i31`: 31-bit integers.
    I31,
    /// `eq`: values that can be compared.
    Eq,
    /// `any`: all values except functions, exceptions and external values.
    Any,
    /// `extern`: external values.
    Extern,
    /// `func`: functions of any type.
    Func,
    /// `none`: no value; a subtype of `any`.
    NoAny,
    /// `noextern`: no value; a subtype of `extern`.
    NoExtern,
    /// `nofunc`: no value; a subtype of `func`.
    NoFunc,
    /// `noexn`: no value; a subtype of `exn`.
    NoExn,
    /// The type with this index.
    Index(u32),
}

/// A reference type (section 2.3, "Reference Types").
#[derive(Clone, Copy, Debug, PartialEq, Eq)]
pub struct RefType {
    /// Whether the reference may be null.
    pub nullable: bool,
    /// The heap type of the reference.
    pub heap: HeapType,
}

/// A value type (section 2.3, "Value Types").
#[derive(Clone, Copy, Debug, PartialEq, Eq)]
pub enum ValType {
    /// `i32`: 32-bit integers.
    I32,
    /// `i64`: 64-bit integers.
    I64,
    /// `f32`: 32-bit floating-point numbers.
    F32,
    /// `f64`: 64-bit floating-point numbers.
    F64,
    /// `v128`: vectors of 128 bits.
    V128,
    /// References.
    Ref(RefType),
}

/// A list of value types.
pub type ValTypes<'a> = Items<'a, ValType>;

/// The first byte of a type, which was read, and its place.
#[derive(Clone, Copy)]
pub(crate) struct First {
    pub(crate) place: u64,
    pub(crate) byte: u8,
}

impl First {
    /// Reads a byte.
    pub(crate) fn read(cursor: &mut Cursor) -> Result<Self, Malformed>
        ensures decodes { Decodes (λ f. f.byte) byte_grammar.parse cursor.old result cursor.new }
        ensures place { IfOk result (λ f. f.place ≡ cursor.old.place) }
    {
        let place = cursor.place();
        let byte = cursor.u8()?;
        Ok(First { place, byte })
    }

    /// Returns the error of a type that can't begin with this byte.
    pub(crate) fn refusal(self) -> Malformed
        ensures { result.place ≡ self.place }
    {
        Malformed { place: self.place }
    }
}

/// Returns the type index that a signed number encodes.
fn index_of(number: i64) -> Option<u32>
    requires { number <ℤ pos (2 ^ 32) }
    ensures { result ≡ non_negative number }
{
    if number >= 0 {
        Some(number as u32)
    } else {
        None
    }
}

impl HeapType {
    /// Returns the abstract heap type that the byte encodes.
    fn of_byte(byte: u8) -> Option<HeapType>
        ensures { option_map heap_view result ≡ abstract_heap_of byte }
    {
        match byte {
            0x69 => Some(HeapType::Exn),
            0x6a => Some(HeapType::Array),
            0x6b => Some(HeapType::Struct),
            0x6c => Some(HeapType::I31),
            0x6d => Some(HeapType::Eq),
            0x6e => Some(HeapType::Any),
            0x6f => Some(HeapType::Extern),
            0x70 => Some(HeapType::Func),
            0x71 => Some(HeapType::NoAny),
            0x72 => Some(HeapType::NoExtern),
            0x73 => Some(HeapType::NoFunc),
            0x74 => Some(HeapType::NoExn),
            _ => None,
        }
    }
}

/// Reads a type index: a signed 33-bit number that is not negative. On `Ok`, the cursor is then after it. After an
/// error, the cursor may have advanced.
///
/// # Errors
///
/// `Malformed` if the bytes do not encode one, with a place as
/// [`Error::Malformed`](wasmprinter_bytes::Error::Malformed) describes it. The contract only says that this place is
/// not before the cursor's and not after the end of the bytes; tests check it.
pub fn read_type_index(cursor: &mut Cursor) -> Result<u32, Malformed>
    ensures { Decodes (λ n. n) signed_index.parse cursor.old result cursor.new }
{
    let place = cursor.place();
    match index_of(cursor.s33()?) {
        Some(index) => Ok(index),
        None => Err(Malformed { place }),
    }
}

/// Reads the byte of an abstract heap type, or a type index. On `Ok`, the cursor is then after it. After an error, the
/// cursor may have advanced.
///
/// # Errors
///
/// `Malformed` if the bytes do not encode a heap type, with a place as
/// [`Error::Malformed`](wasmprinter_bytes::Error::Malformed) describes it. The contract only says that this place is
/// not before the cursor's and not after the end of the bytes; tests check it.
pub fn read_heap_type(cursor: &mut Cursor) -> Result<HeapType, Malformed>
    ensures { Decodes heap_view heap_type.parse cursor.old result cursor.new }
{
    let Some(byte) = cursor.peek() else {
        return Err(Malformed {
            place: cursor.place(),
        });
    };
    match HeapType::of_byte(byte) {
        Some(heap) => {
            cursor.u8()?;
            Ok(heap)
        }
        None => Ok(HeapType::Index(read_type_index(cursor)?)),
    }
}

impl RefType {
    /// Reads the rest of a reference type, after its first byte.
    fn read_after(first: First, cursor: &mut Cursor) -> Result<Self, Malformed>
        requires { first.place ≤ cursor.now.place }
        ensures { DecodesFrom first.place ref_view (ref_type_after first.byte).parse cursor.old result cursor.new }
    {
        let (nullable, heap) = match first.byte {
            REF => (false, read_heap_type(cursor)?),
            REF_NULL => (true, read_heap_type(cursor)?),
            byte => match HeapType::of_byte(byte) {
                Some(heap) => (true, heap),
                None => return Err(first.refusal()),
            },
        };
        Ok(RefType { nullable, heap })
    }
}

/// Reads a reference type. On `Ok`, the cursor is then after it. After an error, the cursor may have advanced.
///
/// # Errors
///
/// `Malformed` if the bytes do not encode a reference type, with a place as
/// [`Error::Malformed`](wasmprinter_bytes::Error::Malformed) describes it. The contract only says that this place is
/// not before the cursor's and not after the end of the bytes; tests check it.
pub fn read_ref_type(cursor: &mut Cursor) -> Result<RefType, Malformed>
    ensures { Decodes ref_view reference_type.parse cursor.old result cursor.new }
{
    let first = First::read(cursor)?;
    RefType::read_after(first, cursor)
}

impl ValType {
    /// Returns the number type or vector type that the byte encodes.
    fn of_byte(byte: u8) -> Option<ValType>
        ensures { option_map val_type_view result ≡ number_type_of byte }
    {
        match byte {
            0x7f => Some(ValType::I32),
            0x7e => Some(ValType::I64),
            0x7d => Some(ValType::F32),
            0x7c => Some(ValType::F64),
            0x7b => Some(ValType::V128),
            _ => None,
        }
    }

    /// Reads the rest of a value type, after its first byte.
    pub(crate) fn read_after(first: First, cursor: &mut Cursor) -> Result<Self, Malformed>
        requires { first.place ≤ cursor.now.place }
        ensures { DecodesFrom first.place val_type_view (val_type_after first.byte).parse cursor.old result cursor.new }
    {
        match ValType::of_byte(first.byte) {
            Some(val_type) => Ok(val_type),
            None => Ok(ValType::Ref(RefType::read_after(first, cursor)?)),
        }
    }
}

/// Reports whether a value type can begin with the byte.
pub fn begins_type(byte: u8) -> bool
    ensures { result ≡ begins_val_type byte }
{
    ValType::of_byte(byte).is_some()
        || byte == REF
        || byte == REF_NULL
        || HeapType::of_byte(byte).is_some()
}

/// Reads a value type. On `Ok`, the cursor is then after it. After an error, the cursor may have advanced.
///
/// # Errors
///
/// `Malformed` if the bytes do not encode a value type, with a place as
/// [`Error::Malformed`](wasmprinter_bytes::Error::Malformed) describes it. The contract only says that this place is
/// not before the cursor's and not after the end of the bytes; tests check it.
pub fn read_type(cursor: &mut Cursor) -> Result<ValType, Malformed>
    ensures { Decodes val_type_view val_type.parse cursor.old result cursor.new }
{
    let first = First::read(cursor)?;
    ValType::read_after(first, cursor)
}

impl Decode for ValType {
    ghost parse = { type_at };

    fn read(cursor: &mut Cursor) -> Result<ValType, Malformed> {
        read_type(cursor)
    }
}

/// Reads a count and that many value types. On `Ok`, the cursor is then after them. After an error, the cursor may have
/// advanced.
///
/// # Errors
///
/// `Malformed` if the bytes do not encode the count or one of the types, with a place
/// as [`Error::Malformed`](wasmprinter_bytes::Error::Malformed) describes it. The contract only says that this place is
/// not before the cursor's and not after the end of the bytes; tests check it.
pub fn read_types<'a>(cursor: &mut Cursor<'a>) -> Result<ValTypes<'a>, Malformed>
    ensures { Decodes val_types_view (vec val_type).parse cursor.old result cursor.new }
{
    read_items(cursor)
}
