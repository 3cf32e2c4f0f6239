//! Composite types and subtypes (section 5.3 of the WebAssembly Core Specification, "Composite
//! Types" and "Recursive Types").
ghost use Rattle.std.specs.Prelude.{◌≡◌, ◌≤◌, length, option_map};
ghost use Rattle.wasmprinter_spec.specs.Name.{vec};
ghost use Rattle.wasmprinter_spec.specs.Repeated.{items_at};
ghost use Rattle.wasmprinter_spec.specs.Types.{func_type_of};
ghost use Rattle.wasmprinter_spec.specs.Binary.Types.{packed_type_of, storage_type, mutability, field, signature, composite_after};
ghost use Rattle.wasmprinter_spec.specs.Binary.Types.{composite as composite_grammar, sub_type_parts, sub_type_after, subtype};
ghost use Rattle.wasmprinter_bytes.specs.Reads.{Decodes, DecodesFrom};
ghost use Rattle.wasmprinter_ops.specs.ValTypes.{val_types_view};
ghost use Rattle.wasmprinter_ops.specs.Types.{storage_view, field_view, field_at, fields_view, composite_view};

use crate::val_types::{First, ValType, ValTypes, read_types};
use std::marker::Model;
use wasmprinter_bytes::Malformed;
use wasmprinter_bytes::cursor::Cursor;
use wasmprinter_bytes::decode_traits::{Decode, DecodeIn};
use wasmprinter_bytes::lazy_items::{Items, no_items, read_items};

/// The byte before the field type of an array type.
const ARRAY: u8 = 0x5e;

/// The byte before the field types of a structure type.
const STRUCT: u8 = 0x5f;

/// The byte before the parameters and results of a function type.
const FUNC: u8 = 0x60;

/// The byte before a type that other types may have as a supertype.
const SUB: u8 = 0x50;

/// The byte before a final type that lists its supertypes.
const SUB_FINAL: u8 = 0x4f;

/// A storage type (section 2.3, "Composite Types"): a value type or a packed type.
#[derive(Clone, Copy, Debug, PartialEq, Eq)]
pub enum StorageType {
    /// A value type.
    Val(ValType),
    /// `i8`: packed integers of 8 bits.
    I8,
    /// `i16`: packed integers of 16 bits.
    I16,
}

/// The type of a structure's field or of an array's elements (section 2.3, "Composite Types").
#[derive(Clone, Copy, Debug, PartialEq, Eq)]
pub struct FieldType {
    /// The storage type of the field.
    pub storage: StorageType,
    /// Whether the field can be changed.
    pub mutable: bool,
}

/// A list of field types.
pub type FieldTypes<'a> = Items<'a, FieldType>;

/// A list of type indices.
pub type TypeIndices<'a> = Items<'a, u32>;

/// A function type (section 2.3, "Composite Types").
#[derive(Drop)]
pub struct FuncType<'a> {
    params: ValTypes<'a>,
    results: ValTypes<'a>,
}

impl<'a> Model for FuncType<'a> {
    ghost use Rattle.wasmprinter_spec.specs.Types.{FuncType as FuncTypeValue};
    ghost use Rattle.wasmprinter_ops.specs.ValTypes.{val_types_view};

    ghost Value = { FuncTypeValue };

    ghost view = { λ t. record { params = val_types_view t.params; results = val_types_view t.results } };
}

/// A function type, an array type or a structure type (section 2.3, "Composite Types").
#[derive(Drop)]
pub enum CompositeType<'a> {
    /// A function type.
    Func(FuncType<'a>),
    /// An array type, with the type of its elements.
    Array(FieldType),
    /// A structure type, with the types of its fields.
    Struct(FieldTypes<'a>),
}

/// A composite type with its supertypes (section 2.3, "Recursive Types").
#[derive(Drop)]
pub struct SubType<'a> {
    is_final: bool,
    supertypes: TypeIndices<'a>,
    composite: CompositeType<'a>,
}

impl<'a> Model for SubType<'a> {
    ghost use Rattle.wasmprinter_spec.specs.Types.{SubType as SubTypeValue, sub_type};
    ghost use Rattle.wasmprinter_ops.specs.Types.{composite_view};

    ghost Value = { SubTypeValue };

    ghost view = { λ t. sub_type t.is_final t.supertypes (composite_view t.composite) };
}

impl StorageType {
    /// Returns the packed type that the byte encodes.
    fn of_byte(byte: u8) -> Option<StorageType>
        ensures { option_map storage_view result ≡ packed_type_of byte }
    {
        match byte {
            0x78 => Some(StorageType::I8),
            0x77 => Some(StorageType::I16),
            _ => None,
        }
    }

    /// Reads a packed type or a value type.
    fn read(cursor: &mut Cursor) -> Result<Self, Malformed>
        ensures { Decodes storage_view storage_type.parse cursor.old result cursor.new }
    {
        let first = First::read(cursor)?;
        match StorageType::of_byte(first.byte) {
            Some(packed) => Ok(packed),
            None => Ok(StorageType::Val(ValType::read_after(first, cursor)?)),
        }
    }
}

/// Reads the byte that says whether a field or a global can be changed: 01 (`true`) or 00 (`false`). On `Ok`, the
/// cursor is then after it. After an error, the cursor may have advanced.
///
/// # Errors
///
/// `Malformed` if no byte is left, or if the byte is neither 00 nor 01, with the place of the byte. The contract only
/// says that this place is not before the cursor's and not after the end of the bytes; tests check it.
pub fn read_mutability(cursor: &mut Cursor) -> Result<bool, Malformed>
    ensures { Decodes (λ b. b) mutability.parse cursor.old result cursor.new }
{
    let place = cursor.place();
    match cursor.u8()? {
        0x00 => Ok(false),
        0x01 => Ok(true),
        _ => Err(Malformed { place }),
    }
}

impl FieldType {
    /// Reads a storage type, and whether the field can be changed.
    fn read_field(cursor: &mut Cursor) -> Result<Self, Malformed>
        ensures { Decodes field_view field.parse cursor.old result cursor.new }
    {
        let storage = StorageType::read(cursor)?;
        let mutable = read_mutability(cursor)?;
        Ok(FieldType { storage, mutable })
    }
}

impl Decode for FieldType {
    ghost parse = { field_at };

    fn read(cursor: &mut Cursor) -> Result<FieldType, Malformed> {
        FieldType::read_field(cursor)
    }
}

/// Reads a count and that many field types.
fn read_fields<'a>(cursor: &mut Cursor<'a>) -> Result<FieldTypes<'a>, Malformed>
    ensures { Decodes fields_view (vec field).parse cursor.old result cursor.new }
{
    read_items(cursor)
}

impl<'a> FuncType<'a> {
    /// Reads the parameters and the results.
    fn read(cursor: &mut Cursor<'a>) -> Result<Self, Malformed>
        ensures { Decodes (λ t. t) signature.parse cursor.old result cursor.new }
    {
        let params = read_types(cursor)?;
        let results = read_types(cursor)?;
        Ok(FuncType { params, results })
    }

    /// Returns a second view of the same bytes.
    fn fork(&self) -> FuncType<'a>
        ensures { result ≡ self.now }
    {
        FuncType {
            params: self.params(),
            results: self.results(),
        }
    }

    /// Returns the types of the parameters.
    pub fn params(&self) -> ValTypes<'a>
        ensures { val_types_view result ≡ self.now.params }
    {
        self.params.iter()
    }

    /// Returns the types of the results.
    pub fn results(&self) -> ValTypes<'a>
        ensures { val_types_view result ≡ self.now.results }
    {
        self.results.iter()
    }
}

impl<'a> CompositeType<'a> {
    /// Reads the rest of a composite type, after its first byte.
    fn read_after(first: First, cursor: &mut Cursor<'a>) -> Result<Self, Malformed>
        requires { first.place ≤ cursor.now.place }
        ensures { DecodesFrom first.place composite_view (composite_after first.byte).parse cursor.old result cursor.new }
    {
        match first.byte {
            ARRAY => Ok(CompositeType::Array(FieldType::read_field(cursor)?)),
            STRUCT => Ok(CompositeType::Struct(read_fields(cursor)?)),
            FUNC => Ok(CompositeType::Func(FuncType::read(cursor)?)),
            _ => Err(first.refusal()),
        }
    }

    /// Reads a composite type.
    fn read(cursor: &mut Cursor<'a>) -> Result<Self, Malformed>
        ensures { Decodes composite_view composite_grammar.parse cursor.old result cursor.new }
    {
        let first = First::read(cursor)?;
        CompositeType::read_after(first, cursor)
    }
}

impl<'a> SubType<'a> {
    /// Reads supertypes and a composite type.
    fn read_parts(is_final: bool, cursor: &mut Cursor<'a>) -> Result<Self, Malformed>
        ensures { Decodes (λ t. t) (sub_type_parts is_final).parse cursor.old result cursor.new }
    {
        let supertypes = read_items(cursor)?;
        let composite = CompositeType::read(cursor)?;
        Ok(SubType {
            is_final,
            supertypes,
            composite,
        })
    }

    /// Reads the rest of a subtype, after its first byte.
    fn read_after(first: First, cursor: &mut Cursor<'a>) -> Result<Self, Malformed>
        requires { first.place ≤ cursor.now.place }
        ensures { DecodesFrom first.place (λ t. t) (sub_type_after first.byte).parse cursor.old result cursor.new }
    {
        match first.byte {
            SUB => SubType::read_parts(false, cursor),
            SUB_FINAL => SubType::read_parts(true, cursor),
            _ => Ok(SubType {
                is_final: true,
                supertypes: no_items(cursor),
                composite: CompositeType::read_after(first, cursor)?,
            }),
        }
    }

    /// Reports whether no type may have this type as a supertype.
    pub fn is_final(&self) -> bool
        ensures { result ≡ self.now.final }
    {
        self.is_final
    }

    /// Returns the type indices of the supertypes.
    pub fn supertypes(&self) -> TypeIndices<'a>
        ensures { result ≡ self.now.supertypes }
    {
        self.supertypes.iter()
    }

    /// Returns the composite type.
    pub fn composite(&self) -> &CompositeType<'a>
        ensures { composite_view result.now ≡ self.now.composite }
    {
        &self.composite
    }

    /// Returns the function type, or `None` if this is a type of another kind.
    pub fn func_type(&self) -> Option<FuncType<'a>>
        ensures { result ≡ func_type_of self.now.composite }
    {
        match self.composite() {
            CompositeType::Func(func_type) => Some(func_type.fork()),
            _ => None,
        }
    }
}

impl<'a> DecodeIn<'a> for SubType<'a> {
    ghost parse = { subtype.parse };

    fn read(cursor: &mut Cursor<'a>) -> Result<SubType<'a>, Malformed> {
        let first = First::read(cursor)?;
        SubType::read_after(first, cursor)
    }
}

/// A list of subtypes whose encoding was checked. Each type is read again from the bytes when it is requested.
/// (`Items` does the same for values that borrow nothing.)
#[derive(Drop)]
pub struct SubTypes<'a> {
    left: u32,
    cursor: Cursor<'a>,
}

impl<'a> Model for SubTypes<'a> {
    ghost use Rattle.std.specs.Prelude.{List};
    ghost use Rattle.wasmprinter_bytes.specs.Items.{items_of, HasItems};
    ghost use Rattle.wasmprinter_spec.specs.Types.{SubType as SubTypeValue};
    ghost use Rattle.wasmprinter_spec.specs.Binary.Types.{subtype};

    ghost Value = { List SubTypeValue };

    ghost view = { λ t. items_of subtype.parse t.left t.cursor };

    ghost invariant = { λ t. HasItems subtype.parse t.left t.cursor };
}

impl<'a> SubTypes<'a> {
    /// Reads `count` subtypes.
    fn read_times(cursor: &mut Cursor<'a>, count: u32) -> Result<Self, Malformed>
        ensures { Decodes (λ t. t) (items_at subtype.parse count) cursor.old result cursor.new }
    {
        let start = cursor.fork();
        for _ in 0..count {
            SubType::read(cursor)?;
        }
        Ok(SubTypes {
            left: count,
            cursor: start,
        })
    }

    /// Reads a subtype that is not in a group, as a list of one type. On `Ok`, the cursor is then after it. After an
    /// error, the cursor may have advanced.
    ///
    /// # Errors
    ///
    /// `Malformed` if the bytes do not encode a subtype, with a place as
    /// [`Error::Malformed`](wasmprinter_bytes::Error::Malformed) describes it. The contract only says that this place
    /// is not before the cursor's and not after the end of the bytes; tests check it.
    pub fn read_one(cursor: &mut Cursor<'a>) -> Result<Self, Malformed>
        ensures { Decodes (λ t. t) (items_at subtype.parse 1) cursor.old result cursor.new }
    {
        SubTypes::read_times(cursor, 1)
    }

    /// Reads a count and that many subtypes. On `Ok`, the cursor is then after them. After an error, the cursor may
    /// have advanced.
    ///
    /// # Errors
    ///
    /// `Malformed` if the bytes do not encode the count or one of the types, with a place
    /// as [`Error::Malformed`](wasmprinter_bytes::Error::Malformed) describes it. The contract only says that this
    /// place is not before the cursor's and not after the end of the bytes; tests check it.
    pub fn read(cursor: &mut Cursor<'a>) -> Result<Self, Malformed>
        ensures { Decodes (λ t. t) (vec subtype).parse cursor.old result cursor.new }
    {
        let count = cursor.u32()?;
        SubTypes::read_times(cursor, count)
    }

    /// Returns the number of types that are left, without those that `next` has returned.
    pub fn len(&self) -> u32
        ensures { result ≡ length self.now }
    {
        self.left
    }

    /// Returns the types in order.
    /// They are those that are left, without those that `next` has returned.
    pub fn iter(&self) -> SubTypes<'a>
        ensures { result ≡ self.now }
    {
        SubTypes {
            left: self.left,
            cursor: self.cursor.fork(),
        }
    }
}

impl<'a> Iterator for SubTypes<'a> {
    ghost use Rattle.std.specs.Iterator.{YieldsFirst, item_count};

    type Item = SubType<'a>;

    ghost next_gives = { YieldsFirst (λ types. types) };

    ghost remaining = { item_count (λ types. types) };

    fn next(&mut self) -> Option<SubType<'a>> {
        if self.left == 0 {
            return None;
        }
        self.left -= 1;
        match SubType::read(&mut self.cursor) {
            Ok(sub_type) => Some(sub_type),
            Err(_) => unreachable!(),
        }
    }
}
