//! The type section (section 5.5, "Type Section"): recursion groups of types.
ghost use Rattle.std.specs.Prelude.{◌≡◌, ◌+◌, ◌++◌, ◌<◌, ◌^◌, [], length, true, IfOk, OnOk, OnErr, option_map};
ghost use Rattle.wasmprinter_spec.specs.Grammar.{value_with_place};
ghost use Rattle.wasmprinter_spec.specs.Types.{all_types, signature_at, fields_at};
ghost use Rattle.wasmprinter_spec.specs.Binary.Types.{group as group_grammar};
ghost use Rattle.wasmprinter_spec.specs.Module.{groups_of};
ghost use Rattle.wasmprinter_spec.specs.Sections.{TypeSection};
ghost use Rattle.wasmprinter_decoder.specs.Contents.{DecodesContent};

use crate::byte_checks::expect_end;
use std::alloc::{AllocError, Global};
use std::marker::Model;
use wasmprinter_bytes::cursor::Cursor;
use wasmprinter_bytes::decode_traits::{DecodeIn, read_list};
use wasmprinter_bytes::{Error, Malformed};
use wasmprinter_ops::composite_types::{CompositeType, FuncType, SubType, SubTypes};

/// The byte before the types of an explicit group.
const REC: u8 = 0x4e;

/// A group of types, which may refer to one another, with the place of the group (section 2.3, "Recursive Types").
#[derive(Drop)]
pub struct TypeGroup<'a> {
    place: u64,
    is_explicit: bool,
    types: SubTypes<'a>,
}

impl<'a> Model for TypeGroup<'a> {
    ghost use Rattle.wasmprinter_spec.specs.Grammar.{Placed};
    ghost use Rattle.std.specs.Prelude.{◌≡◌, ◌+◌, ◌<◌, ◌^◌, true};
    ghost use Rattle.wasmprinter_spec.specs.Placed.{TypeGroup as TypeGroupValue, type_group};

    ghost Value = { Placed TypeGroupValue };

    ghost view = { λ g. record { place = g.place; value = type_group g.is_explicit g.types } };

    ghost invariant = { λ g. g.is_explicit ≡ true → g.place + 2 < 2 ^ 64 };
}

impl<'a> DecodeIn<'a> for TypeGroup<'a> {
    ghost parse = { (value_with_place group_grammar).parse };

    fn read(cursor: &mut Cursor<'a>) -> Result<TypeGroup<'a>, Malformed> {
        let start = cursor.fork();
        let is_explicit = start.peek() == Some(REC);
        let types = if is_explicit {
            cursor.u8()?;
            SubTypes::read(cursor)?
        } else {
            SubTypes::read_one(cursor)?
        };
        Ok(TypeGroup {
            place: start.place(),
            is_explicit,
            types,
        })
    }
}

impl<'a> TypeGroup<'a> {
    /// Returns the place of the group's first byte: a byte offset from the start of the module.
    pub fn place(&self) -> u64
        ensures { result ≡ self.now.place }
    {
        self.place
    }

    /// Reports whether the bytes mark the group as one (byte 4E). Otherwise it is a single type without that mark.
    pub fn is_explicit(&self) -> bool
        ensures { result ≡ self.now.value.explicit }
    {
        self.is_explicit
    }

    /// Returns the place after the group's first two bytes: a byte offset from the start of the module. The printed
    /// lines of the group's types have this place. The group must be explicit ([`TypeGroup::is_explicit`]).
    pub fn types_place(&self) -> u64
        requires { self.now.value.explicit ≡ true }
        ensures { result ≡ self.now.place + 2 }
    {
        self.place + 2
    }

    /// Returns the types of the group.
    pub fn types(&self) -> SubTypes<'a>
        ensures { result ≡ self.now.value.types }
    {
        self.types.iter()
    }
}

/// Appends the types of a group to `types`.
fn add_types<'a>(types: &mut Vec<SubType<'a>>, group: &TypeGroup<'a>) -> Result<(), AllocError>
    ensures { OnOk result (types.new.items ≡ types.old.items ++ group.now.value.types) }
{
    for sub_type in group.types() {
        types.push(sub_type)?;
    }
    Ok(())
}

/// Returns the types of all groups, by their indices.
fn types_of_groups<'a>(
    alloc: Global,
    groups: &[TypeGroup<'a>],
) -> Result<Vec<SubType<'a>>, AllocError>
    ensures ok { IfOk result (λ v. v.items ≡ all_types (groups_of groups.now)) }
    ensures memory { OnErr result (0 < length groups.now) }
{
    let mut types = Vec::new(alloc);
    for group in groups {
        add_types(&mut types, group)?;
    }
    Ok(types)
}

/// The content of a type section.
#[derive(Drop)]
pub struct Types<'a> {
    groups: Vec<TypeGroup<'a>>,
    /// The types of all groups, by their indices.
    types: Vec<SubType<'a>>,
}

impl<'a> Model for Types<'a> {
    ghost use Rattle.std.specs.Prelude.{◌≡◌, List};
    ghost use Rattle.wasmprinter_spec.specs.Grammar.{Placed};
    ghost use Rattle.wasmprinter_spec.specs.Types.{all_types};
    ghost use Rattle.wasmprinter_spec.specs.Placed.{TypeGroup as TypeGroupValue};
    ghost use Rattle.wasmprinter_spec.specs.Module.{groups_of};

    ghost Value = { List (Placed TypeGroupValue) };

    ghost view = { λ t. t.groups.items };

    ghost invariant = { λ t. t.types.items ≡ all_types (groups_of t.groups.items) };
}

impl<'a> Types<'a> {
    /// Returns an empty list of types.
    pub fn new(alloc: Global) -> Self
        ensures { result ≡ [] }
    {
        Types {
            groups: Vec::new(alloc),
            types: Vec::new(alloc),
        }
    }

    /// Reads the content of a type section. On `Ok`, the result is the value that the grammar gives for all
    /// remaining bytes.
    ///
    /// # Errors
    ///
    /// - `Malformed` if the bytes do not encode a list of groups and nothing after it, with a place as
    ///   [`Error::Malformed`](wasmprinter_bytes::Error::Malformed) describes it.
    /// - `Memory` if an allocation fails, which happens only if the bytes begin with a count above zero.
    pub fn read(alloc: Global, cursor: &mut Cursor<'a>) -> Result<Self, Error>
        ensures { DecodesContent TypeSection (λ t. t) cursor.old result }
    {
        let groups = read_list(alloc, cursor)?;
        expect_end(cursor)?;
        let types = types_of_groups(alloc, &groups)?;
        Ok(Types { groups, types })
    }

    /// Replaces the types by others.
    pub fn replace(&mut self, others: Types<'a>)
        ensures { self.new ≡ others.entry }
    {
        let Types { groups, types } = others;
        self.groups = groups;
        self.types = types;
    }

    /// Returns the groups in order. All their types together are fewer than 2^64, since they were read from bytes in
    /// memory (`few`).
    pub fn groups(&self) -> &[TypeGroup<'a>]
        ensures all { result.now ≡ self.now }
        ensures few { length (all_types (groups_of self.now)) < 2 ^ 64 }
    {
        &self.groups
    }

    /// Returns the function type with the index, or `None` if the index is not that of a function type. Type indices
    /// run across groups, from 0.
    pub fn signature(&self, index: u32) -> Option<FuncType<'a>>
        ensures { result ≡ signature_at (all_types (groups_of self.now)) index }
    {
        match self.types.get(index as usize) {
            Some(sub_type) => sub_type.func_type(),
            None => None,
        }
    }
    /// Returns the number of fields of the structure type with the index, or `None` if the index is not
    /// that of a structure type. Type indices run across groups, from 0.
    pub fn field_count(&self, index: u32) -> Option<u32>
        ensures { result ≡ option_map length (fields_at (all_types (groups_of self.now)) index) }
    {
        match self.types.get(index as usize)?.composite() {
            CompositeType::Struct(fields) => Some(fields.len()),
            _ => None,
        }
    }
}
