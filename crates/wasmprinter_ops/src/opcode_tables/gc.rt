//! Opcodes with the prefix FB: structures, arrays, casts, references.
use crate::opcode_shapes_arities_and_roles::{Arity, Shape, Space};
use crate::opcode_tables::Entry;

/// The opcodes with the prefix FB, by their numbers.
#[rattlefmt::skip]
pub(crate) static GC: [Option<Entry>; 31] = [
    Some(("struct.new", Shape::Index(Space::Types), Arity::OfStruct)), // 0
    Some(("struct.new_default", Shape::Index(Space::Types), Arity::Fixed(0, 1))), // 1
    Some(("struct.get", Shape::Field, Arity::Fixed(1, 1))), // 2
    Some(("struct.get_s", Shape::Field, Arity::Fixed(1, 1))), // 3
    Some(("struct.get_u", Shape::Field, Arity::Fixed(1, 1))), // 4
    Some(("struct.set", Shape::Field, Arity::Fixed(2, 0))), // 5
    Some(("array.new", Shape::Index(Space::Types), Arity::Fixed(2, 1))), // 6
    Some(("array.new_default", Shape::Index(Space::Types), Arity::Fixed(1, 1))), // 7
    Some(("array.new_fixed", Shape::Count, Arity::OfCount)), // 8
    Some(("array.new_data", Shape::Pair(Space::Types, Space::Data), Arity::Fixed(2, 1))), // 9
    Some(("array.new_elem", Shape::Pair(Space::Types, Space::Elem), Arity::Fixed(2, 1))), // 10
    Some(("array.get", Shape::Index(Space::Types), Arity::Fixed(2, 1))), // 11
    Some(("array.get_s", Shape::Index(Space::Types), Arity::Fixed(2, 1))), // 12
    Some(("array.get_u", Shape::Index(Space::Types), Arity::Fixed(2, 1))), // 13
    Some(("array.set", Shape::Index(Space::Types), Arity::Fixed(3, 0))), // 14
    Some(("array.len", Shape::None, Arity::Fixed(1, 1))), // 15
    Some(("array.fill", Shape::Index(Space::Types), Arity::Fixed(4, 0))), // 16
    Some(("array.copy", Shape::Pair(Space::Types, Space::Types), Arity::Fixed(5, 0))), // 17
    Some(("array.init_data", Shape::Pair(Space::Types, Space::Data), Arity::Fixed(4, 0))), // 18
    Some(("array.init_elem", Shape::Pair(Space::Types, Space::Elem), Arity::Fixed(4, 0))), // 19
    Some(("ref.test", Shape::Ref(false), Arity::Fixed(1, 1))), // 20
    Some(("ref.test", Shape::Ref(true), Arity::Fixed(1, 1))), // 21
    Some(("ref.cast", Shape::Ref(false), Arity::Fixed(1, 1))), // 22
    Some(("ref.cast", Shape::Ref(true), Arity::Fixed(1, 1))), // 23
    Some(("br_on_cast", Shape::Cast, Arity::OfBranchOnCast)), // 24
    Some(("br_on_cast_fail", Shape::Cast, Arity::OfBranchOnCast)), // 25
    Some(("any.convert_extern", Shape::None, Arity::Fixed(1, 1))), // 26
    Some(("extern.convert_any", Shape::None, Arity::Fixed(1, 1))), // 27
    Some(("ref.i31", Shape::None, Arity::Fixed(1, 1))), // 28
    Some(("i31.get_s", Shape::None, Arity::Fixed(1, 1))), // 29
    Some(("i31.get_u", Shape::None, Arity::Fixed(1, 1))), // 30
];
