//! Tests of opcodes: their words, shapes, arities and roles. All expected values are typed by hand.

use std::test::Fail;
use wasmprinter_ops::opcode_shapes_arities_and_roles::{Arity, Listed, Opcode, Role, Shape, Space};

/// An expected property of an opcode.
#[derive(Clone, Copy)]
enum Property {
    /// The word, and the shape of the immediates
    Shape(&'static str, Shape),
    /// The word, and the arity
    Arity(&'static str, Arity),
    Role(Role),
    /// This is the opcode of no operator.
    Absent,
}

/// An opcode: its prefix and number, and a property.
type Row = (u8, u32, Property);

const SHAPES: &[Row] = &[
    (0, 0x00, Property::Shape("unreachable", Shape::None)),
    (0, 0x02, Property::Shape("block", Shape::Block)),
    (0, 0x07, Property::Shape("catch", Shape::Index(Space::Tag))),
    (
        0,
        0x0d,
        Property::Shape("br_if", Shape::Index(Space::Label)),
    ),
    (0, 0x0e, Property::Shape("br_table", Shape::BranchTable)),
    (0, 0x10, Property::Shape("call", Shape::Index(Space::Func))),
    (0, 0x11, Property::Shape("call_indirect", Shape::Call)),
    (
        0,
        0x14,
        Property::Shape("call_ref", Shape::Index(Space::Types)),
    ),
    (0, 0x1c, Property::Shape("select", Shape::Select)),
    (0, 0x1f, Property::Shape("try_table", Shape::TryTable)),
    (
        0,
        0x20,
        Property::Shape("local.get", Shape::Index(Space::Local)),
    ),
    (
        0,
        0x24,
        Property::Shape("global.set", Shape::Index(Space::Global)),
    ),
    (
        0,
        0x25,
        Property::Shape("table.get", Shape::Index(Space::Table)),
    ),
    (0, 0x29, Property::Shape("i64.load", Shape::Memory(3))),
    (
        0,
        0x40,
        Property::Shape("memory.grow", Shape::DefaultIndex(Space::Memory)),
    ),
    (0, 0x41, Property::Shape("i32.const", Shape::I32)),
    (0, 0x42, Property::Shape("i64.const", Shape::I64)),
    (0, 0x43, Property::Shape("f32.const", Shape::F32)),
    (0, 0x44, Property::Shape("f64.const", Shape::F64)),
    (0, 0xd0, Property::Shape("ref.null", Shape::Heap)),
    (
        0,
        0xd6,
        Property::Shape("br_on_non_null", Shape::Index(Space::Label)),
    ),
    (0xfb, 2, Property::Shape("struct.get", Shape::Field)),
    (0xfb, 8, Property::Shape("array.new_fixed", Shape::Count)),
    (
        0xfb,
        10,
        Property::Shape("array.new_elem", Shape::Pair(Space::Types, Space::Elem)),
    ),
    (0xfb, 21, Property::Shape("ref.test", Shape::Ref(true))),
    (0xfb, 25, Property::Shape("br_on_cast_fail", Shape::Cast)),
    (0xfb, 30, Property::Shape("i31.get_u", Shape::None)),
    (
        0xfc,
        8,
        Property::Shape("memory.init", Shape::Segment(Space::Data, Space::Memory)),
    ),
    (
        0xfc,
        14,
        Property::Shape("table.copy", Shape::Copy(Space::Table)),
    ),
    (0xfc, 22, Property::Shape("i64.mul_wide_u", Shape::None)),
    (0xfd, 0, Property::Shape("v128.load", Shape::Memory(4))),
    (0xfd, 12, Property::Shape("v128.const", Shape::Vector)),
    (0xfd, 13, Property::Shape("i8x16.shuffle", Shape::Lanes)),
    (0xfd, 34, Property::Shape("f64x2.replace_lane", Shape::Lane)),
    (
        0xfd,
        91,
        Property::Shape("v128.store64_lane", Shape::MemoryLane(3)),
    ),
    (
        0xfd,
        275,
        Property::Shape("i32x4.relaxed_dot_i8x16_i7x16_add_s", Shape::None),
    ),
    (0xfe, 0x03, Property::Shape("atomic.fence", Shape::Fence)),
    (
        0xfe,
        0x4e,
        Property::Shape("i64.atomic.rmw32.cmpxchg_u", Shape::Memory(2)),
    ),
];

const ARITIES: &[Row] = &[
    (0, 0x01, Property::Arity("nop", Arity::Fixed(0, 0))),
    (0, 0x02, Property::Arity("block", Arity::OfBlock)),
    (0, 0x08, Property::Arity("throw", Arity::OfThrow)),
    (0, 0x0b, Property::Arity("end", Arity::OfBlock)),
    (0, 0x0c, Property::Arity("br", Arity::OfBranch)),
    (0, 0x0d, Property::Arity("br_if", Arity::OfBranchIf)),
    (0, 0x0e, Property::Arity("br_table", Arity::OfBranchTable)),
    (0, 0x0f, Property::Arity("return", Arity::OfReturn)),
    (0, 0x10, Property::Arity("call", Arity::OfCall)),
    (
        0,
        0x11,
        Property::Arity("call_indirect", Arity::OfIndirectCall),
    ),
    (0, 0x12, Property::Arity("return_call", Arity::OfReturnCall)),
    (
        0,
        0x15,
        Property::Arity("return_call_ref", Arity::OfReturnIndirectCall),
    ),
    (0, 0x1a, Property::Arity("drop", Arity::Fixed(1, 0))),
    (0, 0x1b, Property::Arity("select", Arity::Fixed(3, 1))),
    (0, 0x36, Property::Arity("i32.store", Arity::Fixed(2, 0))),
    (0, 0x41, Property::Arity("i32.const", Arity::Fixed(0, 1))),
    (0, 0x45, Property::Arity("i32.eqz", Arity::Fixed(1, 1))),
    (0, 0x6a, Property::Arity("i32.add", Arity::Fixed(2, 1))),
    (
        0,
        0xd5,
        Property::Arity("br_on_null", Arity::OfBranchOnNull),
    ),
    (
        0,
        0xd6,
        Property::Arity("br_on_non_null", Arity::OfBranchOnNonNull),
    ),
    (0xfb, 0, Property::Arity("struct.new", Arity::OfStruct)),
    (0xfb, 8, Property::Arity("array.new_fixed", Arity::OfCount)),
    (0xfb, 17, Property::Arity("array.copy", Arity::Fixed(5, 0))),
    (
        0xfb,
        24,
        Property::Arity("br_on_cast", Arity::OfBranchOnCast),
    ),
    (0xfc, 10, Property::Arity("memory.copy", Arity::Fixed(3, 0))),
    (0xfc, 19, Property::Arity("i64.add128", Arity::Fixed(4, 2))),
    (
        0xfc,
        21,
        Property::Arity("i64.mul_wide_s", Arity::Fixed(2, 2)),
    ),
    (
        0xfd,
        261,
        Property::Arity("f32x4.relaxed_madd", Arity::Fixed(3, 1)),
    ),
    (
        0xfe,
        0x1e,
        Property::Arity("i32.atomic.rmw.add", Arity::Fixed(2, 1)),
    ),
];

const ROLES: &[Row] = &[
    (0, 0x01, Property::Role(Role::Plain)),
    (0, 0x02, Property::Role(Role::Opens)),
    (0, 0x03, Property::Role(Role::Opens)),
    (0, 0x04, Property::Role(Role::OpensIf)),
    (0, 0x05, Property::Role(Role::Else)),
    (0, 0x06, Property::Role(Role::OpensTry)),
    (0, 0x07, Property::Role(Role::Catches)),
    (0, 0x0b, Property::Role(Role::Ends)),
    (0, 0x18, Property::Role(Role::Delegates)),
    (0, 0x19, Property::Role(Role::CatchesAll)),
    (0, 0x1f, Property::Role(Role::Opens)),
    (0, 0xff, Property::Role(Role::Plain)),
    (0, 0x100, Property::Role(Role::Plain)),
    (0xfc, 0x02, Property::Role(Role::Plain)),
];

/// Prefixes and numbers that are opcodes of no operator.
const OTHERS: &[Row] = &[
    (0, 0x16, Property::Absent),
    (0, 0x27, Property::Absent),
    (0, 0xcf, Property::Absent),
    (0, 0xd7, Property::Absent),
    (0, 0xff, Property::Absent),
    (0, 0x100, Property::Absent),
    (0xfa, 0, Property::Absent),
    (0xfb, 31, Property::Absent),
    (0xfc, 18, Property::Absent),
    (0xfc, 23, Property::Absent),
    (0xfd, 154, Property::Absent),
    (0xfd, 276, Property::Absent),
    (0xfe, 0x04, Property::Absent),
    (0xfe, 0x4f, Property::Absent),
    (0xff, 0, Property::Absent),
];

/// Reports whether an opcode is that of no operator.
fn is_of_none(opcode: Opcode) -> bool {
    opcode.word() == ""
        && opcode.shape() == None
        && opcode.arity() == None
        && opcode.role() == Role::Plain
}

/// Reports whether an opcode has this property.
fn has(opcode: Opcode, property: Property) -> bool {
    match property {
        Property::Shape(word, shape) => opcode.word() == word && opcode.shape() == Some(shape),
        Property::Arity(word, arity) => opcode.word() == word && opcode.arity() == Some(arity),
        Property::Role(role) => opcode.role() == role,
        Property::Absent => is_of_none(opcode),
    }
}

/// Checks that each opcode has its property.
///
/// # Errors
///
/// - A property differs. The error is the name of the table, with the prefix and the number of the opcode.
fn expect_properties(name: &'static str, rows: &[Row]) -> Result<(), Fail> {
    for (prefix, number, property) in rows {
        let opcode = Opcode {
            prefix: *prefix,
            number: *number,
        };
        if !has(opcode, *property) {
            return Err((name, (*prefix, *number)))?;
        }
    }
    Ok(())
}

#[test]
fn opcodes_have_words_shapes_arities_and_roles(_rt: HostRuntime) -> Result<(), Fail> {
    expect_properties("shapes", SHAPES)?;
    expect_properties("arities", ARITIES)?;
    expect_properties("roles", ROLES)?;
    expect_properties("opcodes of no operator", OTHERS)
}
