//! Opcodes of one byte.
use crate::opcode_shapes_arities_and_roles::{Arity, Role, Shape, Space};
use crate::opcode_tables::Entry;

/// The opcodes without a prefix, by their numbers.
#[rattlefmt::skip]
pub(crate) static ONE_BYTE: [Option<Entry>; 0xd7] = [
    Some(("unreachable", Shape::None, Arity::Fixed(0, 0))), // 0x00
    Some(("nop", Shape::None, Arity::Fixed(0, 0))), // 0x01
    Some(("block", Shape::Block, Arity::OfBlock)), // 0x02
    Some(("loop", Shape::Block, Arity::OfBlock)), // 0x03
    Some(("if", Shape::Block, Arity::OfBlock)), // 0x04
    Some(("else", Shape::None, Arity::OfBlock)), // 0x05
    Some(("try", Shape::Block, Arity::OfBlock)), // 0x06
    Some(("catch", Shape::Index(Space::Tag), Arity::OfBlock)), // 0x07
    Some(("throw", Shape::Index(Space::Tag), Arity::OfThrow)), // 0x08
    Some(("rethrow", Shape::Index(Space::Label), Arity::Fixed(0, 0))), // 0x09
    Some(("throw_ref", Shape::None, Arity::Fixed(1, 0))), // 0x0a
    Some(("end", Shape::None, Arity::OfBlock)), // 0x0b
    Some(("br", Shape::Index(Space::Label), Arity::OfBranch)), // 0x0c
    Some(("br_if", Shape::Index(Space::Label), Arity::OfBranchIf)), // 0x0d
    Some(("br_table", Shape::BranchTable, Arity::OfBranchTable)), // 0x0e
    Some(("return", Shape::None, Arity::OfReturn)), // 0x0f
    Some(("call", Shape::Index(Space::Func), Arity::OfCall)), // 0x10
    Some(("call_indirect", Shape::Call, Arity::OfIndirectCall)), // 0x11
    Some(("return_call", Shape::Index(Space::Func), Arity::OfReturnCall)), // 0x12
    Some(("return_call_indirect", Shape::Call, Arity::OfReturnIndirectCall)), // 0x13
    Some(("call_ref", Shape::Index(Space::Types), Arity::OfIndirectCall)), // 0x14
    Some(("return_call_ref", Shape::Index(Space::Types), Arity::OfReturnIndirectCall)), // 0x15
    None, None, // 0x16
    Some(("delegate", Shape::Index(Space::Label), Arity::OfBlock)), // 0x18
    Some(("catch_all", Shape::None, Arity::OfBlock)), // 0x19
    Some(("drop", Shape::None, Arity::Fixed(1, 0))), // 0x1a
    Some(("select", Shape::None, Arity::Fixed(3, 1))), // 0x1b
    Some(("select", Shape::Select, Arity::Fixed(3, 1))), // 0x1c
    None, None, // 0x1d
    Some(("try_table", Shape::TryTable, Arity::OfBlock)), // 0x1f
    Some(("local.get", Shape::Index(Space::Local), Arity::Fixed(0, 1))), // 0x20
    Some(("local.set", Shape::Index(Space::Local), Arity::Fixed(1, 0))), // 0x21
    Some(("local.tee", Shape::Index(Space::Local), Arity::Fixed(1, 1))), // 0x22
    Some(("global.get", Shape::Index(Space::Global), Arity::Fixed(0, 1))), // 0x23
    Some(("global.set", Shape::Index(Space::Global), Arity::Fixed(1, 0))), // 0x24
    Some(("table.get", Shape::Index(Space::Table), Arity::Fixed(1, 1))), // 0x25
    Some(("table.set", Shape::Index(Space::Table), Arity::Fixed(2, 0))), // 0x26
    None, // 0x27
    Some(("i32.load", Shape::Memory(2), Arity::Fixed(1, 1))), // 0x28
    Some(("i64.load", Shape::Memory(3), Arity::Fixed(1, 1))), // 0x29
    Some(("f32.load", Shape::Memory(2), Arity::Fixed(1, 1))), // 0x2a
    Some(("f64.load", Shape::Memory(3), Arity::Fixed(1, 1))), // 0x2b
    Some(("i32.load8_s", Shape::Memory(0), Arity::Fixed(1, 1))), // 0x2c
    Some(("i32.load8_u", Shape::Memory(0), Arity::Fixed(1, 1))), // 0x2d
    Some(("i32.load16_s", Shape::Memory(1), Arity::Fixed(1, 1))), // 0x2e
    Some(("i32.load16_u", Shape::Memory(1), Arity::Fixed(1, 1))), // 0x2f
    Some(("i64.load8_s", Shape::Memory(0), Arity::Fixed(1, 1))), // 0x30
    Some(("i64.load8_u", Shape::Memory(0), Arity::Fixed(1, 1))), // 0x31
    Some(("i64.load16_s", Shape::Memory(1), Arity::Fixed(1, 1))), // 0x32
    Some(("i64.load16_u", Shape::Memory(1), Arity::Fixed(1, 1))), // 0x33
    Some(("i64.load32_s", Shape::Memory(2), Arity::Fixed(1, 1))), // 0x34
    Some(("i64.load32_u", Shape::Memory(2), Arity::Fixed(1, 1))), // 0x35
    Some(("i32.store", Shape::Memory(2), Arity::Fixed(2, 0))), // 0x36
    Some(("i64.store", Shape::Memory(3), Arity::Fixed(2, 0))), // 0x37
    Some(("f32.store", Shape::Memory(2), Arity::Fixed(2, 0))), // 0x38
    Some(("f64.store", Shape::Memory(3), Arity::Fixed(2, 0))), // 0x39
    Some(("i32.store8", Shape::Memory(0), Arity::Fixed(2, 0))), // 0x3a
    Some(("i32.store16", Shape::Memory(1), Arity::Fixed(2, 0))), // 0x3b
    Some(("i64.store8", Shape::Memory(0), Arity::Fixed(2, 0))), // 0x3c
    Some(("i64.store16", Shape::Memory(1), Arity::Fixed(2, 0))), // 0x3d
    Some(("i64.store32", Shape::Memory(2), Arity::Fixed(2, 0))), // 0x3e
    Some(("memory.size", Shape::DefaultIndex(Space::Memory), Arity::Fixed(0, 1))), // 0x3f
    Some(("memory.grow", Shape::DefaultIndex(Space::Memory), Arity::Fixed(1, 1))), // 0x40
    Some(("i32.const", Shape::I32, Arity::Fixed(0, 1))), // 0x41
    Some(("i64.const", Shape::I64, Arity::Fixed(0, 1))), // 0x42
    Some(("f32.const", Shape::F32, Arity::Fixed(0, 1))), // 0x43
    Some(("f64.const", Shape::F64, Arity::Fixed(0, 1))), // 0x44
    Some(("i32.eqz", Shape::None, Arity::Fixed(1, 1))), // 0x45
    Some(("i32.eq", Shape::None, Arity::Fixed(2, 1))), // 0x46
    Some(("i32.ne", Shape::None, Arity::Fixed(2, 1))), // 0x47
    Some(("i32.lt_s", Shape::None, Arity::Fixed(2, 1))), // 0x48
    Some(("i32.lt_u", Shape::None, Arity::Fixed(2, 1))), // 0x49
    Some(("i32.gt_s", Shape::None, Arity::Fixed(2, 1))), // 0x4a
    Some(("i32.gt_u", Shape::None, Arity::Fixed(2, 1))), // 0x4b
    Some(("i32.le_s", Shape::None, Arity::Fixed(2, 1))), // 0x4c
    Some(("i32.le_u", Shape::None, Arity::Fixed(2, 1))), // 0x4d
    Some(("i32.ge_s", Shape::None, Arity::Fixed(2, 1))), // 0x4e
    Some(("i32.ge_u", Shape::None, Arity::Fixed(2, 1))), // 0x4f
    Some(("i64.eqz", Shape::None, Arity::Fixed(1, 1))), // 0x50
    Some(("i64.eq", Shape::None, Arity::Fixed(2, 1))), // 0x51
    Some(("i64.ne", Shape::None, Arity::Fixed(2, 1))), // 0x52
    Some(("i64.lt_s", Shape::None, Arity::Fixed(2, 1))), // 0x53
    Some(("i64.lt_u", Shape::None, Arity::Fixed(2, 1))), // 0x54
    Some(("i64.gt_s", Shape::None, Arity::Fixed(2, 1))), // 0x55
    Some(("i64.gt_u", Shape::None, Arity::Fixed(2, 1))), // 0x56
    Some(("i64.le_s", Shape::None, Arity::Fixed(2, 1))), // 0x57
    Some(("i64.le_u", Shape::None, Arity::Fixed(2, 1))), // 0x58
    Some(("i64.ge_s", Shape::None, Arity::Fixed(2, 1))), // 0x59
    Some(("i64.ge_u", Shape::None, Arity::Fixed(2, 1))), // 0x5a
    Some(("f32.eq", Shape::None, Arity::Fixed(2, 1))), // 0x5b
    Some(("f32.ne", Shape::None, Arity::Fixed(2, 1))), // 0x5c
    Some(("f32.lt", Shape::None, Arity::Fixed(2, 1))), // 0x5d
    Some(("f32.gt", Shape::None, Arity::Fixed(2, 1))), // 0x5e
    Some(("f32.le", Shape::None, Arity::Fixed(2, 1))), // 0x5f
    Some(("f32.ge", Shape::None, Arity::Fixed(2, 1))), // 0x60
    Some(("f64.eq", Shape::None, Arity::Fixed(2, 1))), // 0x61
    Some(("f64.ne", Shape::None, Arity::Fixed(2, 1))), // 0x62
    Some(("f64.lt", Shape::None, Arity::Fixed(2, 1))), // 0x63
    Some(("f64.gt", Shape::None, Arity::Fixed(2, 1))), // 0x64
    Some(("f64.le", Shape::None, Arity::Fixed(2, 1))), // 0x65
    Some(("f64.ge", Shape::None, Arity::Fixed(2, 1))), // 0x66
    Some(("i32.clz", Shape::None, Arity::Fixed(1, 1))), // 0x67
    Some(("i32.ctz", Shape::None, Arity::Fixed(1, 1))), // 0x68
    Some(("i32.popcnt", Shape::None, Arity::Fixed(1, 1))), // 0x69
    Some(("i32.add", Shape::None, Arity::Fixed(2, 1))), // 0x6a
    Some(("i32.sub", Shape::None, Arity::Fixed(2, 1))), // 0x6b
    Some(("i32.mul", Shape::None, Arity::Fixed(2, 1))), // 0x6c
    Some(("i32.div_s", Shape::None, Arity::Fixed(2, 1))), // 0x6d
    Some(("i32.div_u", Shape::None, Arity::Fixed(2, 1))), // 0x6e
    Some(("i32.rem_s", Shape::None, Arity::Fixed(2, 1))), // 0x6f
    Some(("i32.rem_u", Shape::None, Arity::Fixed(2, 1))), // 0x70
    Some(("i32.and", Shape::None, Arity::Fixed(2, 1))), // 0x71
    Some(("i32.or", Shape::None, Arity::Fixed(2, 1))), // 0x72
    Some(("i32.xor", Shape::None, Arity::Fixed(2, 1))), // 0x73
    Some(("i32.shl", Shape::None, Arity::Fixed(2, 1))), // 0x74
    Some(("i32.shr_s", Shape::None, Arity::Fixed(2, 1))), // 0x75
    Some(("i32.shr_u", Shape::None, Arity::Fixed(2, 1))), // 0x76
    Some(("i32.rotl", Shape::None, Arity::Fixed(2, 1))), // 0x77
    Some(("i32.rotr", Shape::None, Arity::Fixed(2, 1))), // 0x78
    Some(("i64.clz", Shape::None, Arity::Fixed(1, 1))), // 0x79
    Some(("i64.ctz", Shape::None, Arity::Fixed(1, 1))), // 0x7a
    Some(("i64.popcnt", Shape::None, Arity::Fixed(1, 1))), // 0x7b
    Some(("i64.add", Shape::None, Arity::Fixed(2, 1))), // 0x7c
    Some(("i64.sub", Shape::None, Arity::Fixed(2, 1))), // 0x7d
    Some(("i64.mul", Shape::None, Arity::Fixed(2, 1))), // 0x7e
    Some(("i64.div_s", Shape::None, Arity::Fixed(2, 1))), // 0x7f
    Some(("i64.div_u", Shape::None, Arity::Fixed(2, 1))), // 0x80
    Some(("i64.rem_s", Shape::None, Arity::Fixed(2, 1))), // 0x81
    Some(("i64.rem_u", Shape::None, Arity::Fixed(2, 1))), // 0x82
    Some(("i64.and", Shape::None, Arity::Fixed(2, 1))), // 0x83
    Some(("i64.or", Shape::None, Arity::Fixed(2, 1))), // 0x84
    Some(("i64.xor", Shape::None, Arity::Fixed(2, 1))), // 0x85
    Some(("i64.shl", Shape::None, Arity::Fixed(2, 1))), // 0x86
    Some(("i64.shr_s", Shape::None, Arity::Fixed(2, 1))), // 0x87
    Some(("i64.shr_u", Shape::None, Arity::Fixed(2, 1))), // 0x88
    Some(("i64.rotl", Shape::None, Arity::Fixed(2, 1))), // 0x89
    Some(("i64.rotr", Shape::None, Arity::Fixed(2, 1))), // 0x8a
    Some(("f32.abs", Shape::None, Arity::Fixed(1, 1))), // 0x8b
    Some(("f32.neg", Shape::None, Arity::Fixed(1, 1))), // 0x8c
    Some(("f32.ceil", Shape::None, Arity::Fixed(1, 1))), // 0x8d
    Some(("f32.floor", Shape::None, Arity::Fixed(1, 1))), // 0x8e
    Some(("f32.trunc", Shape::None, Arity::Fixed(1, 1))), // 0x8f
    Some(("f32.nearest", Shape::None, Arity::Fixed(1, 1))), // 0x90
    Some(("f32.sqrt", Shape::None, Arity::Fixed(1, 1))), // 0x91
    Some(("f32.add", Shape::None, Arity::Fixed(2, 1))), // 0x92
    Some(("f32.sub", Shape::None, Arity::Fixed(2, 1))), // 0x93
    Some(("f32.mul", Shape::None, Arity::Fixed(2, 1))), // 0x94
    Some(("f32.div", Shape::None, Arity::Fixed(2, 1))), // 0x95
    Some(("f32.min", Shape::None, Arity::Fixed(2, 1))), // 0x96
    Some(("f32.max", Shape::None, Arity::Fixed(2, 1))), // 0x97
    Some(("f32.copysign", Shape::None, Arity::Fixed(2, 1))), // 0x98
    Some(("f64.abs", Shape::None, Arity::Fixed(1, 1))), // 0x99
    Some(("f64.neg", Shape::None, Arity::Fixed(1, 1))), // 0x9a
    Some(("f64.ceil", Shape::None, Arity::Fixed(1, 1))), // 0x9b
    Some(("f64.floor", Shape::None, Arity::Fixed(1, 1))), // 0x9c
    Some(("f64.trunc", Shape::None, Arity::Fixed(1, 1))), // 0x9d
    Some(("f64.nearest", Shape::None, Arity::Fixed(1, 1))), // 0x9e
    Some(("f64.sqrt", Shape::None, Arity::Fixed(1, 1))), // 0x9f
    Some(("f64.add", Shape::None, Arity::Fixed(2, 1))), // 0xa0
    Some(("f64.sub", Shape::None, Arity::Fixed(2, 1))), // 0xa1
    Some(("f64.mul", Shape::None, Arity::Fixed(2, 1))), // 0xa2
    Some(("f64.div", Shape::None, Arity::Fixed(2, 1))), // 0xa3
    Some(("f64.min", Shape::None, Arity::Fixed(2, 1))), // 0xa4
    Some(("f64.max", Shape::None, Arity::Fixed(2, 1))), // 0xa5
    Some(("f64.copysign", Shape::None, Arity::Fixed(2, 1))), // 0xa6
    Some(("i32.wrap_i64", Shape::None, Arity::Fixed(1, 1))), // 0xa7
    Some(("i32.trunc_f32_s", Shape::None, Arity::Fixed(1, 1))), // 0xa8
    Some(("i32.trunc_f32_u", Shape::None, Arity::Fixed(1, 1))), // 0xa9
    Some(("i32.trunc_f64_s", Shape::None, Arity::Fixed(1, 1))), // 0xaa
    Some(("i32.trunc_f64_u", Shape::None, Arity::Fixed(1, 1))), // 0xab
    Some(("i64.extend_i32_s", Shape::None, Arity::Fixed(1, 1))), // 0xac
    Some(("i64.extend_i32_u", Shape::None, Arity::Fixed(1, 1))), // 0xad
    Some(("i64.trunc_f32_s", Shape::None, Arity::Fixed(1, 1))), // 0xae
    Some(("i64.trunc_f32_u", Shape::None, Arity::Fixed(1, 1))), // 0xaf
    Some(("i64.trunc_f64_s", Shape::None, Arity::Fixed(1, 1))), // 0xb0
    Some(("i64.trunc_f64_u", Shape::None, Arity::Fixed(1, 1))), // 0xb1
    Some(("f32.convert_i32_s", Shape::None, Arity::Fixed(1, 1))), // 0xb2
    Some(("f32.convert_i32_u", Shape::None, Arity::Fixed(1, 1))), // 0xb3
    Some(("f32.convert_i64_s", Shape::None, Arity::Fixed(1, 1))), // 0xb4
    Some(("f32.convert_i64_u", Shape::None, Arity::Fixed(1, 1))), // 0xb5
    Some(("f32.demote_f64", Shape::None, Arity::Fixed(1, 1))), // 0xb6
    Some(("f64.convert_i32_s", Shape::None, Arity::Fixed(1, 1))), // 0xb7
    Some(("f64.convert_i32_u", Shape::None, Arity::Fixed(1, 1))), // 0xb8
    Some(("f64.convert_i64_s", Shape::None, Arity::Fixed(1, 1))), // 0xb9
    Some(("f64.convert_i64_u", Shape::None, Arity::Fixed(1, 1))), // 0xba
    Some(("f64.promote_f32", Shape::None, Arity::Fixed(1, 1))), // 0xbb
    Some(("i32.reinterpret_f32", Shape::None, Arity::Fixed(1, 1))), // 0xbc
    Some(("i64.reinterpret_f64", Shape::None, Arity::Fixed(1, 1))), // 0xbd
    Some(("f32.reinterpret_i32", Shape::None, Arity::Fixed(1, 1))), // 0xbe
    Some(("f64.reinterpret_i64", Shape::None, Arity::Fixed(1, 1))), // 0xbf
    Some(("i32.extend8_s", Shape::None, Arity::Fixed(1, 1))), // 0xc0
    Some(("i32.extend16_s", Shape::None, Arity::Fixed(1, 1))), // 0xc1
    Some(("i64.extend8_s", Shape::None, Arity::Fixed(1, 1))), // 0xc2
    Some(("i64.extend16_s", Shape::None, Arity::Fixed(1, 1))), // 0xc3
    Some(("i64.extend32_s", Shape::None, Arity::Fixed(1, 1))), // 0xc4
    None, None, None, None, None, None, None, None, None, None, None, // 0xc5
    Some(("ref.null", Shape::Heap, Arity::Fixed(0, 1))), // 0xd0
    Some(("ref.is_null", Shape::None, Arity::Fixed(1, 1))), // 0xd1
    Some(("ref.func", Shape::Index(Space::Func), Arity::Fixed(0, 1))), // 0xd2
    Some(("ref.eq", Shape::None, Arity::Fixed(2, 1))), // 0xd3
    Some(("ref.as_non_null", Shape::None, Arity::Fixed(1, 1))), // 0xd4
    Some(("br_on_null", Shape::Index(Space::Label), Arity::OfBranchOnNull)), // 0xd5
    Some(("br_on_non_null", Shape::Index(Space::Label), Arity::OfBranchOnNonNull)), // 0xd6
];

/// The roles of the opcodes without a prefix, by their numbers. Opcodes with greater numbers have the role `Plain`.
#[rattlefmt::skip]
pub(crate) static ROLES: [Role; 0x20] = [
    Role::Plain, Role::Plain, // 0x00
    Role::Opens, // 0x02
    Role::Opens, // 0x03
    Role::OpensIf, // 0x04
    Role::Else, // 0x05
    Role::OpensTry, // 0x06
    Role::Catches, // 0x07
    Role::Plain, Role::Plain, Role::Plain, // 0x08
    Role::Ends, // 0x0b
    Role::Plain, Role::Plain, Role::Plain, Role::Plain, // 0x0c
    Role::Plain, Role::Plain, Role::Plain, Role::Plain, // 0x10
    Role::Plain, Role::Plain, Role::Plain, Role::Plain, // 0x14
    Role::Delegates, // 0x18
    Role::CatchesAll, // 0x19
    Role::Plain, Role::Plain, Role::Plain, Role::Plain, Role::Plain, // 0x1a
    Role::Opens, // 0x1f
];
