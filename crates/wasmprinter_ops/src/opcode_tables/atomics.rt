//! Opcodes with the prefix FE: atomic memory accesses.
use crate::opcode_shapes_arities_and_roles::{Arity, Shape};
use crate::opcode_tables::Entry;

/// The opcodes with the prefix FE, by their numbers.
#[rattlefmt::skip]
pub(crate) static ATOMICS: [Option<Entry>; 0x4f] = [
    Some(("memory.atomic.notify", Shape::Memory(2), Arity::Fixed(2, 1))), // 0x00
    Some(("memory.atomic.wait32", Shape::Memory(2), Arity::Fixed(3, 1))), // 0x01
    Some(("memory.atomic.wait64", Shape::Memory(3), Arity::Fixed(3, 1))), // 0x02
    Some(("atomic.fence", Shape::Fence, Arity::Fixed(0, 0))), // 0x03
    None, None, None, None, None, None, None, None, None, None, None, None, // 0x04
    Some(("i32.atomic.load", Shape::Memory(2), Arity::Fixed(1, 1))), // 0x10
    Some(("i64.atomic.load", Shape::Memory(3), Arity::Fixed(1, 1))), // 0x11
    Some(("i32.atomic.load8_u", Shape::Memory(0), Arity::Fixed(1, 1))), // 0x12
    Some(("i32.atomic.load16_u", Shape::Memory(1), Arity::Fixed(1, 1))), // 0x13
    Some(("i64.atomic.load8_u", Shape::Memory(0), Arity::Fixed(1, 1))), // 0x14
    Some(("i64.atomic.load16_u", Shape::Memory(1), Arity::Fixed(1, 1))), // 0x15
    Some(("i64.atomic.load32_u", Shape::Memory(2), Arity::Fixed(1, 1))), // 0x16
    Some(("i32.atomic.store", Shape::Memory(2), Arity::Fixed(2, 0))), // 0x17
    Some(("i64.atomic.store", Shape::Memory(3), Arity::Fixed(2, 0))), // 0x18
    Some(("i32.atomic.store8", Shape::Memory(0), Arity::Fixed(2, 0))), // 0x19
    Some(("i32.atomic.store16", Shape::Memory(1), Arity::Fixed(2, 0))), // 0x1a
    Some(("i64.atomic.store8", Shape::Memory(0), Arity::Fixed(2, 0))), // 0x1b
    Some(("i64.atomic.store16", Shape::Memory(1), Arity::Fixed(2, 0))), // 0x1c
    Some(("i64.atomic.store32", Shape::Memory(2), Arity::Fixed(2, 0))), // 0x1d
    Some(("i32.atomic.rmw.add", Shape::Memory(2), Arity::Fixed(2, 1))), // 0x1e
    Some(("i64.atomic.rmw.add", Shape::Memory(3), Arity::Fixed(2, 1))), // 0x1f
    Some(("i32.atomic.rmw8.add_u", Shape::Memory(0), Arity::Fixed(2, 1))), // 0x20
    Some(("i32.atomic.rmw16.add_u", Shape::Memory(1), Arity::Fixed(2, 1))), // 0x21
    Some(("i64.atomic.rmw8.add_u", Shape::Memory(0), Arity::Fixed(2, 1))), // 0x22
    Some(("i64.atomic.rmw16.add_u", Shape::Memory(1), Arity::Fixed(2, 1))), // 0x23
    Some(("i64.atomic.rmw32.add_u", Shape::Memory(2), Arity::Fixed(2, 1))), // 0x24
    Some(("i32.atomic.rmw.sub", Shape::Memory(2), Arity::Fixed(2, 1))), // 0x25
    Some(("i64.atomic.rmw.sub", Shape::Memory(3), Arity::Fixed(2, 1))), // 0x26
    Some(("i32.atomic.rmw8.sub_u", Shape::Memory(0), Arity::Fixed(2, 1))), // 0x27
    Some(("i32.atomic.rmw16.sub_u", Shape::Memory(1), Arity::Fixed(2, 1))), // 0x28
    Some(("i64.atomic.rmw8.sub_u", Shape::Memory(0), Arity::Fixed(2, 1))), // 0x29
    Some(("i64.atomic.rmw16.sub_u", Shape::Memory(1), Arity::Fixed(2, 1))), // 0x2a
    Some(("i64.atomic.rmw32.sub_u", Shape::Memory(2), Arity::Fixed(2, 1))), // 0x2b
    Some(("i32.atomic.rmw.and", Shape::Memory(2), Arity::Fixed(2, 1))), // 0x2c
    Some(("i64.atomic.rmw.and", Shape::Memory(3), Arity::Fixed(2, 1))), // 0x2d
    Some(("i32.atomic.rmw8.and_u", Shape::Memory(0), Arity::Fixed(2, 1))), // 0x2e
    Some(("i32.atomic.rmw16.and_u", Shape::Memory(1), Arity::Fixed(2, 1))), // 0x2f
    Some(("i64.atomic.rmw8.and_u", Shape::Memory(0), Arity::Fixed(2, 1))), // 0x30
    Some(("i64.atomic.rmw16.and_u", Shape::Memory(1), Arity::Fixed(2, 1))), // 0x31
    Some(("i64.atomic.rmw32.and_u", Shape::Memory(2), Arity::Fixed(2, 1))), // 0x32
    Some(("i32.atomic.rmw.or", Shape::Memory(2), Arity::Fixed(2, 1))), // 0x33
    Some(("i64.atomic.rmw.or", Shape::Memory(3), Arity::Fixed(2, 1))), // 0x34
    Some(("i32.atomic.rmw8.or_u", Shape::Memory(0), Arity::Fixed(2, 1))), // 0x35
    Some(("i32.atomic.rmw16.or_u", Shape::Memory(1), Arity::Fixed(2, 1))), // 0x36
    Some(("i64.atomic.rmw8.or_u", Shape::Memory(0), Arity::Fixed(2, 1))), // 0x37
    Some(("i64.atomic.rmw16.or_u", Shape::Memory(1), Arity::Fixed(2, 1))), // 0x38
    Some(("i64.atomic.rmw32.or_u", Shape::Memory(2), Arity::Fixed(2, 1))), // 0x39
    Some(("i32.atomic.rmw.xor", Shape::Memory(2), Arity::Fixed(2, 1))), // 0x3a
    Some(("i64.atomic.rmw.xor", Shape::Memory(3), Arity::Fixed(2, 1))), // 0x3b
    Some(("i32.atomic.rmw8.xor_u", Shape::Memory(0), Arity::Fixed(2, 1))), // 0x3c
    Some(("i32.atomic.rmw16.xor_u", Shape::Memory(1), Arity::Fixed(2, 1))), // 0x3d
    Some(("i64.atomic.rmw8.xor_u", Shape::Memory(0), Arity::Fixed(2, 1))), // 0x3e
    Some(("i64.atomic.rmw16.xor_u", Shape::Memory(1), Arity::Fixed(2, 1))), // 0x3f
    Some(("i64.atomic.rmw32.xor_u", Shape::Memory(2), Arity::Fixed(2, 1))), // 0x40
    Some(("i32.atomic.rmw.xchg", Shape::Memory(2), Arity::Fixed(2, 1))), // 0x41
    Some(("i64.atomic.rmw.xchg", Shape::Memory(3), Arity::Fixed(2, 1))), // 0x42
    Some(("i32.atomic.rmw8.xchg_u", Shape::Memory(0), Arity::Fixed(2, 1))), // 0x43
    Some(("i32.atomic.rmw16.xchg_u", Shape::Memory(1), Arity::Fixed(2, 1))), // 0x44
    Some(("i64.atomic.rmw8.xchg_u", Shape::Memory(0), Arity::Fixed(2, 1))), // 0x45
    Some(("i64.atomic.rmw16.xchg_u", Shape::Memory(1), Arity::Fixed(2, 1))), // 0x46
    Some(("i64.atomic.rmw32.xchg_u", Shape::Memory(2), Arity::Fixed(2, 1))), // 0x47
    Some(("i32.atomic.rmw.cmpxchg", Shape::Memory(2), Arity::Fixed(3, 1))), // 0x48
    Some(("i64.atomic.rmw.cmpxchg", Shape::Memory(3), Arity::Fixed(3, 1))), // 0x49
    Some(("i32.atomic.rmw8.cmpxchg_u", Shape::Memory(0), Arity::Fixed(3, 1))), // 0x4a
    Some(("i32.atomic.rmw16.cmpxchg_u", Shape::Memory(1), Arity::Fixed(3, 1))), // 0x4b
    Some(("i64.atomic.rmw8.cmpxchg_u", Shape::Memory(0), Arity::Fixed(3, 1))), // 0x4c
    Some(("i64.atomic.rmw16.cmpxchg_u", Shape::Memory(1), Arity::Fixed(3, 1))), // 0x4d
    Some(("i64.atomic.rmw32.cmpxchg_u", Shape::Memory(2), Arity::Fixed(3, 1))), // 0x4e
];
