//! Opcodes with the prefix FC: saturating truncation, bulk operators on memories and tables, wide arithmetic.
use crate::opcode_shapes_arities_and_roles::{Arity, Shape, Space};
use crate::opcode_tables::Entry;

/// The opcodes with the prefix FC, by their numbers.
#[rattlefmt::skip]
pub(crate) static BULK: [Option<Entry>; 23] = [
    Some(("i32.trunc_sat_f32_s", Shape::None, Arity::Fixed(1, 1))), // 0
    Some(("i32.trunc_sat_f32_u", Shape::None, Arity::Fixed(1, 1))), // 1
    Some(("i32.trunc_sat_f64_s", Shape::None, Arity::Fixed(1, 1))), // 2
    Some(("i32.trunc_sat_f64_u", Shape::None, Arity::Fixed(1, 1))), // 3
    Some(("i64.trunc_sat_f32_s", Shape::None, Arity::Fixed(1, 1))), // 4
    Some(("i64.trunc_sat_f32_u", Shape::None, Arity::Fixed(1, 1))), // 5
    Some(("i64.trunc_sat_f64_s", Shape::None, Arity::Fixed(1, 1))), // 6
    Some(("i64.trunc_sat_f64_u", Shape::None, Arity::Fixed(1, 1))), // 7
    Some(("memory.init", Shape::Segment(Space::Data, Space::Memory), Arity::Fixed(3, 0))), // 8
    Some(("data.drop", Shape::Index(Space::Data), Arity::Fixed(0, 0))), // 9
    Some(("memory.copy", Shape::Copy(Space::Memory), Arity::Fixed(3, 0))), // 10
    Some(("memory.fill", Shape::DefaultIndex(Space::Memory), Arity::Fixed(3, 0))), // 11
    Some(("table.init", Shape::Segment(Space::Elem, Space::Table), Arity::Fixed(3, 0))), // 12
    Some(("elem.drop", Shape::Index(Space::Elem), Arity::Fixed(0, 0))), // 13
    Some(("table.copy", Shape::Copy(Space::Table), Arity::Fixed(3, 0))), // 14
    Some(("table.grow", Shape::Index(Space::Table), Arity::Fixed(2, 1))), // 15
    Some(("table.size", Shape::Index(Space::Table), Arity::Fixed(0, 1))), // 16
    Some(("table.fill", Shape::Index(Space::Table), Arity::Fixed(3, 0))), // 17
    None, // 18
    Some(("i64.add128", Shape::None, Arity::Fixed(4, 2))), // 19
    Some(("i64.sub128", Shape::None, Arity::Fixed(4, 2))), // 20
    Some(("i64.mul_wide_s", Shape::None, Arity::Fixed(2, 2))), // 21
    Some(("i64.mul_wide_u", Shape::None, Arity::Fixed(2, 2))), // 22
];
