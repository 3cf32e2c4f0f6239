//! Small modules with features of newer versions of the standard: vectors, atomic accesses, structures and arrays,
//! references, exceptions, tail calls, several memories. They are well formed. A printer does not require that
//! they are valid.

use crate::compiled::HEADER;
use crate::draws::Draws;
use crate::encoder::Encoder;
use crate::names::inner_name;
use std::alloc::{AllocError, Global};

/// The kind of an operator's immediates.
#[derive(Clone, Copy)]
enum After {
    /// No immediates.
    Nothing,
    /// A small index.
    Index,
    /// Two small indices.
    Indices,
    /// A memory operand with this alignment.
    Memory(u32),
    /// A memory operand with this alignment, and a lane.
    MemoryLane(u32),
    /// A lane.
    Lane,
    /// A vector.
    Vector,
    /// Sixteen lanes.
    Lanes,
    /// The bits of an f32.
    Single,
    /// The bits of an f64.
    Double,
    /// A 64-bit number.
    Wide,
    /// A heap type.
    Heap,
    /// The flags, the label and the heap types of a cast.
    Cast,
    /// A list of value types.
    Types,
    /// A byte 00.
    Zero,
}

/// Operators: the bytes of the opcode, and the kind of the immediates.
#[rattlefmt::skip]
static OPERATORS: [(&[u8], After); 112] = [
    (&[0x00], After::Nothing), (&[0x01], After::Nothing), (&[0x08], After::Index),
    (&[0x0a], After::Nothing), (&[0x0c], After::Index), (&[0x0d], After::Index),
    (&[0x0f], After::Nothing), (&[0x10], After::Index), (&[0x11], After::Indices),
    (&[0x12], After::Index), (&[0x13], After::Indices), (&[0x14], After::Index),
    (&[0x15], After::Index), (&[0x1a], After::Nothing), (&[0x1b], After::Nothing),
    (&[0x1c], After::Types), (&[0x20], After::Index), (&[0x20], After::Index),
    (&[0x21], After::Index), (&[0x22], After::Index), (&[0x23], After::Index),
    (&[0x24], After::Index), (&[0x25], After::Index), (&[0x26], After::Index),
    (&[0x29], After::Memory(3)), (&[0x2a], After::Memory(2)), (&[0x2b], After::Memory(3)),
    (&[0x37], After::Memory(3)), (&[0x3f], After::Zero), (&[0x40], After::Zero),
    (&[0x42], After::Wide), (&[0x43], After::Single), (&[0x44], After::Double),
    (&[0x7c], After::Nothing), (&[0x92], After::Nothing), (&[0xa0], After::Nothing),
    (&[0xa2], After::Nothing), (&[0xac], After::Nothing), (&[0xb7], After::Nothing),
    (&[0xbd], After::Nothing), (&[0xc4], After::Nothing), (&[0xd0], After::Heap),
    (&[0xd1], After::Nothing), (&[0xd2], After::Index), (&[0xd3], After::Nothing),
    (&[0xd4], After::Nothing), (&[0xd5], After::Index), (&[0xd6], After::Index),
    (&[0xfb, 0x00], After::Index), (&[0xfb, 0x01], After::Index), (&[0xfb, 0x02], After::Indices),
    (&[0xfb, 0x03], After::Indices), (&[0xfb, 0x05], After::Indices), (&[0xfb, 0x06], After::Index),
    (&[0xfb, 0x08], After::Indices), (&[0xfb, 0x09], After::Indices), (&[0xfb, 0x0b], After::Index),
    (&[0xfb, 0x0e], After::Index), (&[0xfb, 0x0f], After::Nothing), (&[0xfb, 0x11], After::Indices),
    (&[0xfb, 0x14], After::Heap), (&[0xfb, 0x16], After::Heap), (&[0xfb, 0x17], After::Heap),
    (&[0xfb, 0x18], After::Cast), (&[0xfb, 0x19], After::Cast), (&[0xfb, 0x1a], After::Nothing),
    (&[0xfb, 0x1c], After::Nothing), (&[0xfb, 0x1d], After::Nothing), (&[0xfc, 0x00], After::Nothing),
    (&[0xfc, 0x06], After::Nothing), (&[0xfc, 0x08], After::Indices), (&[0xfc, 0x09], After::Index),
    (&[0xfc, 0x0a], After::Indices), (&[0xfc, 0x0b], After::Index), (&[0xfc, 0x0c], After::Indices),
    (&[0xfc, 0x0d], After::Index), (&[0xfc, 0x0e], After::Indices), (&[0xfc, 0x0f], After::Index),
    (&[0xfc, 0x10], After::Index), (&[0xfc, 0x11], After::Index), (&[0xfd, 0x00], After::Memory(4)),
    (&[0xfd, 0x01], After::Memory(3)), (&[0xfd, 0x0b], After::Memory(4)), (&[0xfd, 0x0c], After::Vector),
    (&[0xfd, 0x0d], After::Lanes), (&[0xfd, 0x0f], After::Nothing), (&[0xfd, 0x11], After::Nothing),
    (&[0xfd, 0x15], After::Lane), (&[0xfd, 0x1b], After::Lane), (&[0xfd, 0x21], After::Lane),
    (&[0xfd, 0x23], After::Nothing), (&[0xfd, 0x4d], After::Nothing), (&[0xfd, 0x52], After::Nothing),
    (&[0xfd, 0x54], After::MemoryLane(0)), (&[0xfd, 0x57], After::MemoryLane(3)), (&[0xfd, 0x5a], After::MemoryLane(2)),
    (&[0xfd, 0x5c], After::Memory(2)), (&[0xfd, 0x6e], After::Nothing), (&[0xfd, 0xae, 0x01], After::Nothing),
    (&[0xfd, 0xb5, 0x01], After::Nothing), (&[0xfd, 0xe4, 0x01], After::Nothing), (&[0xfd, 0xf0, 0x01], After::Nothing),
    (&[0xfd, 0x80, 0x02], After::Nothing), (&[0xfd, 0x87, 0x02], After::Nothing), (&[0xfe, 0x00], After::Memory(2)),
    (&[0xfe, 0x01], After::Memory(2)), (&[0xfe, 0x03], After::Zero), (&[0xfe, 0x10], After::Memory(2)),
    (&[0xfe, 0x11], After::Memory(3)), (&[0xfe, 0x17], After::Memory(2)), (&[0xfe, 0x1e], After::Memory(2)),
    (&[0xfe, 0x48], After::Memory(2)),
];

/// Heap types, some of them indices.
const HEAPS: [u8; 8] = [0x70, 0x6f, 0x6e, 0x6b, 0x6c, 0x00, 0x01, 0x02];

/// The starts of blocks: the bytes of the opcode, of the block type, and of catch clauses.
const OPENS: [&[u8]; 8] = [
    &[0x02, 0x40],
    &[0x02, 0x7f],
    &[0x03, 0x40],
    &[0x02, 0x03],
    &[0x04, 0x40],
    &[0x02, 0x63, 0x6e],
    &[0x1f, 0x40, 0x02, 0x00, 0x00, 0x00, 0x02, 0x00],
    &[0x03, 0x04],
];

/// A recursion group of an extensible structure and an array, a structure that extends the first, and function
/// types.
const TYPES: [u8; 47] = [
    0x06, // six entries
    0x4e, 0x02, 0x50, 0x00, 0x5f, 0x02, 0x7f, 0x01, 0x63, 0x00, 0x00, 0x5e, 0x78, 0x01, // a recursion group
    0x4f, 0x01, 0x00, 0x5f, 0x03, 0x7f, 0x01, 0x63, 0x00, 0x00, 0x7e, 0x01, // a structure with a supertype
    0x60, 0x02, 0x7f, 0x7f, 0x01, 0x7f, // a function type
    0x60, 0x01, 0x64, 0x01, 0x02, 0x63, 0x6e, 0x7b, // a function type with references
    0x60, 0x00, 0x00, // a function type without parameters and results
    0x60, 0x01, 0x7f, // the type of a tag, up to its results
];

/// The bytes after the names of an import, for each kind: a function, a table, a memory, a global, a tag.
const IMPORTS: [&[u8]; 5] = [
    &[0x00, 0x05],
    &[0x01, 0x63, 0x00, 0x00, 0x08],
    &[0x02, 0x03, 0x01, 0x10],
    &[0x03, 0x63, 0x01, 0x00],
    &[0x04, 0x00, 0x06],
];

/// Globals: a null reference, a vector, a new structure, and a sum.
const GLOBALS: [&[u8]; 4] = [
    &[0x6e, 0x00, 0xd0, 0x71, 0x0b],
    &[
        0x7b, 0x01, 0xfd, 0x0c, 1, 2, 3, 4, 5, 6, 7, 8, 9, 10, 11, 12, 13, 14, 15, 16, 0x0b,
    ],
    &[0x64, 0x02, 0x00, 0xfb, 0x01, 0x02, 0x0b],
    &[0x7f, 0x00, 0x41, 0x05, 0x41, 0x7e, 0x6a, 0x0b],
];

/// Element segments: active, passive and declared, with indices and with expressions.
const ELEMENTS: [&[u8]; 4] = [
    &[0x00, 0x41, 0x01, 0x0b, 0x02, 0x00, 0x01],
    &[0x01, 0x00, 0x01, 0x00],
    &[0x03, 0x00, 0x02, 0x01, 0x00],
    &[0x05, 0x70, 0x02, 0xd2, 0x00, 0x0b, 0xd0, 0x70, 0x0b],
];

/// The maximum number of functions of a module.
const MOST_FUNCTIONS: u32 = 12;

/// Appends a list of this many items, drawn from these.
fn list(
    draws: &mut Draws,
    count: u32,
    from: &[&'static [u8]],
    content: &mut Encoder,
) -> Result<(), AllocError> {
    content.index(count)?;
    for _ in 0..count {
        content.all(draws.pick(from, &[]))?;
    }
    Ok(())
}

/// Appends sixteen bytes below this limit.
fn sixteen(draws: &mut Draws, limit: u32, code: &mut Encoder) -> Result<(), AllocError> {
    for _ in 0..16 {
        code.byte(draws.byte(limit))?;
    }
    Ok(())
}

/// Appends a memory operand with this alignment.
fn operand(draws: &mut Draws, exponent: u32, code: &mut Encoder) -> Result<(), AllocError> {
    if draws.one_in(6) {
        code.index(exponent | 0x40)?;
        code.byte(1)?;
    } else {
        code.index(exponent)?;
    }
    code.index(draws.small(100_000))
}

/// Appends the flags, the label and the heap types of a cast.
fn cast(draws: &mut Draws, code: &mut Encoder) -> Result<(), AllocError> {
    code.byte(draws.byte(4))?;
    code.index(draws.below(3))?;
    code.byte(draws.pick(&HEAPS, 0x70))?;
    code.byte(draws.pick(&HEAPS, 0x70))
}

/// Appends immediates of this kind.
fn immediates(draws: &mut Draws, after: After, code: &mut Encoder) -> Result<(), AllocError> {
    match after {
        After::Nothing => Ok(()),
        After::Index => code.index(draws.small(12)),
        After::Indices => {
            code.index(draws.small(7))?;
            code.index(draws.small(3))
        }
        After::Memory(exponent) => operand(draws, exponent, code),
        After::MemoryLane(exponent) => {
            operand(draws, exponent, code)?;
            code.byte(draws.byte(2))
        }
        After::Lane => code.byte(draws.byte(2)),
        After::Vector => sixteen(draws, 256, code),
        After::Lanes => sixteen(draws, 32, code),
        After::Single => code.all(&draws.word().to_le_bytes()),
        After::Double => code.all(&draws.number().to_le_bytes()),
        After::Wide => code.signed(draws.number().cast_signed()),
        After::Heap => code.byte(draws.pick(&HEAPS, 0x70)),
        After::Cast => cast(draws, code),
        After::Types => code.all(&[1, 0x7b]),
        After::Zero => code.byte(0),
    }
}

/// Appends the operators of a body, with an `end` for each block.
fn operators(draws: &mut Draws, steps: u32, code: &mut Encoder) -> Result<(), AllocError> {
    let mut depth: u32 = 0;
    for _ in 0..steps {
        match draws.below(16) {
            0 | 1 => {
                depth = depth.saturating_add(1);
                code.all(draws.pick(&OPENS, &[0x02, 0x40]))?;
            }
            2 if depth > 0 => {
                depth -= 1;
                code.byte(0x0b)?;
            }
            _ => {
                let (opcode, after) = draws.pick(&OPERATORS, (&[0x01], After::Nothing));
                code.all(opcode)?;
                immediates(draws, after, code)?;
            }
        }
    }
    for _ in 0..depth {
        code.byte(0x0b)?;
    }
    code.byte(0x0b)
}

/// Appends this many bodies.
fn bodies(
    alloc: Global,
    draws: &mut Draws,
    count: u32,
    content: &mut Encoder,
) -> Result<(), AllocError> {
    let mut body = Encoder::new(alloc);
    content.index(count)?;
    for _ in 0..count {
        body.clear();
        body.all(&[0x02, 0x02, 0x7f, 0x01, 0x63, 0x01])?;
        let steps = draws.within(5, 120);
        operators(draws, steps, &mut body)?;
        content.sized(body.bytes())?;
    }
    Ok(())
}

/// Appends this many imports.
fn imports(draws: &mut Draws, count: u32, content: &mut Encoder) -> Result<(), AllocError> {
    content.index(count)?;
    for _ in 0..count {
        content.sized(b"spectest")?;
        content.sized(
            draws
                .pick(&["print_i32", "memory", "größe", "a \"b\""], "x")
                .as_bytes(),
        )?;
        content.all(draws.pick(&IMPORTS, &[0x00, 0x05]))?;
    }
    Ok(())
}

/// Appends names for this many items of a kind.
fn names(
    alloc: Global,
    draws: &mut Draws,
    number: u8,
    count: u32,
    content: &mut Encoder,
) -> Result<(), AllocError> {
    let mut names = Encoder::new(alloc);
    let mut name = Encoder::new(alloc);
    names.index(count)?;
    for index in 0..count {
        name.clear();
        inner_name(draws, index, &mut name)?;
        names.index(index)?;
        names.sized(name.bytes())?;
    }
    content.section(number, &names)
}

/// Appends the name section.
fn custom_names(
    alloc: Global,
    draws: &mut Draws,
    functions: u32,
    module: &mut Encoder,
) -> Result<(), AllocError> {
    let mut content = Encoder::new(alloc);
    content.sized(b"name")?;
    names(alloc, draws, 1, functions, &mut content)?;
    names(alloc, draws, 4, 7, &mut content)?;
    names(alloc, draws, 7, 3, &mut content)?;
    module.section(0, &content)
}

/// Appends the sections before the code section, for this many functions.
fn front(
    alloc: Global,
    draws: &mut Draws,
    functions: u32,
    module: &mut Encoder,
) -> Result<(), AllocError> {
    let mut content = Encoder::new(alloc);
    content.all(&TYPES)?;
    content.byte(0)?;
    module.section(1, &content)?;
    content.clear();
    let count = draws.below(8);
    imports(draws, count, &mut content)?;
    module.section(2, &content)?;
    content.clear();
    content.index(functions)?;
    for _ in 0..functions {
        content.byte(draws.pick(&[0x03, 0x04, 0x05], 0x05))?;
    }
    module.section(3, &content)?;
    module.section_of(4, &[0x02, 0x70, 0x00, 0x0a, 0x64, 0x01, 0x01, 0x01, 0x10])?;
    module.section_of(5, &[0x02, 0x01, 0x01, 0x02, 0x04, 0x03])?;
    module.section_of(13, &[0x01, 0x00, 0x06])?;
    content.clear();
    let count = draws.below(6);
    list(draws, count, &GLOBALS, &mut content)?;
    module.section(6, &content)?;
    content.clear();
    let count = draws.below(5);
    list(draws, count, &ELEMENTS, &mut content)?;
    module.section(9, &content)?;
    module.section_of(12, &[0x01])
}

/// Returns a module.
pub fn module(alloc: Global, draws: &mut Draws) -> Result<Encoder, AllocError> {
    let mut module = Encoder::new(alloc);
    let mut content = Encoder::new(alloc);
    let functions = draws.within(1, MOST_FUNCTIONS);
    module.all(&HEADER)?;
    front(alloc, draws, functions, &mut module)?;
    bodies(alloc, draws, functions, &mut content)?;
    module.section(10, &content)?;
    module.section_of(11, b"\x01\x01\x0dHello, wasm!\n")?;
    if draws.one_in(2) {
        custom_names(alloc, draws, functions, &mut module)?;
    }
    Ok(module)
}
