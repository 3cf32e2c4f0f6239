//! Function bodies like those of a compiler. They are valid, and between two steps all values on the stack have
//! type i32.

use crate::draws::Draws;
use crate::encoder::Encoder;
use std::alloc::{AllocError, Global};

/// The encoding of the type i32.
const I32: u8 = 0x7f;

/// The encoding of the type i64.
const I64: u8 = 0x7e;

/// The encoding of the type f32.
const F32: u8 = 0x7d;

/// The encoding of the type f64.
const F64: u8 = 0x7c;

/// The number of imported functions.
pub const IMPORTED: u32 = 12;

/// The number of globals, which all have type i32.
pub const GLOBALS: u32 = 6;

/// The number of locals of type i32 that each function declares.
const I32_LOCALS: u32 = 9;

/// The parameters and results of a function type.
pub type Signature = (&'static [u8], &'static [u8]);

/// The function types. `type_of` selects one for each function.
pub static SIGNATURES: [Signature; 24] = [
    (&[], &[]),
    (&[I32], &[]),
    (&[I32], &[I32]),
    (&[I32, I32], &[I32]),
    (&[I32, I32], &[]),
    (&[I32, I32, I32], &[I32]),
    (&[I32, I32, I32], &[]),
    (&[], &[I32]),
    (&[I32, I32, I32, I32], &[I32]),
    (&[I32, I64], &[I64]),
    (&[I32, I32, I32, I32], &[]),
    (&[F64], &[F64]),
    (&[I32, I64, I32], &[I64]),
    (&[I32, I32, I32, I32, I32], &[I32]),
    (&[F64, F64], &[F64]),
    (&[I64], &[I32]),
    (&[I32, F64], &[]),
    (&[I32, I32, I64], &[]),
    (&[F32, F32], &[F32]),
    (&[I64, I64], &[I64]),
    (&[I32], &[I64]),
    (&[I32], &[F64]),
    (&[I32, I32, I32, I32, I32, I32], &[I32]),
    (&[I32, F32, F32, F64, I64], &[I32]),
];

/// Returns the index of a function's type.
pub fn type_of(function: u32) -> u32 {
    let mixed = function.wrapping_mul(0x9e37_79b1) >> 16;
    let small = mixed % 24;
    if mixed & 0x1000 == 0 {
        small
    } else {
        small % 8
    }
}

/// Returns the type of a function.
pub fn signature_of(function: u32) -> Signature {
    SIGNATURES
        .get(type_of(function) as usize)
        .copied()
        .unwrap_or((&[], &[]))
}

/// Opcodes with one i32 operand and one i32 result.
const UNARY: [u8; 6] = [0x45, 0x45, 0x67, 0x69, 0xc0, 0xc1];

/// Opcodes with two i32 operands and one i32 result.
const BINARY: [u8; 22] = [
    0x6a, 0x6a, 0x6a, 0x6a, 0x6b, 0x6b, 0x6c, 0x71, 0x71, 0x72, 0x73, 0x74, 0x74, 0x75, 0x76, 0x46,
    0x47, 0x48, 0x49, 0x4d, 0x4f, 0x70,
];

/// Opcodes that load an i32, each with the exponent of its natural alignment.
const LOADS: [(u8, u32); 6] = [
    (0x28, 2),
    (0x28, 2),
    (0x28, 2),
    (0x2c, 0),
    (0x2d, 0),
    (0x2f, 1),
];

/// Opcodes that store an i32, each with the exponent of its natural alignment.
const STORES: [(u8, u32); 5] = [(0x36, 2), (0x36, 2), (0x36, 2), (0x3a, 0), (0x3b, 1)];

/// A bound that the number of open blocks never reaches.
const MOST_DEPTH: usize = 1000;

/// A bound that the number of parameters never reaches.
const MOST_PARAMS: usize = 100;

/// The nesting of bodies.
#[derive(Clone, Copy)]
pub struct Nesting {
    /// The maximum number of open blocks.
    pub depth: u32,
    /// The maximum number of labels of a branch table.
    pub labels: u32,
    /// The percentage of steps that open a block.
    pub share: u32,
}

/// A body under construction.
#[derive(Drop)]
pub struct Body {
    /// Its operators.
    code: Encoder,
    /// The number of functions of the module.
    functions: u32,
    /// The nesting of bodies.
    nesting: Nesting,
    /// The types of the parameters.
    params: &'static [u8],
    /// The number of values on the stack in the innermost block.
    height: u32,
    /// The heights at which the open blocks began.
    outer: Vec<u32>,
}

impl Body {
    /// Returns a generator of bodies for a module with this many functions.
    pub fn new(alloc: Global, functions: u32, nesting: Nesting) -> Body {
        Body {
            code: Encoder::new(alloc),
            functions,
            nesting,
            params: &[],
            height: 0,
            outer: Vec::new(alloc),
        }
    }

    /// Returns the number of open blocks.
    fn depth(&self) -> u32 {
        self.outer.len().min(MOST_DEPTH) as u32
    }

    /// Returns the index of a parameter or local of type i32.
    fn drawn_local(&self, draws: &mut Draws) -> u32 {
        let params = self.params.len().min(MOST_PARAMS) as u32;
        let drawn = draws.below(params.saturating_add(I32_LOCALS));
        match self.params.get(drawn as usize) {
            Some(kind) if *kind != I32 => params,
            _ => drawn,
        }
    }

    /// Returns a 32-bit number, distributed as in programs.
    fn drawn_number(draws: &mut Draws) -> i64 {
        match draws.below(8) {
            0 | 1 | 2 => i64::from(draws.below(10)),
            3 => i64::from(draws.below(256)),
            4 => i64::from(draws.within(1024, 66_000)),
            5 => i64::from(draws.within(1_048_576, 1_200_000)),
            6 => !i64::from(draws.small(4096)),
            _ => i64::from(draws.word().cast_signed()),
        }
    }

    /// Writes a constant of type i32.
    fn constant(&mut self, draws: &mut Draws) -> Result<(), AllocError> {
        self.code.byte(0x41)?;
        self.code.signed(Body::drawn_number(draws))
    }

    /// Returns the bits of a finite f64, some of them with few significant bits.
    fn drawn_double(draws: &mut Draws) -> u64 {
        let exponent = u64::from(draws.within(1003, 1043)) << 52;
        let mantissa = draws.number() >> 12;
        let sign = u64::from(draws.one_in(5)) << 63;
        if draws.one_in(2) {
            sign | exponent | (mantissa & 0xf_0000_0000_0000)
        } else {
            sign | exponent | mantissa
        }
    }

    /// Writes a value of this type.
    fn value_of(&mut self, draws: &mut Draws, kind: u8) -> Result<(), AllocError> {
        match kind {
            I64 => {
                self.code.byte(0x42)?;
                let wide = draws.number().cast_signed();
                self.code.signed(wide.wrapping_shr(draws.within(8, 60)))
            }
            F32 => {
                self.code.byte(0x43)?;
                let bits = 0x3f80_0000 ^ draws.below(0x0080_0000);
                self.code.all(&bits.to_le_bytes())
            }
            F64 => {
                self.code.byte(0x44)?;
                self.code.all(&Body::drawn_double(draws).to_le_bytes())
            }
            _ => self.plain_value(draws),
        }
    }

    /// Converts a value of this type to i32.
    fn as_i32(&mut self, kind: u8) -> Result<(), AllocError> {
        match kind {
            I64 => self.code.byte(0xa7),
            F32 => self.code.all(&[0xfc, 0x00]),
            F64 => self.code.all(&[0xfc, 0x02]),
            _ => Ok(()),
        }
    }

    /// Writes a local, a global or a constant of type i32.
    fn plain_value(&mut self, draws: &mut Draws) -> Result<(), AllocError> {
        match draws.below(16) {
            0 | 1 | 2 | 3 => self.constant(draws),
            4 => {
                self.code.byte(0x23)?;
                self.code.index(draws.small(GLOBALS))
            }
            _ => {
                self.code.byte(0x20)?;
                let local = self.drawn_local(draws);
                self.code.index(local)
            }
        }
    }

    /// Pushes a value of type i32 onto the stack.
    fn value(&mut self, draws: &mut Draws) -> Result<(), AllocError> {
        self.height = self.height.saturating_add(1);
        let kind = match draws.below(24) {
            0 => I64,
            1 => F64,
            2 => F32,
            _ => I32,
        };
        self.value_of(draws, kind)?;
        self.as_i32(kind)
    }

    /// Writes a memory operand with this alignment.
    fn operand(&mut self, draws: &mut Draws, exponent: u32) -> Result<(), AllocError> {
        self.code.index(exponent)?;
        let offset = match draws.below(8) {
            0 => draws.below(66_000),
            1 | 2 => 0,
            _ => draws.below(32).wrapping_shl(exponent),
        };
        self.code.index(offset)
    }

    /// Writes an operator with one operand and one result.
    fn unary(&mut self, draws: &mut Draws) -> Result<(), AllocError> {
        if draws.one_in(3) {
            return self.code.byte(draws.pick(&UNARY, 0x45));
        }
        let (opcode, exponent) = draws.pick(&LOADS, (0x28, 2));
        self.code.byte(opcode)?;
        self.operand(draws, exponent)
    }

    /// Writes an operator with two operands and one result.
    fn binary(&mut self, draws: &mut Draws) -> Result<(), AllocError> {
        self.height = self.height.saturating_sub(1);
        self.code.byte(draws.pick(&BINARY, 0x6a))
    }

    /// Stores the top value in a local.
    fn keep(&mut self, draws: &mut Draws) -> Result<(), AllocError> {
        if draws.one_in(3) {
            self.code.byte(0x22)?;
        } else {
            self.height = self.height.saturating_sub(1);
            self.code.byte(0x21)?;
        }
        let local = self.drawn_local(draws);
        self.code.index(local)
    }

    /// Stores the top value in memory.
    fn store(&mut self, draws: &mut Draws) -> Result<(), AllocError> {
        self.height = self.height.saturating_sub(2);
        let (opcode, exponent) = draws.pick(&STORES, (0x36, 2));
        self.code.byte(opcode)?;
        self.operand(draws, exponent)
    }

    /// Calls a function, by its index or through the table.
    fn call(&mut self, draws: &mut Draws) -> Result<(), AllocError> {
        let function = draws.small(self.functions);
        let (params, results) = signature_of(function);
        for &kind in params {
            self.value_of(draws, kind)?;
        }
        if draws.one_in(8) {
            self.plain_value(draws)?;
            self.code.byte(0x11)?;
            self.code.index(type_of(function))?;
            self.code.byte(0)?;
        } else {
            self.code.byte(0x10)?;
            self.code.index(function)?;
        }
        for &kind in results {
            self.height = self.height.saturating_add(1);
            self.as_i32(kind)?;
        }
        Ok(())
    }

    /// Opens a block.
    fn open(&mut self, draws: &mut Draws) -> Result<(), AllocError> {
        let opcode = draws.pick(&[0x02, 0x02, 0x03, 0x04], 0x02);
        if opcode == 0x04 {
            self.plain_value(draws)?;
        }
        self.outer.push(self.height)?;
        self.height = 0;
        self.code.all(&[opcode, 0x40])
    }

    /// Drops the values on the stack in the innermost block.
    fn clear(&mut self) -> Result<(), AllocError> {
        for _ in 0..self.height {
            self.code.byte(0x1a)?;
        }
        self.height = 0;
        Ok(())
    }

    /// Closes the innermost block, if one is open.
    fn close(&mut self) -> Result<(), AllocError> {
        if let Some(height) = self.outer.pop() {
            self.clear()?;
            self.height = height;
            self.code.byte(0x0b)?;
        }
        Ok(())
    }

    /// Branches on a value. With many open blocks the branch may use a table.
    fn branch(&mut self, draws: &mut Draws) -> Result<(), AllocError> {
        let depth = self.depth();
        if depth == 0 {
            return self.value(draws);
        }
        self.plain_value(draws)?;
        if !draws.one_in(12) {
            self.code.byte(0x0d)?;
            return self.code.index(draws.small(depth));
        }
        self.clear()?;
        self.plain_value(draws)?;
        self.code.byte(0x0e)?;
        let labels = draws.within(2, self.nesting.labels);
        self.code.index(labels)?;
        for _ in 0..labels {
            self.code.index(draws.below(depth))?;
        }
        self.code.index(draws.below(depth))
    }

    /// Writes one step. The stack must have enough values for it.
    fn step(&mut self, draws: &mut Draws) -> Result<(), AllocError> {
        let roll = draws.below(100);
        if roll < self.nesting.share {
            return if self.depth() < self.nesting.depth {
                self.open(draws)
            } else {
                self.close()
            };
        }
        match (self.height, roll) {
            (_, 0..30) => self.value(draws),
            (1.., 30..44) => self.unary(draws),
            (2.., 44..62) => self.binary(draws),
            (1.., 62..76) => self.keep(draws),
            (2.., 76..84) => self.store(draws),
            (_, 84..91) => self.call(draws),
            (_, 91..95) => self.close(),
            (_, 95..100) => self.branch(draws),
            _ => self.value(draws),
        }
    }

    /// Writes the declared locals.
    fn declare(&mut self, draws: &mut Draws) -> Result<(), AllocError> {
        self.code.byte(3)?;
        self.code.index(I32_LOCALS)?;
        self.code.byte(I32)?;
        self.code.index(draws.within(1, 4))?;
        self.code.byte(I64)?;
        self.code.index(draws.within(1, 3))?;
        self.code.byte(F64)
    }

    /// Generates the body of a function with this many steps, and appends it to the code of a module.
    pub fn append(
        &mut self,
        draws: &mut Draws,
        function: u32,
        steps: u32,
        bodies: &mut Encoder,
    ) -> Result<(), AllocError> {
        let (params, results) = signature_of(function);
        self.code.clear();
        self.outer.clear();
        self.height = 0;
        self.params = params;
        self.declare(draws)?;
        for _ in 0..steps {
            self.step(draws)?;
        }
        for _ in 0..self.depth() {
            self.close()?;
        }
        self.clear()?;
        for &kind in results {
            self.value_of(draws, kind)?;
        }
        self.code.byte(0x0b)?;
        bodies.sized(self.code.bytes())
    }
}
