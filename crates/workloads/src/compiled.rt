//! Modules like those of a compiler.

use crate::body::{Body, GLOBALS, IMPORTED, Nesting, SIGNATURES, type_of};
use crate::debug::{customs, table, texts};
use crate::draws::Draws;
use crate::encoder::Encoder;
use crate::names::{Style, decimal, function_name, inner_name};
use std::alloc::{AllocError, Global};

/// The properties of a module to generate.
#[derive(Clone, Copy)]
pub struct Plan {
    /// The number of functions that it defines.
    pub functions: u32,
    /// The nesting of its functions.
    pub nesting: Nesting,
    /// The style of its function names.
    pub style: Style,
    /// Whether types, locals, labels and all other items have names too.
    pub names_all: bool,
    /// Whether it has debug information.
    pub debug: bool,
}

impl Plan {
    /// Returns the number of functions, including the imported ones.
    fn all_functions(&self) -> u32 {
        self.functions.saturating_add(IMPORTED)
    }
}

/// The preamble of all modules.
pub const HEADER: [u8; 8] = *b"\0asm\x01\0\0\0";

/// A module under construction.
#[derive(Drop)]
struct Making {
    alloc: Global,
    plan: Plan,
    draws: Draws,
    /// The completed sections.
    module: Encoder,
    /// The contents of the current section.
    content: Encoder,
}

impl Making {
    /// Ends the current section.
    fn end_section(&mut self, number: u8) -> Result<(), AllocError> {
        self.module.section(number, &self.content)?;
        self.content.clear();
        Ok(())
    }

    /// Writes the function types.
    fn types(&mut self) -> Result<(), AllocError> {
        self.content.index(SIGNATURES.len() as u32)?;
        for (params, results) in &SIGNATURES {
            self.content.byte(0x60)?;
            self.content.sized(params)?;
            self.content.sized(results)?;
        }
        self.end_section(1)
    }

    /// Writes the imported functions.
    fn imports(&mut self) -> Result<(), AllocError> {
        self.content.index(IMPORTED)?;
        for function in 0..IMPORTED {
            self.content.sized(b"env")?;
            let mut name = Encoder::new(self.alloc);
            name.all(b"host_")?;
            decimal(function, &mut name)?;
            self.content.sized(name.bytes())?;
            self.content.byte(0)?;
            self.content.index(type_of(function))?;
        }
        self.end_section(2)
    }

    /// Writes the types of the functions, a table, a memory and globals.
    fn declarations(&mut self) -> Result<(), AllocError> {
        self.content.index(self.plan.functions)?;
        for function in IMPORTED..self.plan.all_functions() {
            self.content.index(type_of(function))?;
        }
        self.end_section(3)?;
        self.content.all(&[1, 0x70, 0])?;
        self.content.index(self.plan.all_functions())?;
        self.end_section(4)?;
        self.content.all(&[1, 0, 17])?;
        self.end_section(5)?;
        self.content.index(GLOBALS)?;
        for global in 0..GLOBALS {
            self.content.all(&[0x7f, 1, 0x41])?;
            self.content.signed(i64::from(global) * 65536)?;
            self.content.byte(0x0b)?;
        }
        self.end_section(6)
    }

    /// Exports the memory and every twentieth function.
    fn exports(&mut self) -> Result<(), AllocError> {
        let count = self.plan.functions / 20;
        self.content.index(count.saturating_add(1))?;
        self.content.sized(b"memory")?;
        self.content.all(&[2, 0])?;
        for number in 0..count {
            let mut name = Encoder::new(self.alloc);
            name.all(b"export_")?;
            decimal(number, &mut name)?;
            self.content.sized(name.bytes())?;
            self.content.byte(0)?;
            self.content.index(number.wrapping_mul(20))?;
        }
        self.end_section(7)
    }

    /// Writes an element segment with a third of the functions.
    fn elements(&mut self) -> Result<(), AllocError> {
        let count = self.plan.functions / 3;
        self.content.all(&[1, 0, 0x41, 1, 0x0b])?;
        self.content.index(count)?;
        for number in 0..count {
            self.content.index(number.wrapping_mul(3))?;
        }
        self.end_section(9)
    }

    /// Writes the bodies.
    fn code(&mut self) -> Result<(), AllocError> {
        let mut body = Body::new(self.alloc, self.plan.all_functions(), self.plan.nesting);
        self.content.index(self.plan.functions)?;
        for function in IMPORTED..self.plan.all_functions() {
            let steps = self
                .draws
                .within(10, 80)
                .saturating_add(self.draws.small(200));
            body.append(&mut self.draws, function, steps, &mut self.content)?;
        }
        self.end_section(10)
    }

    /// Writes a data segment at this address.
    fn segment(&mut self, address: u32, data: &mut Encoder) -> Result<(), AllocError> {
        data.clear();
        if self.draws.one_in(2) {
            let count = self.draws.within(1, 60);
            texts(&mut self.draws, count, data)?;
        } else {
            let len = self.draws.within(16, 3000);
            table(&mut self.draws, len as usize, data)?;
        }
        self.content.all(&[0, 0x41])?;
        self.content.signed(i64::from(address))?;
        self.content.byte(0x0b)?;
        self.content.sized(data.bytes())
    }

    /// Writes the data segments, one for every forty functions.
    fn data(&mut self) -> Result<(), AllocError> {
        let count = self.plan.functions / 40;
        let mut data = Encoder::new(self.alloc);
        self.content.index(count)?;
        for number in 0..count {
            self.segment(number.wrapping_mul(8192).wrapping_add(1024), &mut data)?;
        }
        self.end_section(11)
    }

    /// Writes names for this many items of a kind other than functions.
    fn names_of(&mut self, number: u8, count: u32) -> Result<(), AllocError> {
        let mut names = Encoder::new(self.alloc);
        let mut name = Encoder::new(self.alloc);
        names.index(count)?;
        for index in 0..count {
            name.clear();
            inner_name(&mut self.draws, index, &mut name)?;
            names.index(index)?;
            names.sized(name.bytes())?;
        }
        self.content.section(number, &names)
    }

    /// Writes names for this many items in each function. The first item comes after the function's parameters.
    fn names_inside(&mut self, number: u8, count: u32) -> Result<(), AllocError> {
        let mut names = Encoder::new(self.alloc);
        let mut name = Encoder::new(self.alloc);
        names.index(self.plan.functions)?;
        for function in IMPORTED..self.plan.all_functions() {
            names.index(function)?;
            names.index(count)?;
            for index in 0..count {
                name.clear();
                inner_name(&mut self.draws, index, &mut name)?;
                names.index(index)?;
                names.sized(name.bytes())?;
            }
        }
        self.content.section(number, &names)
    }

    /// Writes the name section.
    fn names(&mut self) -> Result<(), AllocError> {
        let mut names = Encoder::new(self.alloc);
        let mut name = Encoder::new(self.alloc);
        names.index(self.plan.all_functions())?;
        for function in 0..self.plan.all_functions() {
            name.clear();
            function_name(&mut self.draws, self.plan.style, function, &mut name)?;
            names.index(function)?;
            names.sized(name.bytes())?;
        }
        self.content.sized(b"name")?;
        self.content.section(1, &names)?;
        if self.plan.names_all {
            self.names_inside(2, 12)?;
            self.names_inside(3, 6)?;
            self.names_of(4, SIGNATURES.len() as u32)?;
        }
        self.names_of(7, GLOBALS)?;
        self.end_section(0)
    }

    /// Writes all sections.
    fn make(&mut self) -> Result<(), AllocError> {
        self.module.all(&HEADER)?;
        self.types()?;
        self.imports()?;
        self.declarations()?;
        self.exports()?;
        self.elements()?;
        self.code()?;
        self.data()?;
        self.names()?;
        customs(
            self.alloc,
            &mut self.draws,
            self.plan.functions,
            self.plan.debug,
            &mut self.module,
        )
    }
}

/// Returns a module with these properties.
pub fn module(alloc: Global, draws: Draws, plan: Plan) -> Result<Encoder, AllocError> {
    let mut making = Making {
        alloc,
        plan,
        draws,
        module: Encoder::new(alloc),
        content: Encoder::new(alloc),
    };
    making.make()?;
    let Making { module, .. } = making;
    Ok(module)
}
