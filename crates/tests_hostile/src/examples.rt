//! Worked examples with the calls on a printer, flat and folded. Folded operators have no styles, since the printer
//! supports no colors within text.

use crate::layout::Layout;
use wasmprinter::Error;
use wasmprinter_samples::expected_calls::{
    CUSTOMS_CALLS, CUT_CALLS, GLOBAL_FOLDED, HINTED_FOLDED, IDENTITY_FOLDED, MEMORY_CALLS,
    PRODUCERS_CALLS, UNKNOWN_CALLS,
};
use wasmprinter_samples::{
    CUSTOMS_AROUND_A_MEMORY, DYLINK_CUT, DYLINK_MEMORY, DYLINK_UNKNOWN, GLOBAL_BLOCK, HINTED_IF,
    IDENTITY, IDENTITY_CALLS, RAW_PRODUCERS,
};

/// The result of printing an example.
#[derive(Clone, Copy)]
pub enum Ending {
    /// The whole module is printed.
    Printed,
    /// The module is refused for a `dylink.0` subsection with this id.
    UnknownSubsection(u8),
}

impl Ending {
    /// Returns whether a result is this one.
    pub fn is_of(self, printed: &Result<(), Error>) -> bool {
        match (self, printed) {
            (Ending::Printed, Ok(())) => true,
            (Ending::UnknownSubsection(wanted), Err(Error::DylinkSubsection { id })) => {
                *id == wanted
            }
            _ => false,
        }
    }
}

/// A module, with the calls and the result of printing it.
pub struct Example {
    pub name: &'static str,
    pub wasm: &'static [u8],
    /// All calls if operators are printed flat.
    pub flat: &'static str,
    /// All calls if operators are folded.
    pub folded: &'static str,
    pub ending: Ending,
}

impl Example {
    /// Returns all calls in a layout.
    pub fn calls(&self, layout: Layout) -> &'static str {
        match layout {
            Layout::Flat => self.flat,
            Layout::Folded => self.folded,
        }
    }
}

pub const EXAMPLES: &[Example] = &[
    Example {
        name: "identity",
        wasm: IDENTITY,
        flat: IDENTITY_CALLS,
        folded: IDENTITY_FOLDED,
        ending: Ending::Printed,
    },
    Example {
        name: "global with a block",
        wasm: GLOBAL_BLOCK,
        flat: GLOBAL_FLAT,
        folded: GLOBAL_FOLDED,
        ending: Ending::Printed,
    },
    Example {
        name: "if with a hint",
        wasm: HINTED_IF,
        flat: HINTED_FLAT,
        folded: HINTED_FOLDED,
        ending: Ending::Printed,
    },
    Example {
        name: "custom sections around a memory",
        wasm: CUSTOMS_AROUND_A_MEMORY,
        flat: CUSTOMS_CALLS,
        folded: CUSTOMS_CALLS,
        ending: Ending::Printed,
    },
    Example {
        name: "raw producers",
        wasm: RAW_PRODUCERS,
        flat: PRODUCERS_CALLS,
        folded: PRODUCERS_CALLS,
        ending: Ending::Printed,
    },
    Example {
        name: "dylink.0 with a memory",
        wasm: DYLINK_MEMORY,
        flat: MEMORY_CALLS,
        folded: MEMORY_CALLS,
        ending: Ending::Printed,
    },
    Example {
        name: "dylink.0 that is cut",
        wasm: DYLINK_CUT,
        flat: CUT_CALLS,
        folded: CUT_CALLS,
        ending: Ending::Printed,
    },
    Example {
        name: "dylink.0 with an unknown subsection",
        wasm: DYLINK_UNKNOWN,
        flat: UNKNOWN_CALLS,
        folded: UNKNOWN_CALLS,
        ending: Ending::UnknownSubsection(9),
    },
];

const GLOBAL_FLAT: &str = "[0x0]({K}module{R}
[0xb]  ({K}global {R}{N}(;0;){R} {T}i32{R} block ({K}result {R}{T}i32{R}) {C} (; label = @1 ;){R} i32.const{L} 1{R} end)
[0x13])
";

/// The calls of `HINTED_IF` if its operators are printed flat.
pub const HINTED_FLAT: &str = r#"[0x0]({K}module{R}
[0xb]  ({K}type {R}{N}(;0;){R} ({K}func{R} ({K}param{R} {T}i32{R}))){? "metadata.code.branch_hint" 0x2f [1, 0, 1, 3, 1, 1]}
[0x39]  ({K}func {R}{N}(;0;){R} ({K}type {R}{N}0{R}) ({K}param{R} {T}i32{R})
[0x3a]    local.get {N}0{R}
[0x32]    {C}(@metadata.code.branch_hint "\\01"){R}
[0x3c]    if {C};; label = @1{R}
[0x3e]    end
[0x3f]  )
[0x40])
"#;
