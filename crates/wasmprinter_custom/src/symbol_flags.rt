//! The flags of symbols (tool conventions, "Linking").
ghost use Rattle.std.specs.Prelude.{◌≡◌, map};
ghost use Rattle.wasmprinter_spec.specs.Layout.Customs.{flag_words};
ghost use Rattle.wasmprinter_custom.specs.Flags.{bits_of, words_by, others_by};

use bitflags::{Flag, Flags};
use std::marker::Model;

/// The flags of a symbol.
#[derive(Clone, Copy, Debug, PartialEq, Eq)]
pub struct SymbolFlags(u32);

impl SymbolFlags {
    /// The symbol is weak: another definition may replace it.
    pub const BINDING_WEAK: SymbolFlags = SymbolFlags(0x1);

    /// The symbol is local to its module.
    pub const BINDING_LOCAL: SymbolFlags = SymbolFlags(0x2);

    /// The symbol is not visible to other modules.
    pub const VISIBILITY_HIDDEN: SymbolFlags = SymbolFlags(0x4);

    /// The symbol is defined elsewhere.
    pub const UNDEFINED: SymbolFlags = SymbolFlags(0x10);

    /// The symbol must be exported.
    pub const EXPORTED: SymbolFlags = SymbolFlags(0x20);

    /// The symbol has a name of its own where it is imported.
    pub const EXPLICIT_NAME: SymbolFlags = SymbolFlags(0x40);

    /// The symbol is kept even if nothing uses it.
    pub const NO_STRIP: SymbolFlags = SymbolFlags(0x80);

    /// The symbol is in thread-local memory.
    pub const TLS: SymbolFlags = SymbolFlags(0x100);

    /// The address of the symbol is absolute.
    pub const ABSOLUTE: SymbolFlags = SymbolFlags(0x200);

    /// The flags and their words in the text.
    const FLAGS: &'static [Flag<SymbolFlags>] = &[
        Flag {
            name: "binding-weak",
            value: SymbolFlags::BINDING_WEAK,
        },
        Flag {
            name: "binding-local",
            value: SymbolFlags::BINDING_LOCAL,
        },
        Flag {
            name: "visibility-hidden",
            value: SymbolFlags::VISIBILITY_HIDDEN,
        },
        Flag {
            name: "undefined",
            value: SymbolFlags::UNDEFINED,
        },
        Flag {
            name: "exported",
            value: SymbolFlags::EXPORTED,
        },
        Flag {
            name: "explicit-name",
            value: SymbolFlags::EXPLICIT_NAME,
        },
        Flag {
            name: "no-strip",
            value: SymbolFlags::NO_STRIP,
        },
        Flag {
            name: "tls",
            value: SymbolFlags::TLS,
        },
        Flag {
            name: "absolute",
            value: SymbolFlags::ABSOLUTE,
        },
    ];
}

impl Flags for SymbolFlags {
    ghost use Rattle.std.specs.Prelude.{⊤, map};
    ghost use Rattle.wasmprinter_spec.specs.Layout.Customs.{flag_words};

    type Bits = u32;

    ghost exact = { ⊤ };

    ghost table = { map (λ row. (row.1, row.0)) flag_words };

    ghost set_of = { λ flags. flags.0 };

    fn flags<'a>() -> &'a [Flag<SymbolFlags>] {
        SymbolFlags::FLAGS
    }

    fn bits(&self) -> u32 {
        self.0
    }

    fn from_bits_retain(bits: u32) -> SymbolFlags {
        SymbolFlags(bits)
    }
}

/// An iterator over the words of the remaining flags, in the order of their bits.
#[derive(Drop)]
pub struct FlagWords {
    left: u32,
    row: usize,
}

impl Model for FlagWords {
    ghost use Rattle.std.specs.Prelude.{ℕ, List, drop};
    ghost use Rattle.wasmprinter_spec.specs.Layout.Customs.{flag_words};
    ghost use Rattle.wasmprinter_custom.specs.Flags.{words_by};

    ghost Value = { List (List ℕ) };

    ghost view = { λ w. words_by (drop w.row flag_words) w.left };
}

impl Iterator for FlagWords {
    ghost use Rattle.std.specs.Iterator.{YieldsFirstBy, item_count};

    type Item = &'static str;

    ghost next_gives = { YieldsFirstBy (λ word. word.now) (λ words. words) };

    ghost remaining = { item_count (λ words. words) };

    fn next(&mut self) -> Option<&'static str> {
        let rows = SymbolFlags::rows();
        'rows: while self.row < rows.len() {
            let flag = &rows[self.row];
            self.row += 1;
            let bits = flag.value.bits();
            if self.left & bits == bits {
                self.left -= bits;
                return Some(flag.name);
            }
        }
        None
    }
}

impl SymbolFlags {
    /// Returns the flags in the order of their bits.
    fn rows() -> &'static [Flag<SymbolFlags>]
        ensures { map (λ flag. (bits_of flag.value, flag.name.now)) result.now ≡ flag_words }
    {
        SymbolFlags::FLAGS
    }

    /// Returns the words of the flags that are set, in the order of their bits.
    pub fn words(self) -> FlagWords
        ensures { result ≡ words_by flag_words (bits_of self) }
    {
        FlagWords {
            left: self.bits(),
            row: 0,
        }
    }

    /// Returns the bits that are set and belong to no flag.
    pub fn other_bits(self) -> u32
        ensures { result ≡ others_by flag_words (bits_of self) }
    {
        let mut left = self.bits();
        for flag in SymbolFlags::rows() {
            let bits = flag.value.bits();
            if left & bits == bits {
                left -= bits;
            }
        }
        left
    }
}
