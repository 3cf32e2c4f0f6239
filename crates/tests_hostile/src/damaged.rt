//! The modules of the worked examples, damaged at each byte in turn: all calls return, and they agree on each
//! damaged module.

use crate::answers::{Answers, Disagreement};
use crate::damage::Damage;
use std::alloc::Global;
use std::test::Fail;
use wasmprinter_expecting::expect_printed;
use wasmprinter_samples::{
    CUSTOMS_AROUND_A_MEMORY, DYLINK_CUT, DYLINK_MEMORY, GLOBAL_BLOCK, HINTED_IF, IDENTITY, MODULES,
    RAW_PRODUCERS,
};

/// Returns all modules of the worked examples.
fn all_modules() -> &'static [&'static [u8]] {
    MODULES
}

/// The number of damaged modules that were tried, and the number of those that were printed.
#[derive(Clone, Copy)]
struct Tally {
    tried: usize,
    printed: usize,
}

impl Tally {
    /// Counts a module that was tried.
    fn add(&mut self, is_printed: bool) {
        self.tried = self.tried.saturating_add(1);
        if is_printed {
            self.printed = self.printed.saturating_add(1);
        }
    }
}

/// A damaged module on which the calls disagree.
#[derive(Debug, Drop)]
struct Counterexample {
    /// The index of the module in `MODULES`.
    module: usize,
    damage: Damage,
    at: usize,
    disagreement: Disagreement,
}

/// Checks that the calls agree on a module that is damaged at a byte, and returns whether it is printed.
fn check(alloc: Global, wasm: &[u8], damage: Damage, at: usize) -> Result<bool, Disagreement> {
    let damaged = damage.apply(alloc, wasm, at)?;
    if damaged.as_slice() == wasm {
        return Err(Disagreement::Undamaged);
    }
    let answers = Answers::of(alloc, &damaged)?;
    answers.check()?;
    Ok(answers.is_printed())
}

/// Damages these modules at each of their bytes in turn, and checks that the calls agree.
fn check_all(alloc: Global, modules: &[&[u8]], damage: Damage) -> Result<Tally, Counterexample> {
    let mut tally = Tally {
        tried: 0,
        printed: 0,
    };
    for (module, wasm) in modules.iter().enumerate() {
        for at in 0..wasm.len() {
            match check(alloc, wasm, damage, at) {
                Ok(is_printed) => tally.add(is_printed),
                Err(disagreement) => {
                    return Err(Counterexample {
                        module,
                        damage,
                        at,
                        disagreement,
                    });
                }
            }
        }
    }
    Ok(tally)
}

/// Returns the number of bytes of these modules. Each byte is damaged once in each way.
fn byte_count(modules: &[&[u8]]) -> usize {
    let mut count: usize = 0;
    for wasm in modules {
        count = count.saturating_add(wasm.len());
    }
    count
}

/// A module that is printed although one of its bytes is damaged.
struct Survivor {
    /// The part of the module that the damaged byte encodes.
    name: &'static str,
    wasm: &'static [u8],
    damage: Damage,
    at: usize,
    text: &'static str,
}

/// The number of survivors.
const SURVIVOR_COUNT: usize = 12;

const SURVIVORS: &[Survivor] = &[
    Survivor {
        name: "the index of a local in `IDENTITY`",
        wasm: IDENTITY,
        damage: Damage::PlusOne,
        at: 33,
        text: r#"(module
  (type (;0;) (func (param i32) (result i32)))
  (export "f" (func 0))
  (func (;0;) (type 0) (param i32) (result i32)
    local.get 1
  )
)
"#,
    },
    Survivor {
        name: "the value of a constant",
        wasm: GLOBAL_BLOCK,
        damage: Damage::PlusOne,
        at: 16,
        text: r#"(module
  (global (;0;) i32 block (result i32)  (; label = @1 ;) i32.const 2 end)
)
"#,
    },
    Survivor {
        name: "the index of a local before a hint",
        wasm: HINTED_IF,
        damage: Damage::PlusOne,
        at: 59,
        text: r#"(module
  (type (;0;) (func (param i32)))
  (func (;0;) (type 0) (param i32)
    local.get 1
    (@metadata.code.branch_hint "\01")
    if ;; label = @1
    end
  )
)
"#,
    },
    // The hint is then not valid, so that no hint is printed.
    Survivor {
        name: "the value of a hint",
        wasm: HINTED_IF,
        damage: Damage::Complement,
        at: 52,
        text: r#"(module
  (type (;0;) (func (param i32)))
  (func (;0;) (type 0) (param i32)
    local.get 0
    if ;; label = @1
    end
  )
)
"#,
    },
    Survivor {
        name: "the minimum size of the memory",
        wasm: CUSTOMS_AROUND_A_MEMORY,
        damage: Damage::PlusOne,
        at: 20,
        text: r#"(module
  (@custom "a" (before first) "\01")
  (memory (;0;) 2)
  (@custom "b" (after memory) "")
)
"#,
    },
    Survivor {
        name: "the content of the first custom section",
        wasm: CUSTOMS_AROUND_A_MEMORY,
        damage: Damage::Complement,
        at: 15,
        text: r#"(module
  (@custom "a" (before first) "\fe")
  (memory (;0;) 1)
  (@custom "b" (after memory) "")
)
"#,
    },
    // The name of the field then consists of identifier characters.
    Survivor {
        name: "the space in the name of a field",
        wasm: RAW_PRODUCERS,
        damage: Damage::PlusOne,
        at: 23,
        text: r#"(module
  (@producers
    (a!b "x" "1")
  )
)
"#,
    },
    // The version is then not UTF-8.
    Survivor {
        name: "the version of a producer",
        wasm: RAW_PRODUCERS,
        damage: Damage::Complement,
        at: 29,
        text: r#"(module
  ;; failed to parse custom section `producers`
  (@custom "producers" (before first) "\01\03a b\01\01x\01\ce")
)
"#,
    },
    Survivor {
        name: "the size of the memory of dylink.0",
        wasm: DYLINK_MEMORY,
        damage: Damage::PlusOne,
        at: 21,
        text: r#"(module
  (@dylink.0
    (mem-info (memory 17 2))
  )
)
"#,
    },
    // The size then takes two bytes, so that a number is missing.
    Survivor {
        name: "the size of the memory of dylink.0, inverted",
        wasm: DYLINK_MEMORY,
        damage: Damage::Complement,
        at: 21,
        text: r#"(module
  ;; failed to parse custom section `dylink.0`
  (@custom "dylink.0" (before first) "\01\04\ef\02\00\00")
)
"#,
    },
    Survivor {
        name: "a byte of a truncated subsection",
        wasm: DYLINK_CUT,
        damage: Damage::PlusOne,
        at: 21,
        text: r#"(module
  ;; failed to parse custom section `dylink.0`
  (@custom "dylink.0" (before first) "\01\05\11")
)
"#,
    },
    Survivor {
        name: "a byte of a truncated subsection, inverted",
        wasm: DYLINK_CUT,
        damage: Damage::Complement,
        at: 21,
        text: r#"(module
  ;; failed to parse custom section `dylink.0`
  (@custom "dylink.0" (before first) "\01\05\ef")
)
"#,
    },
];

// The numbers of modules that are printed after each kind of damage. A decoder that was written separately, from the
// binary format, counted them.
const PRINTED_IF_CUT: usize = 156;

const PRINTED_IF_INCREMENTED: usize = 765;

const PRINTED_IF_COMPLEMENTED: usize = 296;

/// Returns the number of modules that are printed after this damage of each byte.
fn printed_count(damage: Damage) -> usize {
    match damage {
        Damage::Cut => PRINTED_IF_CUT,
        Damage::PlusOne => PRINTED_IF_INCREMENTED,
        Damage::Complement => PRINTED_IF_COMPLEMENTED,
    }
}

/// Checks the text of a survivor.
fn check_text(alloc: Global, survivor: &Survivor) -> Result<(), Fail> {
    let damaged = survivor.damage.apply(alloc, survivor.wasm, survivor.at)?;
    expect_printed(survivor.name, alloc, &damaged, survivor.text)
}

/// Checks the texts of these survivors, and that their modules are among these.
fn check_survivors(alloc: Global, survivors: &[Survivor], modules: &[&[u8]]) -> Result<(), Fail> {
    for survivor in survivors {
        check_text(alloc, survivor)?;
        if !modules.contains(&survivor.wasm) {
            return Err((survivor.name, "the module is not listed"))?;
        }
    }
    Ok(())
}

#[test]
fn prints_survivors(rt: HostRuntime) -> Result<(), Fail> {
    assert_eq!(rt; SURVIVORS.len(), SURVIVOR_COUNT);
    check_survivors(rt.alloc(), SURVIVORS, all_modules())
}

/// Checks that the calls agree on all modules with this damage of each byte, that each byte is damaged, and that
/// the expected number of the damaged modules is printed.
fn check_damage(alloc: Global, damage: Damage) -> Result<(), Fail> {
    let tally = check_all(alloc, all_modules(), damage)?;
    if tally.tried != byte_count(all_modules()) {
        return Err(("another number of modules", (damage, tally.tried)))?;
    }
    if tally.printed != printed_count(damage) {
        return Err((
            "another number of modules is printed",
            (damage, tally.printed),
        ))?;
    }
    Ok(())
}

#[test]
fn agrees_on_modules_with_a_damaged_byte(rt: HostRuntime) -> Result<(), Fail> {
    check_damage(rt.alloc(), Damage::Cut)?;
    check_damage(rt.alloc(), Damage::PlusOne)?;
    check_damage(rt.alloc(), Damage::Complement)
}
