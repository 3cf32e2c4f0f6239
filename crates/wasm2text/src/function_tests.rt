//! Runs of the program that print one function. Expected texts are typed by hand.

use crate::program_tests::{Row, first_other_row};
use std::test::Fail;

/// A module with an imported function, and two functions, of which the first has a name. Its text, with the place of each
/// line:
///
/// ```text
///  0   (module
///  b     (type (;0;) (func))
/// 11     (import "m" "x" (memory (;0;) 1))
/// 18     (import "m" "g" (func (;0;) (type 0)))
/// 27     (func $"a b" (;1;) (type 0)
/// 28       nop
/// 29     )
/// 2b     (func (;2;) (type 0))
/// 3c   )
/// ```
pub const NAMED: &[u8] = b"\0asm\x01\0\0\0\
    \x01\x04\x01\x60\x00\x00\
    \x02\x0e\x02\x01m\x01x\x02\x00\x01\x01m\x01g\x00\x00\
    \x03\x03\x02\x00\x00\
    \x0a\x08\x02\x03\x00\x01\x0b\x02\x00\x0b\
    \x00\x0d\x04name\x01\x06\x01\x01\x03a b";

/// The imported function.
const IMPORT: &str = "  (import \"m\" \"g\" (func (;0;) (type 0)))\n";

/// The function with a name.
const WITH_A_NAME: &str = "  (func $\"a b\" (;1;) (type 0)
    nop
  )
";

/// The function without instructions.
const WITHOUT_INSTRUCTIONS: &str = "  (func (;2;) (type 0))\n";

/// The second function of the module with two functions.
const SECOND: &str = "  (func (;1;) (type 0)
    nop
  )
";

/// The function with a branch hint, which is on a line of the function, and at a byte before the function.
const WITH_A_HINT: &str = "  (func (;0;) (type 0) (param i32)
    local.get 0
    (@metadata.code.branch_hint \"\\01\")
    if ;; label = @1
    end
  )
";

/// Functions by index and by identifier.
const FUNCTIONS: &[Row] = &[
    (&["--func", "0", "named.wasm"], 0, IMPORT, ""),
    (&["--func", "1", "named.wasm"], 0, WITH_A_NAME, ""),
    (&["named.wasm", "--func=0x1"], 0, WITH_A_NAME, ""),
    (&["--func", "$a b", "named.wasm"], 0, WITH_A_NAME, ""),
    (
        &["--func=0x00002", "named.wasm"],
        0,
        WITHOUT_INSTRUCTIONS,
        "",
    ),
    (&["--func=1", "long.wasm"], 0, SECOND, ""),
    (&["--func", "0", "hint.wasm"], 0, WITH_A_HINT, ""),
    (&["--func=9", "--func", "1", "long.wasm"], 0, SECOND, ""),
    (
        &["--at=0", "--code-offset=0", "--func=1", "long.wasm"],
        0,
        SECOND,
        "",
    ),
    (
        &["--func=1", "--at=7", "empty.wasm"],
        0,
        "> 1 (module)\n",
        "",
    ),
];

#[test]
fn prints_one_function(rt: HostRuntime) -> Result<(), Fail> {
    let other = first_other_row(rt.alloc(), FUNCTIONS)?;
    assert!(rt; other == None, "row {other:?}");
    Ok(())
}

/// A function with places.
const PLACED: &str = "(;@2b    ;)  (func (;2;) (type 0)
(;@2c    ;)  )
";

/// A folded function.
const FOLDED: &str = "  (func $\"a b\" (;1;) (type 0)
    (nop)
  )
";

/// A function without its body.
const SKELETON: &str = "  (func $\"a b\" (;1;) (type 0) ...)\n";

/// A function with a synthesized identifier.
const SYNTHESIZED: &str = "  (func $#func2 (;2;) (type $#type0))\n";

/// The same functions of two modules.
const BOTH: &str = "  (func (;1;) (type 0)
    nop
  )
  (func $\"a b\" (;1;) (type 0)
    nop
  )
";

/// Other options. A function has no colors.
const OPTIONS: &[Row] = &[
    (&["-p", "--func=2", "named.wasm"], 0, PLACED, ""),
    (&["-f", "--func=1", "named.wasm"], 0, FOLDED, ""),
    (&["--skeleton", "--func=1", "named.wasm"], 0, SKELETON, ""),
    (
        &["--func=$#func2", "--name-unnamed", "named.wasm"],
        0,
        SYNTHESIZED,
        "",
    ),
    (
        &["--color=always", "--func=2", "named.wasm"],
        0,
        WITHOUT_INSTRUCTIONS,
        "",
    ),
    (&["--func=1", "long.wasm", "named.wasm"], 0, BOTH, ""),
    (&["--func=0", "-o", "new.wat", "named.wasm"], 0, "", ""),
];

#[test]
fn prints_functions_by_options(rt: HostRuntime) -> Result<(), Fail> {
    let other = first_other_row(rt.alloc(), OPTIONS)?;
    assert!(rt; other == None, "row {other:?}");
    Ok(())
}

/// Functions that a module does not have, and words that name no function. The other modules are printed.
const FAILURES: &[Row] = &[
    (
        &[
            "--func=2",
            "long.wasm",
            "empty.wasm",
            "cut.wasm",
            "named.wasm",
        ],
        1,
        WITHOUT_INSTRUCTIONS,
        "wasm2text: long.wasm: no such function
wasm2text: empty.wasm: no such function
wasm2text: cut.wasm: malformed module at byte 0x0
",
    ),
    (
        &["--func=18446744073709551615", "named.wasm"],
        1,
        "",
        "wasm2text: named.wasm: no such function\n",
    ),
    (
        &["--func=$#func2", "named.wasm"],
        1,
        "",
        "wasm2text: named.wasm: no such function\n",
    ),
    (
        &["--func=$#func1", "--name-unnamed", "named.wasm"],
        1,
        "",
        "wasm2text: named.wasm: no such function\n",
    ),
    (
        &["--func", "$", "named.wasm"],
        1,
        "",
        "wasm2text: named.wasm: no such function\n",
    ),
    (
        &["--func", "find", "named.wasm"],
        2,
        "",
        "wasm2text: option '--func' can't have the value 'find'. Try 'wasm2text --help'.\n",
    ),
    (
        &["named.wasm", "--func"],
        2,
        "",
        "wasm2text: option '--func' needs a value. Try 'wasm2text --help'.\n",
    ),
];

#[test]
fn reports_functions_that_are_missing(rt: HostRuntime) -> Result<(), Fail> {
    let other = first_other_row(rt.alloc(), FAILURES)?;
    assert!(rt; other == None, "row {other:?}");
    Ok(())
}
