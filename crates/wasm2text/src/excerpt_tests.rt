//! Runs of the program that print excerpts. Expected texts are typed by hand.

use crate::program_tests::{Row, first_other_row};
use std::test::Fail;

/// A module with two functions, of six `nop` and of one. Its text, with the place of each line:
///
/// ```text
///  1  0   (module
///  2  b     (type (;0;) (func))
///  3  17    (func (;0;) (type 0)
///  4  18      nop
///  5  19      nop
///  6  1a      nop
///  7  1b      nop
///  8  1c      nop
///  9  1d      nop
/// 10  1e    )
/// 11  20    (func (;1;) (type 0)
/// 12  21      nop
/// 13  22    )
/// 14  23  )
/// ```
pub const LONG: &[u8] = b"\0asm\x01\0\0\0\
    \x01\x04\x01\x60\x00\x00\
    \x03\x03\x02\x00\x00\
    \x0a\x0e\x02\x08\x00\x01\x01\x01\x01\x01\x01\x0b\x03\x00\x01\x0b";

/// A module with a branch hint. The hint is at byte 0x32 of the module, before all functions, and on line 5 of the text,
/// inside the function:
///
/// ```text
/// 1  0   (module
/// 2  b     (type (;0;) (func (param i32)))
/// 3  39    (func (;0;) (type 0) (param i32)
/// 4  3a      local.get 0
/// 5  32      (@metadata.code.branch_hint "\01")
/// 6  3c      if ;; label = @1
/// 7  3e      end
/// 8  3f    )
/// 9  40  )
/// ```
pub const HINT: &[u8] = b"\0asm\x01\0\0\0\
    \x01\x05\x01\x60\x01\x7f\x00\
    \x03\x02\x01\x00\
    \x00\x20\x19metadata.code.branch_hint\x01\x00\x01\x03\x01\x01\
    \x0a\x09\x01\x07\x00\x20\x00\x04\x40\x0b\x0b";

/// The lines around line 1.
const FIRST: &str = "> 1 (module
  2   (type (;0;) (func))
  3   (func (;0;) (type 0)
  4     nop
";

/// The lines around line 8, after the header of their function, which is on line 3.
const AFTER_THE_HEADER: &str = "   3   (func (;0;) (type 0)
   5     nop
   6     nop
   7     nop
>  8     nop
   9     nop
  10   )
  11   (func (;1;) (type 0)
";

/// The lines around line 6. The header is one of them.
const WITH_THE_HEADER: &str = "  3   (func (;0;) (type 0)
  4     nop
  5     nop
> 6     nop
  7     nop
  8     nop
  9     nop
";

/// The lines around line 10. Byte 0x1f, the size of the second body, belongs to no body.
const BETWEEN_BODIES: &str = "   7     nop
   8     nop
   9     nop
> 10   )
  11   (func (;1;) (type 0)
  12     nop
  13   )
";

/// The lines around line 13.
const LAST: &str = "  10   )
  11   (func (;1;) (type 0)
  12     nop
> 13   )
  14 )
";

/// The lines around line 4, whose place 0x3a is the greatest that is not after byte 0x3b.
const BEFORE_A_HINT: &str = "  1 (module
  2   (type (;0;) (func (param i32)))
  3   (func (;0;) (type 0) (param i32)
> 4     local.get 0
  5     (@metadata.code.branch_hint \"\\01\")
  6     if ;; label = @1
  7     end
";

/// The lines around line 5. Its byte belongs to no body.
const AT_A_HINT: &str = "  2   (type (;0;) (func (param i32)))
  3   (func (;0;) (type 0) (param i32)
  4     local.get 0
> 5     (@metadata.code.branch_hint \"\\01\")
  6     if ;; label = @1
  7     end
  8   )
";

/// Offsets, decimal and hexadecimal.
const OFFSETS: &[Row] = &[
    (&["--at", "0", "long.wasm"], 0, FIRST, ""),
    (&["--at", "0x0a", "long.wasm"], 0, FIRST, ""),
    (&["--at", "0x1c", "long.wasm"], 0, AFTER_THE_HEADER, ""),
    (&["long.wasm", "--at=0x1C"], 0, AFTER_THE_HEADER, ""),
    (&["--at=28", "long.wasm"], 0, AFTER_THE_HEADER, ""),
    (&["--at", "26", "long.wasm"], 0, WITH_THE_HEADER, ""),
    (&["--at=0x1f", "long.wasm"], 0, BETWEEN_BODIES, ""),
    (&["--at=0x00022", "long.wasm"], 0, LAST, ""),
    (&["--at=0", "--at", "0x22", "long.wasm"], 0, LAST, ""),
    (&["--at=0x3b", "hint.wasm"], 0, BEFORE_A_HINT, ""),
    (&["--at=0x33", "hint.wasm"], 0, AT_A_HINT, ""),
];

#[test]
fn prints_the_lines_around_a_byte(rt: HostRuntime) -> Result<(), Fail> {
    let other = first_other_row(rt.alloc(), OFFSETS)?;
    assert!(rt; other == None, "row {other:?}");
    Ok(())
}

/// The lines around line 2. Byte 0x15, the number of bodies, is the first byte of the code section's contents.
const CODE_START: &str = "  1 (module
> 2   (type (;0;) (func))
  3   (func (;0;) (type 0)
  4     nop
  5     nop
";

/// Offsets from the start of the code section's contents, which is byte 0x15 of the first module and byte 0x37 of the
/// second. Of several offsets the last one counts.
const CODE_OFFSETS: &[Row] = &[
    (&["--code-offset", "0", "long.wasm"], 0, CODE_START, ""),
    (
        &["--code-offset", "0x7", "long.wasm"],
        0,
        AFTER_THE_HEADER,
        "",
    ),
    (&["long.wasm", "--code-offset=7"], 0, AFTER_THE_HEADER, ""),
    (&["--code-offset=0x0d", "long.wasm"], 0, LAST, ""),
    (&["--code-offset=4", "hint.wasm"], 0, BEFORE_A_HINT, ""),
    (&["--at=0", "--code-offset=13", "long.wasm"], 0, LAST, ""),
    (&["--code-offset=13", "--at=0", "long.wasm"], 0, FIRST, ""),
];

#[test]
fn prints_the_lines_around_a_byte_of_the_code_section(rt: HostRuntime) -> Result<(), Fail> {
    let other = first_other_row(rt.alloc(), CODE_OFFSETS)?;
    assert!(rt; other == None, "row {other:?}");
    Ok(())
}

/// The excerpt with places and folded operators.
const PLACED: &str = "   3 (;@17    ;)  (func (;0;) (type 0)
   5 (;@19    ;)    (nop)
   6 (;@1a    ;)    (nop)
   7 (;@1b    ;)    (nop)
>  8 (;@1c    ;)    (nop)
   9 (;@1d    ;)    (nop)
  10 (;@1e    ;)  )
  11 (;@20    ;)  (func (;1;) (type 0)
";

/// The excerpt of a skeleton. The header shows the byte.
const SKELETON: &str = "  1 (module
  2   (type (;0;) (func))
> 3   (func (;0;) (type 0) ...)
  4   (func (;1;) (type 0) ...)
  5 )
";

/// The excerpt with synthesized identifiers and without indent.
const NAMED: &str = "  1 (module
  2 (type $#type0 (;0;) (func))
> 3 (func $#func0 (;0;) (type $#type0)
  4 nop
  5 nop
  6 nop
";

/// The excerpt of the empty module.
const EMPTY: &str = "> 1 (module)\n";

/// The excerpts of two modules.
const BOTH: &str = "> 1 (module)
> 1 (module
  2   (type (;0;) (func))
  3   (func (;0;) (type 0)
  4     nop
";

/// Other options. An excerpt has no colors.
const OPTIONS: &[Row] = &[
    (&["-p", "-f", "--at=0x1c", "long.wasm"], 0, PLACED, ""),
    (&["--skeleton", "--at=0x1c", "long.wasm"], 0, SKELETON, ""),
    (
        &["--name-unnamed", "--indent=0", "--at=0x17", "long.wasm"],
        0,
        NAMED,
        "",
    ),
    (&["--color=always", "--at=7", "empty.wasm"], 0, EMPTY, ""),
    (&["--at=7", "-", "long.wasm"], 0, BOTH, ""),
    (&["--at=7"], 0, EMPTY, ""),
    (&["--at=0", "-o", "new.wat", "empty.wasm"], 0, "", ""),
];

#[test]
fn prints_excerpts_by_options(rt: HostRuntime) -> Result<(), Fail> {
    let other = first_other_row(rt.alloc(), OPTIONS)?;
    assert!(rt; other == None, "row {other:?}");
    Ok(())
}

/// Offsets that a module does not have, and files without excerpts. The others are printed.
const FAILURES: &[Row] = &[
    (
        &["--at=8", "empty.wasm", "long.wasm"],
        1,
        FIRST,
        "wasm2text: empty.wasm: byte 0x8 is not in the module, which has 0x8 bytes\n",
    ),
    (
        &["--at=35", "long.wasm"],
        1,
        "",
        "wasm2text: long.wasm: byte 0x23 is not in the module, which has 0x23 bytes\n",
    ),
    (
        &["--at=18446744073709551615", "empty.wasm"],
        1,
        "",
        "wasm2text: empty.wasm: byte 0xffffffffffffffff is not in the module, which has 0x8 bytes\n",
    ),
    (
        &["--code-offset=0", "empty.wasm", "cut.wasm", "long.wasm"],
        1,
        CODE_START,
        "wasm2text: empty.wasm: module has no code section
wasm2text: cut.wasm: malformed module at byte 0x0
",
    ),
    (
        &["--code-offset=14", "long.wasm"],
        1,
        "",
        "wasm2text: long.wasm: byte 0x23 is not in the module, which has 0x23 bytes\n",
    ),
    (
        &["--code-offset=18446744073709551615", "long.wasm"],
        1,
        "",
        "wasm2text: long.wasm: byte 0xffffffffffffffff is not in the module, which has 0x23 bytes\n",
    ),
    (
        &["--at=9", "cut.wasm", "late.wasm", "none.wasm", "long.wasm"],
        1,
        FIRST,
        "wasm2text: cut.wasm: malformed module at byte 0x0
wasm2text: late.wasm: unknown dylink.0 subsection 9
wasm2text: none.wasm: no such file or directory
",
    ),
];

#[test]
fn reports_files_without_excerpts(rt: HostRuntime) -> Result<(), Fail> {
    let other = first_other_row(rt.alloc(), FAILURES)?;
    assert!(rt; other == None, "row {other:?}");
    Ok(())
}

/// Words that are no offsets.
const MISUSES: &[Row] = &[
    (
        &["long.wasm", "--code-offset"],
        2,
        "",
        "wasm2text: option '--code-offset' needs a value. Try 'wasm2text --help'.\n",
    ),
    (
        &["--code-offset=-1", "long.wasm"],
        2,
        "",
        "wasm2text: option '--code-offset' can't have the value '-1'. Try 'wasm2text --help'.\n",
    ),
    (
        &["long.wasm", "--at"],
        2,
        "",
        "wasm2text: option '--at' needs a value. Try 'wasm2text --help'.\n",
    ),
    (
        &["--at=", "long.wasm"],
        2,
        "",
        "wasm2text: option '--at' can't have the value ''. Try 'wasm2text --help'.\n",
    ),
    (
        &["--at", "0x", "long.wasm"],
        2,
        "",
        "wasm2text: option '--at' can't have the value '0x'. Try 'wasm2text --help'.\n",
    ),
    (
        &["--at", "1c", "long.wasm"],
        2,
        "",
        "wasm2text: option '--at' can't have the value '1c'. Try 'wasm2text --help'.\n",
    ),
    (
        &["--at", "+1", "long.wasm"],
        2,
        "",
        "wasm2text: option '--at' can't have the value '+1'. Try 'wasm2text --help'.\n",
    ),
    (
        &["--at", "0x+1", "long.wasm"],
        2,
        "",
        "wasm2text: option '--at' can't have the value '0x+1'. Try 'wasm2text --help'.\n",
    ),
    (
        &["--at", "18446744073709551616", "long.wasm"],
        2,
        "",
        "wasm2text: option '--at' can't have the value '18446744073709551616'. Try 'wasm2text --help'.\n",
    ),
];

#[test]
fn reports_words_that_are_no_offsets(rt: HostRuntime) -> Result<(), Fail> {
    let other = first_other_row(rt.alloc(), MISUSES)?;
    assert!(rt; other == None, "row {other:?}");
    Ok(())
}
