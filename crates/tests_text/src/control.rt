//! Tests of deep nesting: texts of functions with many `if`s and `try`s, each inside the one before it. The file `large`
//! has the blocks.

use std::alloc::{AllocError, Global};
use std::test::Fail;
use wasmprinter_expecting::expect_printed;
use wasmprinter_samples::sections::with_blocks;

/// The most levels by which a line is indented.
const MOST_LEVELS: u32 = 50;

/// Appends the indent of a line of the block with this label. The function's body has depth 2, and the first block has
/// label 1.
fn push_indent(text: &mut String, label: u32) -> Result<(), AllocError> {
    for _ in 0..label.saturating_add(1).min(MOST_LEVELS) {
        text.push_str("  ")?;
    }
    Ok(())
}

/// Returns the text of a module whose function opens `depth` nested blocks with this word, if these lines close each
/// block. A `delegate` delegates to the block around its `try`.
fn text_of_blocks(
    alloc: Global,
    depth: u32,
    word: &str,
    lines: &[&str],
) -> Result<String, AllocError> {
    let mut text = String::from_str(
        alloc,
        "(module\n  (type (;0;) (func))\n  (func (;0;) (type 0)\n",
    )?;
    for label in 1..=depth {
        push_indent(&mut text, label)?;
        write!(text, "{word} ;; label = @{label}\n")?;
    }
    for outer in 0..depth {
        let label = depth.saturating_sub(outer);
        for line in lines {
            push_indent(&mut text, label)?;
            text.push_str(line)?;
            if *line == "delegate 0" && label != 1 {
                write!(text, " (;@{};)", label.saturating_sub(1))?;
            }
            text.push('\n')?;
        }
    }
    text.push_str("  )\n)\n")?;
    Ok(text)
}

/// Nested blocks: the number of them, the bytes that open and close each, the bytes from the code section to the first
/// block, the word that opens each, and the lines that close each.
type Deep = (
    u32,
    &'static [u8],
    &'static [u8],
    &'static [u8],
    &'static str,
    &'static [&'static str],
);

const DEEP: &[Deep] = &[
    // A section of 80,006 bytes, with a body of 80,002 bytes
    (
        20_000,
        &[0x04, 0x40],
        &[0x05, 0x0b],
        &[0x0a, 0x86, 0xf1, 0x04, 0x01, 0x82, 0xf1, 0x04, 0x00],
        "if",
        &["else", "end"],
    ),
    (
        20_000,
        &[0x06, 0x40],
        &[0x18, 0x00],
        &[0x0a, 0x86, 0xf1, 0x04, 0x01, 0x82, 0xf1, 0x04, 0x00],
        "try",
        &["delegate 0"],
    ),
];

/// Checks the texts of modules of nested blocks.
fn expect_deep(alloc: Global, rows: &[Deep]) -> Result<(), Fail> {
    for (depth, opens, closes, code, word, lines) in rows {
        let wasm = with_blocks(alloc, *depth, opens, closes, code)?;
        let typed = text_of_blocks(alloc, *depth, word, lines)?;
        expect_printed(word, alloc, &wasm, typed.as_str())?;
    }
    Ok(())
}

#[test]
fn prints_deep_ifs_and_tries(rt: HostRuntime) -> Result<(), Fail> {
    expect_deep(rt.alloc(), DEEP)
}
