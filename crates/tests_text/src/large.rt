//! Large modules, flat and folded: long chains of operands, many siblings, deep nesting and many functions.

use std::alloc::Global;
use std::test::Fail;
use wasmprinter_expecting::{Options, expect_same, text_by, text_of};
use wasmprinter_samples::PREAMBLE;
use wasmprinter_samples::modules_and_texts_from_parts::Part::{Bytes, Copies};
use wasmprinter_samples::modules_and_texts_from_parts::TextPart::{
    self, Levels, LevelsBack, Line, Numbered, NumberedLevels, Text, TextCopies,
};
use wasmprinter_samples::modules_and_texts_from_parts::{Parts, build, text_of_parts};

/// The number of operators or blocks of a body.
const MANY: u32 = 100_000;

/// The number of blocks around the innermost one.
const AROUND_INNERMOST: u32 = 99_999;

/// The number of functions of a module.
const FUNCTIONS: u32 = 20_000;

/// The text of a function without parameters and results, up to its first line.
const START: &str = "(module\n  (type (;0;) (func))\n  (func (;0;) (type 0)";

/// The text after the last line of the function.
const END: &str = "\n  )\n)\n";

/// The exclusive upper bound of the length of a text, in bytes.
const LIMIT: usize = 500_000_000;

/// A large module with options, and its text.
struct Large {
    name: &'static str,
    options: Options,
    wasm: Parts,
    text: &'static [TextPart],
}

/// Checks the text of a module, and that its length is less than `LIMIT`.
fn expect_large(alloc: Global, row: &Large) -> Result<(), Fail> {
    let wasm = build(alloc, row.wasm)?;
    let printed = match row.options {
        Options::Default => text_of(alloc, &wasm),
        _ => text_by(&row.options.config(), alloc, &wasm),
    };
    let found = match printed {
        Ok(found) => found,
        Err(error) => return Err((row.name, error))?,
    };
    if found.len() >= LIMIT {
        return Err((row.name, "bytes of text", found.len()))?;
    }
    let text = text_of_parts(alloc, row.text)?;
    expect_same(row.name, found.as_str(), text.as_str())
}

// ---- chains and siblings

/// The preamble, a type and a function with that type.
const BEFORE_CODE: &[u8] = &[
    0x00, 0x61, 0x73, 0x6d, 0x01, 0x00, 0x00, 0x00, // preamble
    0x01, 0x04, 0x01, 0x60, 0x00, 0x00, // types
    0x03, 0x02, 0x01, 0x00, // functions
];

/// A constant, and 100,000 `i32.eqz`.
const CHAIN: Parts = &[
    Bytes(BEFORE_CODE),
    // A code section of 100,008 bytes, a body of 100,004 bytes, no locals, and the constant
    Bytes(&[
        0x0a, 0xa8, 0x8d, 0x06, 0x01, 0xa4, 0x8d, 0x06, 0x00, 0x41, 0x00,
    ]),
    Copies(MANY, &[0x45]),
    Bytes(&[0x0b]),
];

/// A constant, operators without operands and results, and an operator that takes the constant.
const SIBLINGS: Parts = &[
    Bytes(BEFORE_CODE),
    // A code section of 100,008 bytes, a body of 100,004 bytes, no locals, and the constant
    Bytes(&[
        0x0a, 0xa8, 0x8d, 0x06, 0x01, 0xa4, 0x8d, 0x06, 0x00, 0x41, 0x00,
    ]),
    Copies(MANY - 1, &[0x01]),
    Bytes(&[0x1a, 0x0b]),
];

/// The chain, flat and folded, and the siblings, folded.
const CHAINS: &[Large] = &[
    Large {
        name: "a long chain, flat",
        options: Options::Default,
        wasm: CHAIN,
        text: &[
            Text(START),
            Text("\n    i32.const 0"),
            TextCopies(MANY, "\n    i32.eqz"),
            Text(END),
        ],
    },
    Large {
        name: "a long chain, folded",
        options: Options::Folded,
        wasm: CHAIN,
        text: &[
            Text(START),
            Levels(MANY, "(i32.eqz"),
            Line(MANY),
            Text("(i32.const 0)"),
            TextCopies(MANY, ")"),
            Text(END),
        ],
    },
    Large {
        name: "many siblings, folded",
        options: Options::Folded,
        wasm: SIBLINGS,
        text: &[
            Text(START),
            Text("\n    (drop\n      (i32.const 0)"),
            TextCopies(MANY - 1, "\n      (nop)"),
            Text(")"),
            Text(END),
        ],
    },
];

/// Checks the text of each row, and its length.
fn expect_each_large(alloc: Global, rows: &[Large]) -> Result<(), Fail> {
    for row in rows {
        expect_large(alloc, row)?;
    }
    Ok(())
}

#[test]
fn prints_chains_and_siblings(rt: HostRuntime) -> Result<(), Fail> {
    expect_each_large(rt.alloc(), CHAINS)
}

// ---- nested blocks

/// 100,000 blocks, each inside the one before it.
const NESTED: Parts = &[
    Bytes(BEFORE_CODE),
    // A code section of 300,006 bytes, a body of 300,002 bytes, and no locals
    Bytes(&[0x0a, 0xe6, 0xa7, 0x12, 0x01, 0xe2, 0xa7, 0x12, 0x00]),
    Copies(MANY, &[0x02, 0x40]),
    Copies(MANY, &[0x0b]),
    Bytes(&[0x0b]),
];

/// The blocks, flat.
const FLAT_BLOCKS: Large = Large {
    name: "deep nesting, flat",
    options: Options::Default,
    wasm: NESTED,
    text: &[
        Text(START),
        NumberedLevels(MANY, "block ;; label = @"),
        LevelsBack(MANY, "end"),
        Text(END),
    ],
};

/// The blocks, folded. The innermost closes on a line of its own, since its first line ends with a comment.
const FOLDED_BLOCKS: Large = Large {
    name: "deep nesting, folded",
    options: Options::Folded,
    wasm: NESTED,
    text: &[
        Text(START),
        NumberedLevels(MANY, "(block ;; label = @"),
        Line(AROUND_INNERMOST),
        Text(")"),
        TextCopies(AROUND_INNERMOST, ")"),
        Text(END),
    ],
};

#[test]
fn prints_deep_nesting(rt: HostRuntime) -> Result<(), Fail> {
    expect_large(rt.alloc(), &FLAT_BLOCKS)
}

#[test]
fn folds_deep_nesting(rt: HostRuntime) -> Result<(), Fail> {
    expect_large(rt.alloc(), &FOLDED_BLOCKS)
}

// ---- many functions

/// 20,000 functions, each with an `if` that has both branches.
const BODIES: Parts = &[
    Bytes(PREAMBLE),
    Bytes(&[0x01, 0x04, 0x01, 0x60, 0x00, 0x00]),
    // A function section of 20,003 bytes, and the number of functions
    Bytes(&[0x03, 0xa3, 0x9c, 0x01, 0xa0, 0x9c, 0x01]),
    Copies(FUNCTIONS, &[0x00]),
    // A code section of 260,003 bytes, and the number of bodies
    Bytes(&[0x0a, 0xa3, 0xef, 0x0f, 0xa0, 0x9c, 0x01]),
    Copies(
        FUNCTIONS,
        &[
            0x0c, 0x00, 0x41, 0x00, 0x04, 0x40, 0x41, 0x00, 0x05, 0x41, 0x00, 0x0b, 0x0b,
        ],
    ),
];

/// The text of a function after its number, flat.
const FLAT_BODY: &str = r#";) (type 0)
    i32.const 0
    if ;; label = @1
      i32.const 0
    else
      i32.const 0
    end
  )
"#;

/// The text of a function after its number, folded.
const FOLDED_BODY: &str = r#";) (type 0)
    (if ;; label = @1
      (i32.const 0)
      (then
        (i32.const 0))
      (else
        (i32.const 0)))
  )
"#;

/// The functions, flat.
const FLAT_FUNCTIONS: Large = Large {
    name: "many functions, flat",
    options: Options::Default,
    wasm: BODIES,
    text: &[
        Text("(module\n  (type (;0;) (func))\n"),
        Numbered(FUNCTIONS, "  (func (;", FLAT_BODY),
        Text(")\n"),
    ],
};

/// The functions, folded.
const FOLDED_FUNCTIONS: Large = Large {
    name: "many functions, folded",
    options: Options::Folded,
    wasm: BODIES,
    text: &[
        Text("(module\n  (type (;0;) (func))\n"),
        Numbered(FUNCTIONS, "  (func (;", FOLDED_BODY),
        Text(")\n"),
    ],
};

#[test]
fn prints_many_functions(rt: HostRuntime) -> Result<(), Fail> {
    expect_large(rt.alloc(), &FLAT_FUNCTIONS)
}

#[test]
fn folds_many_functions(rt: HostRuntime) -> Result<(), Fail> {
    expect_large(rt.alloc(), &FOLDED_FUNCTIONS)
}
