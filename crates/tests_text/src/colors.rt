//! Tests of texts with ANSI escape sequences for colors. The sequences are typed by hand. The node of a folded operator
//! contains those of its immediates; the parentheses and words that folding adds have none.

use std::alloc::{AllocError, Global};
use std::test::Fail;
use wasmprinter::{Config, Error};
use wasmprinter_expecting::Options::{self, Default, Folded, FoldedPlaces, Places};
use wasmprinter_expecting::{Refusal, colored_text_by};
use wasmprinter_samples::modules_and_texts_from_parts::Part::{
    Body, Bytes, Copies, Custom, Section, Slice,
};
use wasmprinter_samples::modules_and_texts_from_parts::{
    NO_PARAMS, ONE_FUNCTION, Parts, TextPart, build, text_of_parts,
};
use wasmprinter_samples::sections::{DATA, GLOBAL, HINTS};
use wasmprinter_samples::{IDENTITY, PREAMBLE};

/// The text of `IDENTITY` with colors.
const IDENTITY_COLORED: &str = "(\x1b[0m\x1b[1m\x1b[38;5;11mmodule\x1b[0m
  (\x1b[0m\x1b[1m\x1b[38;5;11mtype \x1b[0m\x1b[0m\x1b[35m(;0;)\x1b[0m (\x1b[0m\x1b[1m\x1b[38;5;11mfunc\x1b[0m \
(\x1b[0m\x1b[1m\x1b[38;5;11mparam\x1b[0m \x1b[0m\x1b[1m\x1b[38;5;10mi32\x1b[0m) \
(\x1b[0m\x1b[1m\x1b[38;5;11mresult\x1b[0m \x1b[0m\x1b[1m\x1b[38;5;10mi32\x1b[0m)))
  (\x1b[0m\x1b[1m\x1b[38;5;11mexport \x1b[0m\x1b[0m\x1b[31m\"f\"\x1b[0m (\x1b[0m\x1b[1m\x1b[38;5;11mfunc \x1b[0m\x1b[0m\x1b[35m0\x1b[0m))
  (\x1b[0m\x1b[1m\x1b[38;5;11mfunc \x1b[0m\x1b[0m\x1b[35m(;0;)\x1b[0m \
(\x1b[0m\x1b[1m\x1b[38;5;11mtype \x1b[0m\x1b[0m\x1b[35m0\x1b[0m) \
(\x1b[0m\x1b[1m\x1b[38;5;11mparam\x1b[0m \x1b[0m\x1b[1m\x1b[38;5;10mi32\x1b[0m) \
(\x1b[0m\x1b[1m\x1b[38;5;11mresult\x1b[0m \x1b[0m\x1b[1m\x1b[38;5;10mi32\x1b[0m)
    local.get \x1b[0m\x1b[35m0\x1b[0m
  )
)
";

/// The text of `IDENTITY` with colors and with places, which are comments.
const PLACES_COLORED: &str = "(\x1b[0m\x1b[1m\x1b[38;5;11mmodule\x1b[0m
\x1b[0m\x1b[36m(;@b     ;)\x1b[0m  (\x1b[0m\x1b[1m\x1b[38;5;11mtype \x1b[0m\x1b[0m\x1b[35m(;0;)\x1b[0m \
(\x1b[0m\x1b[1m\x1b[38;5;11mfunc\x1b[0m \
(\x1b[0m\x1b[1m\x1b[38;5;11mparam\x1b[0m \x1b[0m\x1b[1m\x1b[38;5;10mi32\x1b[0m) \
(\x1b[0m\x1b[1m\x1b[38;5;11mresult\x1b[0m \x1b[0m\x1b[1m\x1b[38;5;10mi32\x1b[0m)))
\x1b[0m\x1b[36m(;@17    ;)\x1b[0m  (\x1b[0m\x1b[1m\x1b[38;5;11mexport \x1b[0m\x1b[0m\x1b[31m\"f\"\x1b[0m \
(\x1b[0m\x1b[1m\x1b[38;5;11mfunc \x1b[0m\x1b[0m\x1b[35m0\x1b[0m))
\x1b[0m\x1b[36m(;@1f    ;)\x1b[0m  (\x1b[0m\x1b[1m\x1b[38;5;11mfunc \x1b[0m\x1b[0m\x1b[35m(;0;)\x1b[0m \
(\x1b[0m\x1b[1m\x1b[38;5;11mtype \x1b[0m\x1b[0m\x1b[35m0\x1b[0m) \
(\x1b[0m\x1b[1m\x1b[38;5;11mparam\x1b[0m \x1b[0m\x1b[1m\x1b[38;5;10mi32\x1b[0m) \
(\x1b[0m\x1b[1m\x1b[38;5;11mresult\x1b[0m \x1b[0m\x1b[1m\x1b[38;5;10mi32\x1b[0m)
\x1b[0m\x1b[36m(;@20    ;)\x1b[0m    local.get \x1b[0m\x1b[35m0\x1b[0m
\x1b[0m\x1b[36m(;@22    ;)\x1b[0m  )
\x1b[0m\x1b[36m(;@23    ;)\x1b[0m)
";

/// The lines before the body of a function without parameters and results.
const HEADER: &str = "(\x1b[0m\x1b[1m\x1b[38;5;11mmodule\x1b[0m
  (\x1b[0m\x1b[1m\x1b[38;5;11mtype \x1b[0m\x1b[0m\x1b[35m(;0;)\x1b[0m (\x1b[0m\x1b[1m\x1b[38;5;11mfunc\x1b[0m))
  (\x1b[0m\x1b[1m\x1b[38;5;11mfunc \x1b[0m\x1b[0m\x1b[35m(;0;)\x1b[0m \
(\x1b[0m\x1b[1m\x1b[38;5;11mtype \x1b[0m\x1b[0m\x1b[35m0\x1b[0m)
";

/// The lines of an `if` with a hint, with ANSI escape sequences.
const HINTED: &str = "    (@metadata.code.branch_hint \"\\01\")
    (if \x1b[0m\x1b[36m;; label = @1\x1b[0m
      (then))
";

/// The text of a module with expressions, with ANSI escape sequences.
const EXPRESSIONS_IN_COLORS: &str = "(\x1b[0m\x1b[1m\x1b[38;5;11mmodule\x1b[0m
  (\x1b[0m\x1b[1m\x1b[38;5;11mglobal \x1b[0m\x1b[0m\x1b[35m(;0;)\x1b[0m \x1b[0m\x1b[1m\x1b[38;5;10mi32\x1b[0m \
(block (\x1b[0m\x1b[1m\x1b[38;5;11mresult \x1b[0m\x1b[0m\x1b[1m\x1b[38;5;10mi32\x1b[0m) \
\x1b[0m\x1b[36m (; label = @1 ;)\x1b[0m (i32.const\x1b[0m\x1b[31m 1\x1b[0m)))
  (\x1b[0m\x1b[1m\x1b[38;5;11mdata \x1b[0m\x1b[0m\x1b[35m(;0;)\x1b[0m \
(\x1b[0m\x1b[1m\x1b[38;5;11m\x1b[0mi32.const\x1b[0m\x1b[31m 2\x1b[0m) \x1b[0m\x1b[31m\"\"\x1b[0m)
  (\x1b[0m\x1b[1m\x1b[38;5;11mdata \x1b[0m\x1b[0m\x1b[35m(;1;)\x1b[0m \
(\x1b[0m\x1b[1m\x1b[38;5;11m\x1b[0moffset (i32.eqz (i32.const\x1b[0m\x1b[31m 3\x1b[0m))) \x1b[0m\x1b[31m\"\"\x1b[0m)
)
";

/// The text of a module with ANSI escape sequences and places.
const PLACED: &str = "(\x1b[0m\x1b[1m\x1b[38;5;11mmodule\x1b[0m
\x1b[0m\x1b[36m(;@b     ;)\x1b[0m  (\x1b[0m\x1b[1m\x1b[38;5;11mtype \x1b[0m\x1b[0m\x1b[35m(;0;)\x1b[0m \
(\x1b[0m\x1b[1m\x1b[38;5;11mfunc\x1b[0m))
\x1b[0m\x1b[36m(;@16    ;)\x1b[0m  (\x1b[0m\x1b[1m\x1b[38;5;11mfunc \x1b[0m\x1b[0m\x1b[35m(;0;)\x1b[0m \
(\x1b[0m\x1b[1m\x1b[38;5;11mtype \x1b[0m\x1b[0m\x1b[35m0\x1b[0m)
\x1b[0m\x1b[36m(;@19    ;)\x1b[0m    (drop
\x1b[0m\x1b[36m(;@17    ;)\x1b[0m      (i32.const\x1b[0m\x1b[31m 1\x1b[0m))
\x1b[0m\x1b[36m(;@1a    ;)\x1b[0m  )
\x1b[0m\x1b[36m(;@1b    ;)\x1b[0m)
";

/// The text of a module, or its part that differs from the texts of other modules.
#[derive(Drop)]
enum Text {
    /// The whole text
    Whole(&'static str),
    /// The lines before the body of the last function, and the lines of that body
    Body(&'static str, &'static str),
}

impl Text {
    /// Returns the whole text.
    fn whole(&self, alloc: Global) -> Result<String, AllocError> {
        match self {
            Text::Whole(text) => String::from_str(alloc, text),
            Text::Body(header, lines) => format!(in alloc; "{header}{lines}  )\n)\n"),
        }
    }
}

/// A module: the name of the row, the options, the parts, and the text.
type Row = (&'static str, Options, Parts, Text);

/// Modules, each with its text with ANSI escape sequences.
const ROWS: &[Row] = &[
    (
        "a module without fields",
        Default,
        &[Bytes(PREAMBLE)],
        Text::Whole("(\x1b[0m\x1b[1m\x1b[38;5;11mmodule\x1b[0m)\n"),
    ),
    (
        "a function",
        Default,
        &[Bytes(IDENTITY)],
        Text::Whole(IDENTITY_COLORED),
    ),
    (
        "places, which are comments",
        Places,
        &[Bytes(IDENTITY)],
        Text::Whole(PLACES_COLORED),
    ),
    (
        "a number",
        Folded,
        &[
            Bytes(PREAMBLE),
            NO_PARAMS,
            ONE_FUNCTION,
            Body(&[0x41, 0x01, 0x1a]),
        ],
        Text::Body(
            HEADER,
            "    (drop\n      (i32.const\x1b[0m\x1b[31m 1\x1b[0m))\n",
        ),
    ),
    (
        "the comment of a label, which has a style",
        Folded,
        &[
            Bytes(PREAMBLE),
            NO_PARAMS,
            ONE_FUNCTION,
            Body(&[0x02, 0x40, 0x0b]),
        ],
        Text::Body(
            HEADER,
            "    (block \x1b[0m\x1b[36m;; label = @1\x1b[0m\n    )\n",
        ),
    ),
    (
        "the words of the arms, which have no style",
        Folded,
        &[
            Bytes(PREAMBLE),
            NO_PARAMS,
            ONE_FUNCTION,
            Body(&[0x04, 0x40, 0x05, 0x0b]),
        ],
        Text::Body(
            HEADER,
            "    (if \x1b[0m\x1b[36m;; label = @1\x1b[0m\n      (then)\n      (else))\n",
        ),
    ),
    (
        "indices",
        Folded,
        &[
            Bytes(PREAMBLE),
            NO_PARAMS,
            ONE_FUNCTION,
            Body(&[0x20, 0x00, 0x24, 0x07]),
        ],
        Text::Body(
            HEADER,
            "    (global.set \x1b[0m\x1b[35m7\x1b[0m\n      (local.get \x1b[0m\x1b[35m0\x1b[0m))\n",
        ),
    ),
    (
        "a result, a label and its comment",
        Folded,
        &[
            Bytes(PREAMBLE),
            NO_PARAMS,
            ONE_FUNCTION,
            Body(&[0x02, 0x7f, 0x41, 0x00, 0x0c, 0x00, 0x0b, 0x1a]),
        ],
        Text::Body(
            HEADER,
            "    (drop
      (block (\x1b[0m\x1b[1m\x1b[38;5;11mresult \x1b[0m\x1b[0m\x1b[1m\x1b[38;5;10mi32\x1b[0m) \
\x1b[0m\x1b[36m;; label = @1\x1b[0m
        (br \x1b[0m\x1b[35m0\x1b[0m\x1b[0m\x1b[36m (;@1;)\x1b[0m
          (i32.const\x1b[0m\x1b[31m 0\x1b[0m))))
",
        ),
    ),
    (
        "a type",
        Folded,
        &[
            Bytes(PREAMBLE),
            NO_PARAMS,
            ONE_FUNCTION,
            Body(&[0xd0, 0x70, 0xd1]),
        ],
        Text::Body(
            HEADER,
            "    (ref.is_null\n      (ref.null \x1b[0m\x1b[1m\x1b[38;5;10mfunc\x1b[0m))\n",
        ),
    ),
    (
        "a number with a comment",
        Folded,
        &[
            Bytes(PREAMBLE),
            NO_PARAMS,
            ONE_FUNCTION,
            Body(&[0x43, 0x00, 0x00, 0x80, 0xff, 0x8c]),
        ],
        Text::Body(
            HEADER,
            "    (f32.neg\n      (f32.const -\x1b[0m\x1b[31minf \x1b[0m\x1b[36m(;=-inf;)\x1b[0m))\n",
        ),
    ),
    (
        "a label that does not exist, which has no style",
        Folded,
        &[
            Bytes(PREAMBLE),
            NO_PARAMS,
            ONE_FUNCTION,
            Body(&[0x0c, 0x01]),
        ],
        Text::Body(HEADER, "    (br 1 (; INVALID ;))\n"),
    ),
    (
        "a hint for the first operator of a function",
        Folded,
        &[
            Bytes(PREAMBLE),
            NO_PARAMS,
            ONE_FUNCTION,
            Custom(HINTS, &[0x01, 0x00, 0x01, 0x01, 0x01, 0x01]),
            Body(&[0x04, 0x40, 0x0b]),
        ],
        Text::Body(HEADER, HINTED),
    ),
    (
        "a global with a block, and segments with offsets of one operator and of two",
        Folded,
        &[
            Bytes(PREAMBLE),
            Section(
                GLOBAL,
                &[0x01, 0x7f, 0x00, 0x02, 0x7f, 0x41, 0x01, 0x0b, 0x0b],
            ),
            Section(
                DATA,
                &[
                    0x02, 0x00, 0x41, 0x02, 0x0b, 0x00, 0x00, 0x41, 0x03, 0x45, 0x0b, 0x00,
                ],
            ),
        ],
        Text::Whole(EXPRESSIONS_IN_COLORS),
    ),
    (
        "places",
        FoldedPlaces,
        &[
            Bytes(PREAMBLE),
            NO_PARAMS,
            ONE_FUNCTION,
            Body(&[0x41, 0x01, 0x1a]),
        ],
        Text::Whole(PLACED),
    ),
];

/// Reports whether both functions that print to bytes with ANSI escape sequences write this text.
fn is_colored_as(alloc: Global, config: &Config, wasm: &[u8], typed: &[u8]) -> Result<bool, Error> {
    Ok(
        config.print_to_ansi(alloc, wasm)?.as_slice() == typed
            && colored_text_by(config, alloc, wasm)?.as_slice() == typed,
    )
}

/// Reports whether the module of a row has its text.
fn is_row(alloc: Global, row: &Row) -> Result<bool, Error> {
    let (_, options, parts, typed) = row;
    let wasm = build(alloc, parts)?;
    let text = typed.whole(alloc)?;
    is_colored_as(alloc, &options.config(), &wasm, text.as_bytes())
}

/// Returns the name of the first row that is refused or has another text, or `None` if there is no such row.
fn first_other(alloc: Global, rows: &[Row]) -> Option<&'static str> {
    for row in rows {
        if !matches!(is_row(alloc, row), Ok(true)) {
            return Some(row.0);
        }
    }
    None
}

#[test]
fn prints_in_colors(rt: HostRuntime) {
    let other = first_other(rt.alloc(), ROWS);
    assert!(rt; other == None, "{other:?}");
}

/// Modules that are refused with the default options: the name of the row, the parts, and the reason.
const REFUSED: &[(&str, Parts, Refusal)] = &[
    (
        "a preamble that is cut",
        &[Slice(PREAMBLE, 0, 7)],
        Refusal::Malformed { place: 0 },
    ),
    (
        "a component",
        &[Bytes(&[0x00, 0x61, 0x73, 0x6d, 0x0d, 0x00, 0x01, 0x00])],
        Refusal::Component,
    ),
    (
        "an unknown subsection",
        &[Bytes(PREAMBLE), Custom("dylink.0", &[0x09, 0x00])],
        Refusal::DylinkSubsection { id: 9 },
    ),
];

/// Returns the error with which printing a module in colors fails, or `None` if it is printed.
fn refusal_of(alloc: Global, wasm: &[u8]) -> Option<Error> {
    Config::new().print_to_ansi(alloc, wasm).err()
}

/// Checks that each module is refused for its reason if it is printed in colors.
///
/// # Errors
///
/// - A module is not refused for its reason.
fn expect_refused(alloc: Global, rows: &[(&'static str, Parts, Refusal)]) -> Result<(), Fail> {
    for (name, parts, refusal) in rows {
        let wasm = build(alloc, parts)?;
        if !refusal.is(refusal_of(alloc, &wasm)) {
            return Err((*name, "is not refused in colors"))?;
        }
    }
    Ok(())
}

#[test]
fn refuses_in_colors_what_it_refuses_without(rt: HostRuntime) -> Result<(), Fail> {
    expect_refused(rt.alloc(), REFUSED)?;
    let cut = refusal_of(rt.alloc(), &IDENTITY[..34]);
    assert!(rt; matches!(cut, Some(Error::Malformed { .. })));
    Ok(())
}

/// The number of functions of a large module.
const FUNCTIONS: u32 = 3000;

/// A module with functions without locals and operators.
const LARGE: Parts = &[
    Bytes(PREAMBLE),
    NO_PARAMS,
    // A function section of 3,002 bytes, and the number of functions
    Bytes(&[0x03, 0xba, 0x17, 0xb8, 0x17]),
    Copies(FUNCTIONS, &[0x00]),
    // A code section of 9,002 bytes, and the number of bodies
    Bytes(&[0x0a, 0xaa, 0x46, 0xb8, 0x17]),
    Copies(FUNCTIONS, &[0x02, 0x00, 0x0b]),
];

/// The text of the large module with colors.
const LARGE_TEXT: &[TextPart] = &[
    TextPart::Text(
        "(\x1b[0m\x1b[1m\x1b[38;5;11mmodule\x1b[0m
  (\x1b[0m\x1b[1m\x1b[38;5;11mtype \x1b[0m\x1b[0m\x1b[35m(;0;)\x1b[0m (\x1b[0m\x1b[1m\x1b[38;5;11mfunc\x1b[0m))
",
    ),
    TextPart::Numbered(
        FUNCTIONS,
        "  (\x1b[0m\x1b[1m\x1b[38;5;11mfunc \x1b[0m\x1b[0m\x1b[35m(;",
        ";)\x1b[0m (\x1b[0m\x1b[1m\x1b[38;5;11mtype \x1b[0m\x1b[0m\x1b[35m0\x1b[0m))\n",
    ),
    TextPart::Text(")\n"),
];

#[test]
fn prints_a_large_module_in_colors(rt: HostRuntime) -> Result<(), Fail> {
    let wasm = build(rt.alloc(), LARGE)?;
    let typed = text_of_parts(rt.alloc(), LARGE_TEXT)?;
    assert!(rt; is_colored_as(rt.alloc(), &Config::new(), &wasm, typed.as_bytes())?);
    Ok(())
}
