//! Tests of the text of expressions, in one line, and over several lines with hints. The expected texts are typed
//! by hand.
ghost use Rattle.std.specs.Prelude.{None};

use crate::parts::printing::{finish, names_of};
use std::alloc::Global;
use std::marker::Brand;
use std::test::Fail;
use wasmprinter_bytes::Error;
use wasmprinter_bytes::cursor::Cursor;
use wasmprinter_custom::{FunctionHints, Hints, Identifiers};
use wasmprinter_flat::open_labels::OpenLabels;
use wasmprinter_flat::operators::{Form, Setting, write_operators};
use wasmprinter_ops::composite_types::FuncType;
use wasmprinter_ops::expression::Expression;
use wasmprinter_print::{PrintFmtWrite, PrintOptions, Printer};
use wasmprinter_samples::expect_same;
use wasmprinter_text::type_use::Signatures;

/// The types of a module without types.
#[derive(Drop)]
struct NoTypes;

impl Signatures for NoTypes {
    ghost signature_at = { λ _ _. None };

    fn signature(&self, _index: u32) -> Option<FuncType<'_>> {
        None
    }
}

/// The place of the first byte of a body.
const BODY: u64 = 0x10;

/// The place of the first operator of the body, after the count of locals.
const OPERATORS: u64 = 0x11;

/// Returns the setting of an expression of function 0.
fn setting(form: Form, nesting: u64) -> Setting<'static, NoTypes> {
    Setting {
        form,
        types: &NoTypes,
        nesting,
        function: 0,
        body: BODY,
    }
}

/// Returns the text of the operators of an expression of function 0, in a module with these identifiers.
fn text_of_expression(
    alloc: Global,
    identifiers: Identifiers<'_, '_>,
    setting: &Setting<'_, NoTypes>,
    hints: FunctionHints<'_>,
    expression: &Expression<'_>,
) -> Result<String, Error> {
    let mut labels = OpenLabels::new(alloc, identifiers)?;
    let mut printer = PrintFmtWrite(String::new(alloc));
    let options = PrintOptions::new();
    let mut out: Printer<'_, '_, PrintFmtWrite<String>, Brand> = Printer::new(
        &mut printer,
        &options,
    );
    write_operators(&mut out, setting, &mut labels, hints, expression);
    finish(out)?;
    Ok(printer.0)
}

/// Returns the text of the operators that these bytes encode, in a module with the names of this section.
fn text_of_operators(
    alloc: Global,
    section: &[u8],
    synthesizes: bool,
    setting: &Setting<'_, NoTypes>,
    hints: FunctionHints<'_>,
    bytes: &[u8],
) -> Result<String, Error> {
    let expression = Expression::read(alloc, &mut Cursor::new(OPERATORS, bytes))?;
    let names = names_of(alloc, section)?;
    let identifiers = Identifiers {
        names: &names,
        synthesizes,
    };
    text_of_expression(alloc, identifiers, setting, hints, &expression)
}

/// Operators in one line: the name of the row, the content of a section with names, whether identifiers are
/// synthesized, the bytes, and the text.
type Line = (
    &'static str,
    &'static [u8],
    bool,
    &'static [u8],
    &'static str,
);

/// Names: local 0 of function 0 is `x`, its labels 0 and 1 are `a`; memory 0 is `m`, global 0 is `g`.
const NAMES: &[u8] =
    b"\x02\x06\x01\x00\x01\x00\x01x\x03\x09\x01\x00\x02\x00\x01a\x01\x01a\x06\x04\x01\x00\x01m\x07\x04\x01\x00\x01g";

const LINES: &[Line] = &[
    ("no operator", &[], false, &[0x0b], ""),
    (
        "one operator",
        &[],
        false,
        &[0x23, 0x02, 0x0b],
        "global.get 2",
    ),
    (
        "one space between operators",
        &[],
        false,
        &[0x41, 0x01, 0x41, 0x7b, 0x6a, 0x0b],
        "i32.const 1 i32.const -5 i32.add",
    ),
    (
        "a block within the line",
        &[],
        false,
        &[0x02, 0x7f, 0x41, 0x07, 0x0c, 0x00, 0x0b, 0x1a, 0x0b],
        "block (result i32)  (; label = @1 ;) i32.const 7 br 0 (;@1;) end drop",
    ),
    (
        "nested blocks within the line",
        &[],
        false,
        &[
            0x02, 0x40, 0x41, 0x01, 0x04, 0x40, 0x0c, 0x01, 0x05, 0x0c, 0x00, 0x0b, 0x0b, 0x0b,
        ],
        "block  (; label = @1 ;) i32.const 1 if  (; label = @2 ;) br 1 (;@1;) else br 0 (;@2;) end end",
    ),
    (
        "names in place of indices",
        NAMES,
        false,
        &[
            0x20, 0x00, 0x20, 0x01, 0x23, 0x00, 0x28, 0x02, 0x00, 0xfc, 0x0a, 0x00, 0x01, 0x0b,
        ],
        "local.get $x local.get 1 global.get $g i32.load memory.copy $m 1",
    ),
    (
        // The inner `a` shadows the outer one, and the third block has no name
        "names of labels",
        NAMES,
        false,
        &[
            0x02, 0x40, 0x02, 0x40, 0x0c, 0x00, 0x0c, 0x01, 0x0c, 0x02, 0x0b, 0x02, 0x40, 0x0c,
            0x00, 0x0c, 0x01, 0x0b, 0x0b, 0x0b,
        ],
        "block $a block $a br $a br 1 br 2 end block  (; label = @2 ;) br 0 (;@2;) br $a end end",
    ),
    (
        "synthesized identifiers",
        &[],
        true,
        &[0x20, 0x02, 0x10, 0x05, 0xfb, 0x02, 0x03, 0x01, 0x0b],
        "local.get $#local2 call $#func5 struct.get $#type3 $#field1",
    ),
    (
        "synthesized labels",
        &[],
        true,
        &[
            0x02, 0x40, 0x06, 0x40, 0x18, 0x00, 0x0c, 0x00, 0x0c, 0x01, 0x0b, 0x0b,
        ],
        "block $#label0 try $#label1 delegate $#label0 br $#label0 br 1 end",
    ),
];

/// Checks the text of the operators of a row.
///
/// # Errors
///
/// - The operators are not read, or their text differs.
fn expect_line(alloc: Global, line: &Line) -> Result<(), Fail> {
    let (name, section, synthesizes, bytes, typed) = line;
    let found = text_of_operators(
        alloc,
        section,
        *synthesizes,
        &setting(Form::InLine, 0),
        FunctionHints::none(),
        bytes,
    );
    match found {
        Ok(text) => expect_same(name, text.as_str(), typed),
        Err(error) => Err((*name, error))?,
    }
}

/// Checks the text of each row.
///
/// # Errors
///
/// - Operators are not read, or their text differs.
fn expect_lines(alloc: Global, lines: &[Line]) -> Result<(), Fail> {
    for line in lines {
        expect_line(alloc, line)?;
    }
    Ok(())
}

#[test]
fn prints_operators_in_one_line(rt: HostRuntime) -> Result<(), Fail> {
    expect_lines(rt.alloc(), LINES)
}

/// The text of two branches with hints, over several lines.
const HINTED_TEXT: &str = "\n    block ;; label = @1\
     \n      local.get 0\
     \n      (@metadata.code.branch_hint \"\\01\")\
     \n      br_if 0 (;@1;)\
     \n    end\
     \n    local.get 0\
     \n    (@metadata.code.branch_hint \"\\00\")\
     \n    if ;; label = @1\
     \n    end";

#[test]
fn hints_come_before_their_operators(rt: HostRuntime) -> Result<(), Fail> {
    // `br_if` is 5 bytes after the first byte of the body, `if` is 10 bytes after it
    let mut hints = Hints::of_section(0, &[0x01, 0x00, 0x02, 0x05, 0x01, 0x01, 0x0a, 0x01, 0x00]);
    let text = text_of_operators(
        rt.alloc(),
        &[],
        false,
        &setting(Form::OverLines, 2),
        hints.next_function(0),
        &[
            0x02, 0x40, 0x20, 0x00, 0x0d, 0x00, 0x0b, 0x20, 0x00, 0x04, 0x40, 0x0b, 0x0b,
        ],
    )?;
    expect_same("two hints", text.as_str(), HINTED_TEXT)
}
