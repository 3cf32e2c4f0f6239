//! Runs of the program over files that the tests write. Expected texts are typed by hand.

use crate::error_lines::ByDisplay;
use crate::program::{launch, run};
use crate::sink_trait::Sink;
use std::alloc::{AllocError, Global};
use std::io::{ErrorKind, Write};
use std::process::ExitCode;
use std::test::Fail;
use std::{env, fs, io};
use wasmprinter_samples::{EMPTY_TEXT, IDENTITY, IDENTITY_TEXT, PREAMBLE};

/// A function with 50001 locals of type i32, whose body begins at byte 22.
const MANY_LOCALS: &[u8] = &[
    0x00, 0x61, 0x73, 0x6d, 0x01, 0x00, 0x00, 0x00, 0x01, 0x04, 0x01, 0x60, 0x00, 0x00, 0x03, 0x02,
    0x01, 0x00, 0x0a, 0x08, 0x01, 0x06, 0x01, 0xd1, 0x86, 0x03, 0x7f, 0x0b,
];

const USAGE: &str =
    "usage: printwasm [--offsets] [--skeleton] [--name-unnamed] [--fold] [--color] FILE\n";

/// The line for a file that can't be read.
const UNREADABLE: &str = "error: the file can't be read\n";

/// The line for a text that can't be written.
const UNWRITTEN: &str = "error: the printer failed\n";

/// The output of a run, and its status.
#[derive(Drop)]
pub struct Outcome {
    out: Vec<u8>,
    err: Vec<u8>,
    status: u8,
}

/// Returns these words as strings.
pub fn strings_of(alloc: Global, words: &[&str]) -> Result<Vec<String>, Fail> {
    let mut owned = Vec::new(alloc);
    for word in words {
        owned.push(String::from_str(alloc, word)?)?;
    }
    Ok(owned)
}

/// Runs the program with these words and sinks, and returns its status.
fn run_into<O: Sink, E: Sink>(
    rt: &HostRuntime,
    words: &[&str],
    out: &mut O,
    err: &mut E,
) -> Result<u8, Fail> {
    let owned = strings_of(rt.alloc(), words)?;
    Ok(run(rt, &ByDisplay, rt.alloc(), &owned, out, err))
}

/// Runs the program with these words.
pub fn run_with(rt: &HostRuntime, words: &[&str]) -> Result<Outcome, Fail> {
    let mut out = Vec::new(rt.alloc());
    let mut err = Vec::new(rt.alloc());
    let status = run_into(rt, words, &mut out, &mut err)?;
    Ok(Outcome { out, err, status })
}

/// Returns whether a run succeeded, printed this text, and reported nothing.
pub fn has_printed(outcome: &Outcome, text: &str) -> bool {
    outcome.status == 0 && outcome.out.as_slice() == text.as_bytes() && outcome.err.is_empty()
}

/// Returns whether a run ended with this status, printed nothing, and reported this text.
fn has_reported(outcome: &Outcome, status: u8, text: &str) -> bool {
    outcome.status == status && outcome.out.is_empty() && outcome.err.as_slice() == text.as_bytes()
}

/// The identity function with places before lines, without its body, and with synthesized identifiers.
const WITH_OPTIONS: &str = r#"(module
(;@b     ;)  (type $#type0 (;0;) (func (param i32) (result i32)))
(;@17    ;)  (export "f" (func $#func0))
(;@1f    ;)  (func $#func0 (;0;) (type $#type0) (param $#local0 i32) (result i32) ...)
(;@23    ;))
"#;

/// The identity function with places before lines.
const OFFSETS: &str = r#"(module
(;@b     ;)  (type (;0;) (func (param i32) (result i32)))
(;@17    ;)  (export "f" (func 0))
(;@1f    ;)  (func (;0;) (type 0) (param i32) (result i32)
(;@20    ;)    local.get 0
(;@22    ;)  )
(;@23    ;))
"#;

/// The identity function without its body.
const SKELETON: &str = r#"(module
  (type (;0;) (func (param i32) (result i32)))
  (export "f" (func 0))
  (func (;0;) (type 0) (param i32) (result i32) ...)
)
"#;

/// The identity function with synthesized identifiers.
const NAME_UNNAMED: &str = r#"(module
  (type $#type0 (;0;) (func (param i32) (result i32)))
  (export "f" (func $#func0))
  (func $#func0 (;0;) (type $#type0) (param $#local0 i32) (result i32)
    local.get $#local0
  )
)
"#;

/// The identity function with folded operators.
const FOLDED: &str = r#"(module
  (type (;0;) (func (param i32) (result i32)))
  (export "f" (func 0))
  (func (;0;) (type 0) (param i32) (result i32)
    (local.get 0)
  )
)
"#;

/// The identity function in color.
const COLORED: &str = "(\x1b[0m\x1b[1m\x1b[38;5;11mmodule\x1b[0m
  (\x1b[0m\x1b[1m\x1b[38;5;11mtype \x1b[0m\x1b[0m\x1b[35m(;0;)\x1b[0m (\x1b[0m\x1b[1m\x1b[38;5;11mfunc\x1b[0m \
(\x1b[0m\x1b[1m\x1b[38;5;11mparam\x1b[0m \x1b[0m\x1b[1m\x1b[38;5;10mi32\x1b[0m) \
(\x1b[0m\x1b[1m\x1b[38;5;11mresult\x1b[0m \x1b[0m\x1b[1m\x1b[38;5;10mi32\x1b[0m)))
  (\x1b[0m\x1b[1m\x1b[38;5;11mexport \x1b[0m\x1b[0m\x1b[31m\"f\"\x1b[0m (\x1b[0m\x1b[1m\x1b[38;5;11mfunc \x1b[0m\x1b[0m\x1b[35m0\x1b[0m))
  (\x1b[0m\x1b[1m\x1b[38;5;11mfunc \x1b[0m\x1b[0m\x1b[35m(;0;)\x1b[0m \
(\x1b[0m\x1b[1m\x1b[38;5;11mtype \x1b[0m\x1b[0m\x1b[35m0\x1b[0m) \
(\x1b[0m\x1b[1m\x1b[38;5;11mparam\x1b[0m \x1b[0m\x1b[1m\x1b[38;5;10mi32\x1b[0m) \
(\x1b[0m\x1b[1m\x1b[38;5;11mresult\x1b[0m \x1b[0m\x1b[1m\x1b[38;5;10mi32\x1b[0m)
    local.get \x1b[0m\x1b[35m0\x1b[0m
  )
)
";

/// The identity function in color, with places before lines and without its body.
const OUTLINE_COLORED: &str = "(\x1b[0m\x1b[1m\x1b[38;5;11mmodule\x1b[0m
\x1b[0m\x1b[36m(;@b     ;)\x1b[0m  (\x1b[0m\x1b[1m\x1b[38;5;11mtype \x1b[0m\x1b[0m\x1b[35m(;0;)\x1b[0m \
(\x1b[0m\x1b[1m\x1b[38;5;11mfunc\x1b[0m \
(\x1b[0m\x1b[1m\x1b[38;5;11mparam\x1b[0m \x1b[0m\x1b[1m\x1b[38;5;10mi32\x1b[0m) \
(\x1b[0m\x1b[1m\x1b[38;5;11mresult\x1b[0m \x1b[0m\x1b[1m\x1b[38;5;10mi32\x1b[0m)))
\x1b[0m\x1b[36m(;@17    ;)\x1b[0m  (\x1b[0m\x1b[1m\x1b[38;5;11mexport \x1b[0m\x1b[0m\x1b[31m\"f\"\x1b[0m \
(\x1b[0m\x1b[1m\x1b[38;5;11mfunc \x1b[0m\x1b[0m\x1b[35m0\x1b[0m))
\x1b[0m\x1b[36m(;@1f    ;)\x1b[0m  (\x1b[0m\x1b[1m\x1b[38;5;11mfunc \x1b[0m\x1b[0m\x1b[35m(;0;)\x1b[0m \
(\x1b[0m\x1b[1m\x1b[38;5;11mtype \x1b[0m\x1b[0m\x1b[35m0\x1b[0m) \
(\x1b[0m\x1b[1m\x1b[38;5;11mparam\x1b[0m \x1b[0m\x1b[1m\x1b[38;5;10mi32\x1b[0m) \
(\x1b[0m\x1b[1m\x1b[38;5;11mresult\x1b[0m \x1b[0m\x1b[1m\x1b[38;5;10mi32\x1b[0m) ...)
\x1b[0m\x1b[36m(;@23    ;)\x1b[0m)
";

/// A function with a legacy `try` at byte 23.
const OLDER_TRY: &[u8] = &[
    0x00, 0x61, 0x73, 0x6d, 0x01, 0x00, 0x00, 0x00, 0x01, 0x04, 0x01, 0x60, 0x00, 0x00, 0x03, 0x02,
    0x01, 0x00, 0x0a, 0x08, 0x01, 0x06, 0x00, 0x06, 0x40, 0x19, 0x0b, 0x0b,
];

/// The text of that function without its body.
const OLDER_TRY_OUTLINE: &str = r#"(module
  (type (;0;) (func))
  (func (;0;) (type 0) ...)
)
"#;

/// The words of a run.
pub type Words = &'static [&'static str];

/// A run over a file: the name of the row, the bytes of the file, the words, and the text of standard output, or of
/// standard error if the module is refused. The words of each row name the file,
/// except in the row of a missing file.
type Row = (&'static str, &'static [u8], Words, &'static str);

/// Modules that are printed, with the options of the words.
const PRINTED: &[Row] = &[
    (
        "a module without fields",
        PREAMBLE,
        &["printed.wasm"],
        EMPTY_TEXT,
    ),
    ("a function", IDENTITY, &["printed.wasm"], IDENTITY_TEXT),
    ("places", IDENTITY, &["--offsets", "printed.wasm"], OFFSETS),
    (
        "a skeleton",
        IDENTITY,
        &["--skeleton", "printed.wasm"],
        SKELETON,
    ),
    (
        "identifiers",
        IDENTITY,
        &["--name-unnamed", "printed.wasm"],
        NAME_UNNAMED,
    ),
    (
        "folded operators",
        IDENTITY,
        &["--fold", "printed.wasm"],
        FOLDED,
    ),
    ("colors", IDENTITY, &["--color", "printed.wasm"], COLORED),
    (
        "three options before the file",
        IDENTITY,
        &["--offsets", "--skeleton", "--name-unnamed", "printed.wasm"],
        WITH_OPTIONS,
    ),
    (
        "three options after the file",
        IDENTITY,
        &["printed.wasm", "--name-unnamed", "--skeleton", "--offsets"],
        WITH_OPTIONS,
    ),
    (
        "an option that is repeated",
        IDENTITY,
        &[
            "--skeleton",
            "--offsets",
            "--skeleton",
            "printed.wasm",
            "--name-unnamed",
        ],
        WITH_OPTIONS,
    ),
    (
        "colors with other options before the file",
        IDENTITY,
        &["--color", "--offsets", "--skeleton", "printed.wasm"],
        OUTLINE_COLORED,
    ),
    (
        "colors that are repeated",
        IDENTITY,
        &[
            "printed.wasm",
            "--skeleton",
            "--color",
            "--offsets",
            "--color",
        ],
        OUTLINE_COLORED,
    ),
    // A skeleton has no bodies.
    (
        "a skeleton of a body that can't be folded",
        OLDER_TRY,
        &["--fold", "--skeleton", "printed.wasm"],
        OLDER_TRY_OUTLINE,
    ),
];

/// Returns whether a run ended with this status: with status 0 it printed this text and reported nothing, with any
/// other it printed nothing and reported this text.
fn ends_as(outcome: &Outcome, status: u8, text: &str) -> bool {
    if status == 0 {
        has_printed(outcome, text)
    } else {
        has_reported(outcome, status, text)
    }
}

/// Returns whether a run over a file with the bytes of this row ends with this status, and with the text of the row.
fn is_row(rt: &HostRuntime, file: &str, row: &Row, status: u8) -> Result<bool, Fail> {
    let (_, bytes, words, text) = row;
    fs::write(rt, file, *bytes)?;
    let outcome = run_with(rt, words)?;
    fs::remove_file(rt, file)?;
    Ok(ends_as(&outcome, status, text))
}

/// Returns the name of the first row whose run does not end with this status and with its text, or `None` if there
/// is no such row.
fn first_other_row(
    rt: &HostRuntime,
    file: &str,
    rows: &[Row],
    status: u8,
) -> Result<Option<&'static str>, Fail> {
    for row in rows {
        if !is_row(rt, file, row, status)? {
            return Ok(Some(row.0));
        }
    }
    Ok(None)
}

#[test]
fn prints_modules_by_options(rt: HostRuntime) -> Result<(), Fail> {
    let other = first_other_row(&rt, "printed.wasm", PRINTED, 0)?;
    assert!(rt; other == None, "{other:?}");
    Ok(())
}

/// A `dylink.0` section with subsection 9.
const UNKNOWN_SUBSECTION: &[u8] = b"\0asm\x01\0\0\0\0\x0b\x08dylink.0\x09\0";

/// The preamble of a component.
const COMPONENT: &[u8] = &[0x00, 0x61, 0x73, 0x6d, 0x0d, 0x00, 0x01, 0x00];

/// The preamble without its last byte.
const CUT: &[u8] = &[0x00, 0x61, 0x73, 0x6d, 0x01, 0x00, 0x00];

/// The line for an operator that can't be folded.
const UNFOLDED: &str = "error: legacy exception operator at byte 0x17 can't be folded\n";

/// Files that are refused, with the reported lines.
const REFUSED: &[Row] = &[
    // The reported place of a malformed preamble is its start.
    (
        "a module that is cut",
        CUT,
        &["refused.wasm"],
        "error: malformed module at byte 0x0\n",
    ),
    (
        "too many locals",
        MANY_LOCALS,
        &["refused.wasm"],
        "error: function at byte 0x16 has more than 50000 locals\n",
    ),
    (
        "an operator that can't be folded",
        OLDER_TRY,
        &["--fold", "refused.wasm"],
        UNFOLDED,
    ),
    (
        "an operator that can't be folded, in colors",
        OLDER_TRY,
        &["--color", "--fold", "refused.wasm"],
        UNFOLDED,
    ),
    (
        "an unknown subsection",
        UNKNOWN_SUBSECTION,
        &["refused.wasm"],
        "error: unknown dylink.0 subsection 9\n",
    ),
    (
        "a component",
        COMPONENT,
        &["refused.wasm"],
        "error: components are not supported\n",
    ),
    ("a missing file", PREAMBLE, &["no such file"], UNREADABLE),
];

#[test]
fn refuses_files(rt: HostRuntime) -> Result<(), Fail> {
    let other = first_other_row(&rt, "refused.wasm", REFUSED, 1)?;
    assert!(rt; other == None, "{other:?}");
    Ok(())
}

/// Returns whether a run with these words prints this text.
fn prints(rt: &HostRuntime, words: &[&str], text: &str) -> Result<bool, Fail> {
    let outcome = run_with(rt, words)?;
    Ok(has_printed(&outcome, text))
}

/// Returns whether a run with these words ends with status 1, and prints nothing.
fn prints_nothing(rt: &HostRuntime, words: &[&str]) -> Result<bool, Fail> {
    let outcome = run_with(rt, words)?;
    Ok(outcome.status == 1 && outcome.out.is_empty())
}

#[test]
fn reads_the_file_of_that_very_name(rt: HostRuntime) -> Result<(), Fail> {
    fs::write(&rt, "named.wasm", PREAMBLE)?;
    fs::write(&rt, "named.wasm ", &IDENTITY[..9])?;
    assert!(rt; prints_nothing(&rt, &["named.wasm "])?);
    fs::remove_file(&rt, "named.wasm ")?;
    assert!(rt; prints(&rt, &["named.wasm"], EMPTY_TEXT)?);
    fs::remove_file(&rt, "named.wasm")?;
    Ok(())
}

/// Words that name no file, that name two files, or that contain an unknown option.
const MISUSES: &[Words] = &[
    &[],
    &["a.wasm", "b.wasm"],
    &["a.wasm", "b.wasm", "c.wasm"],
    &["a.wasm", "b.wasm", "c.wasm", "d.wasm"],
    &["--offsets"],
    &["--offsets", "a.wasm", "--help"],
    &["--", "a.wasm"],
    &["a.wasm", "--offset"],
    &["--color"],
    &["--colors", "a.wasm"],
];

/// Returns whether the program with these words reports its usage.
fn reports_usage(rt: &HostRuntime, words: &[&str]) -> Result<bool, Fail> {
    let outcome = run_with(rt, words)?;
    Ok(has_reported(&outcome, 2, USAGE))
}

/// Returns the first words with which the usage is not reported, or `None` if there are no such words.
fn first_without_usage(rt: &HostRuntime, rows: &[Words]) -> Result<Option<Words>, Fail> {
    for words in rows {
        if !reports_usage(rt, words)? {
            return Ok(Some(*words));
        }
    }
    Ok(None)
}

#[test]
fn prints_its_usage(rt: HostRuntime) -> Result<(), Fail> {
    let other = first_without_usage(&rt, MISUSES)?;
    assert!(rt; other == None, "{other:?}");
    Ok(())
}

/// A writer that accepts this many more bytes, and then fails.
#[derive(Drop)]
struct Narrow {
    taken: Vec<u8>,
    room: usize,
}

impl Narrow {
    fn new(rt: &HostRuntime, room: usize) -> Narrow {
        Narrow {
            taken: Vec::new(rt.alloc()),
            room,
        }
    }
}

impl Write for Narrow {
    fn write(&mut self, bytes: &[u8]) -> io::Result<usize> {
        let count = bytes.len().min(self.room);
        if count == 0 {
            return Err(io::Error::other("no room"));
        }
        self.taken.extend_from_slice(&bytes[..count])?;
        self.room -= count;
        Ok(count)
    }

    fn flush(&mut self) -> io::Result<()> {
        Ok(())
    }
}

/// Returns whether the program with these words fills a sink of this size with a prefix of the text, and reports
/// that the text could not be written.
fn fills(rt: &HostRuntime, words: &[&str], text: &str, room: usize) -> Result<bool, Fail> {
    let mut out = Narrow::new(rt, room);
    let mut err = Vec::new(rt.alloc());
    let status = run_into(rt, words, &mut out, &mut err)?;
    Ok(
        status == 1
            && out.taken.len() == room
            && text.as_bytes().starts_with(&out.taken)
            && err.as_slice() == UNWRITTEN.as_bytes(),
    )
}

#[test]
fn reports_that_the_text_could_not_be_written(rt: HostRuntime) -> Result<(), Fail> {
    fs::write(&rt, "narrow.wasm", PREAMBLE)?;
    assert!(rt; fills(&rt, &["narrow.wasm"], EMPTY_TEXT, 0)?, "no room");
    assert!(rt;
        fills(&rt, &["narrow.wasm"], EMPTY_TEXT, 5)?,
        "room for 5 bytes"
    );
    fs::remove_file(&rt, "narrow.wasm")?;
    Ok(())
}

/// Returns whether the program with these words ends with this status and prints nothing, and fills a sink of this
/// size with a prefix of its report.
fn keeps_status(
    rt: &HostRuntime,
    words: &[&str],
    status: u8,
    report: &str,
    room: usize,
) -> Result<bool, Fail> {
    let mut out = Vec::new(rt.alloc());
    let mut err = Narrow::new(rt, room);
    let answer = run_into(rt, words, &mut out, &mut err)?;
    Ok(
        answer == status
            && out.is_empty()
            && err.taken.len() == room
            && report.as_bytes().starts_with(&err.taken),
    )
}

/// Words for which nothing is printed, with the exit status and the report.
type Unmet = (Words, u8, &'static str);

/// A file that can't be read, and no file.
const UNMET: &[Unmet] = &[(&["no such file"], 1, UNREADABLE), (&[], 2, USAGE)];

/// Returns the first words with which the program does not keep its status for a sink that is full from the start
/// or after five bytes, or does not fill it with its report. Returns `None` if there are no such words.
fn first_other_status(rt: &HostRuntime, rows: &[Unmet]) -> Result<Option<Words>, Fail> {
    for (words, status, report) in rows {
        if !keeps_status(rt, words, *status, report, 0)?
            || !keeps_status(rt, words, *status, report, 5)?
        {
            return Ok(Some(*words));
        }
    }
    Ok(None)
}

#[test]
fn keeps_its_status_if_errors_can_not_be_written(rt: HostRuntime) -> Result<(), Fail> {
    let other = first_other_status(&rt, UNMET)?;
    assert!(rt; other == None, "{other:?}");
    Ok(())
}

/// Returns whether the program that is started with these arguments ends with this status, prints nothing, and
/// reports this text.
fn starts(rt: &HostRuntime, words: &[&str], status: u8, text: &str) -> Result<bool, Fail> {
    let args = Ok(strings_of(rt.alloc(), words)?.into_iter());
    let mut out = Vec::new(rt.alloc());
    let mut err = Vec::new(rt.alloc());
    let code = launch(rt, &ByDisplay, rt.alloc(), args, &mut out, &mut err);
    Ok(code == ExitCode::from(status) && out.is_empty() && err.as_slice() == text.as_bytes())
}

/// Arguments of the program, of which the first is its own name, with the exit status and the reported text.
type Start = (Words, u8, &'static str);

/// Starts of the program after which nothing is printed.
const STARTS: &[Start] = &[
    (&[], 2, USAGE),
    (&["printwasm"], 2, USAGE),
    (&["printwasm", "no such file"], 1, UNREADABLE),
    (&["printwasm", "no such file", "nor this"], 2, USAGE),
    (
        &["printwasm", "no such file", "nor this", "nor that"],
        2,
        USAGE,
    ),
    (&["printwasm", "a", "b", "c", "d", "e", "f", "g"], 2, USAGE),
];

/// Returns the first arguments with which the program ends differently, or `None` if there are no such arguments.
fn first_other_start(rt: &HostRuntime, rows: &[Start]) -> Result<Option<Words>, Fail> {
    for (words, status, told) in rows {
        if !starts(rt, words, *status, told)? {
            return Ok(Some(*words));
        }
    }
    Ok(None)
}

#[test]
fn starts_with_all_words_but_its_name(rt: HostRuntime) -> Result<(), Fail> {
    let other = first_other_start(&rt, STARTS)?;
    assert!(rt; other == None, "{other:?}");
    Ok(())
}

/// Returns whether the program, if reading its arguments returns this error, ends with status 1, prints nothing,
/// and reports this text.
fn refuses_to_start(rt: &HostRuntime, error: io::Error, text: &str) -> bool {
    let args: io::Result<env::Args> = Err(error);
    let mut out = Vec::new(rt.alloc());
    let mut err = Vec::new(rt.alloc());
    let code = launch(rt, &ByDisplay, rt.alloc(), args, &mut out, &mut err);
    code == ExitCode::from(1) && out.is_empty() && err.as_slice() == text.as_bytes()
}

#[test]
fn reports_that_its_words_can_not_be_read(rt: HostRuntime) {
    let error = io::Error::from(AllocError);
    assert!(rt; refuses_to_start(&rt, error, "error: out of memory\n"));
    let error = io::Error::from(ErrorKind::InvalidData);
    assert!(rt; refuses_to_start(&rt, error, "error: an argument is not UTF-8\n"));
    let error = io::Error::other("no words");
    assert!(rt; refuses_to_start(&rt, error, "error: the arguments can't be read\n"));
}

/// The number of functions of the large module.
const MANY: u32 = 30_000;

/// Its type section, and the start of a function section of 30,003 bytes, up to the count.
const LARGE_TYPES: &[u8] = &[
    0x01, 0x04, 0x01, 0x60, 0x00, 0x00, // types
    0x03, 0xb3, 0xea, 0x01, // functions
    0xb0, 0xea, 0x01, // the count
];

/// The start of its code section of 90,003 bytes, up to the count.
const LARGE_CODE: &[u8] = &[
    0x0a, 0x93, 0xbf, 0x05, // code
    0xb0, 0xea, 0x01, // the count
];

/// Appends an item for each function of the large module.
fn extend_many(wasm: &mut Vec<u8>, item: &[u8]) -> Result<(), AllocError> {
    for _ in 0..MANY {
        wasm.extend_from_slice(item)?;
    }
    Ok(())
}

/// Appends the large module.
fn extend_large(wasm: &mut Vec<u8>) -> Result<(), AllocError> {
    wasm.extend_from_slice(PREAMBLE)?;
    wasm.extend_from_slice(LARGE_TYPES)?;
    // Type 0 for each function.
    extend_many(wasm, &[0x00])?;
    wasm.extend_from_slice(LARGE_CODE)?;
    // A body without locals and operators for each function.
    extend_many(wasm, &[0x02, 0x00, 0x0b])
}

/// Writes a file with the large module.
fn write_large(rt: &HostRuntime, file: &str) -> Result<(), Fail> {
    let mut wasm = Vec::new(rt.alloc());
    extend_large(&mut wasm)?;
    fs::write(rt, file, &wasm)?;
    Ok(())
}

/// Appends the lines of the functions of the large module.
fn write_functions(text: &mut String) -> Result<(), AllocError> {
    for number in 0..MANY {
        write!(text, "  (func (;{number};) (type 0))\n")?;
    }
    Ok(())
}

/// Returns the text of the large module.
fn large_text(alloc: Global) -> Result<String, AllocError> {
    let mut text = String::from_str(alloc, "(module\n  (type (;0;) (func))\n")?;
    write_functions(&mut text)?;
    text.push_str(")\n")?;
    Ok(text)
}

#[test]
fn prints_a_large_file_to_its_end(rt: HostRuntime) -> Result<(), Fail> {
    write_large(&rt, "large.wasm")?;
    let text = large_text(rt.alloc())?;
    let is_printed = prints(&rt, &["large.wasm"], text.as_str())?;
    fs::remove_file(&rt, "large.wasm")?;
    assert!(rt; is_printed);
    Ok(())
}

/// A writer that fails at the first write, and accepts all others.
#[derive(Drop)]
struct Late {
    taken: Vec<u8>,
    is_late: bool,
}

impl Write for Late {
    fn write(&mut self, bytes: &[u8]) -> io::Result<usize> {
        if !self.is_late {
            self.is_late = true;
            return Err(io::Error::other("not yet"));
        }
        self.taken.extend_from_slice(bytes)?;
        Ok(bytes.len())
    }

    fn flush(&mut self) -> io::Result<()> {
        Ok(())
    }
}

/// Returns whether the program with these words writes nothing to a sink after a failed write, and reports that
/// the text could not be written.
fn stops_after_a_failed_write(rt: &HostRuntime, words: &[&str]) -> Result<bool, Fail> {
    let mut out = Late {
        taken: Vec::new(rt.alloc()),
        is_late: false,
    };
    let mut err = Vec::new(rt.alloc());
    let status = run_into(rt, words, &mut out, &mut err)?;
    Ok(status == 1 && out.is_late && out.taken.is_empty() && err.as_slice() == UNWRITTEN.as_bytes())
}

#[test]
fn writes_nothing_after_a_failed_write(rt: HostRuntime) -> Result<(), Fail> {
    fs::write(&rt, "late.wasm", PREAMBLE)?;
    assert!(rt; stops_after_a_failed_write(&rt, &["late.wasm"])?);
    fs::remove_file(&rt, "late.wasm")?;
    Ok(())
}
