//! Runs of the program over files in memory. Expected texts are typed by hand.
ghost use Rattle.std.specs.Prelude.{⊤};

use crate::excerpt_tests::{HINT, LONG};
use crate::function_tests::NAMED;
use crate::help::HELP;
use crate::hidden_tests::PADDED;
use crate::output::Output;
use crate::program::run;
use crate::system::{Inputs, Outputs};
use std::alloc::Global;
use std::io;
use std::io::{ErrorKind, Write};
use std::test::Fail;
use wasmprinter_samples::{EMPTY_TEXT, IDENTITY, IDENTITY_TEXT, PREAMBLE};

/// Files in memory, and standard input. Reading other files fails. The only file that can be created is `new.wat`.
#[derive(Clone, Copy)]
struct Memory {
    alloc: Global,
}

/// The preamble without its last byte.
const CUT: &[u8] = b"\0asm\x01\0\0";

/// A module with a section whose id does not exist.
const UNKNOWN_SECTION: &[u8] = b"\0asm\x01\0\0\0\x0e\0";

/// The preamble of a component.
const COMPONENT: &[u8] = b"\0asm\x0d\0\x01\0";

/// A module whose `dylink.0` section has subsection 9.
const LATE: &[u8] = b"\0asm\x01\0\0\0\0\x0b\x08dylink.0\x09\0";

impl Inputs for Memory {
    ghost reads = { λ _ _ _ _. ⊤ };

    ghost reads_input = { λ _ _ _. ⊤ };

    fn read_file(&mut self, path: &str) -> io::Result<Vec<u8>> {
        let bytes = match path {
            "empty.wasm" | "-empty.wasm" => PREAMBLE,
            "identity.wasm" => IDENTITY,
            "cut.wasm" => CUT,
            "section.wasm" => UNKNOWN_SECTION,
            "component.wasm" => COMPONENT,
            "late.wasm" => LATE,
            "long.wasm" => LONG,
            "hint.wasm" => HINT,
            "named.wasm" => NAMED,
            "padded.wasm" => PADDED,
            "locked.wasm" => return Err(io::Error::from(ErrorKind::PermissionDenied)),
            "folder" => return Err(io::Error::from(ErrorKind::IsADirectory)),
            _ => return Err(io::Error::from(ErrorKind::NotFound)),
        };
        Ok(bytes.to_vec(self.alloc)?)
    }

    fn read_input(&mut self) -> io::Result<Vec<u8>> {
        Ok(PREAMBLE.to_vec(self.alloc)?)
    }
}

impl Outputs<Vec<u8>> for Memory {
    ghost creates = { λ _ _ _ _. ⊤ };

    ghost closes = { λ _ _ _. ⊤ };

    fn create(&mut self, path: &str) -> io::Result<Vec<u8>> {
        match path {
            "new.wat" => Ok(Vec::new(self.alloc)),
            _ => Err(io::Error::from(ErrorKind::ReadOnlyFilesystem)),
        }
    }

    fn close(&mut self, _file: Vec<u8>) {}
}

/// What a run wrote, and its status.
#[derive(Drop)]
struct Outcome<O> {
    status: u8,
    out: O,
    err: Vec<u8>,
}

/// Runs the program with these words and this writer.
fn run_into<O: Output + Drop>(
    alloc: Global,
    words: &[&str],
    shows_colors: bool,
    out: O,
) -> Result<Outcome<O>, Fail> {
    let mut owned = Vec::new(alloc);
    for word in words {
        owned.push(String::from_str(alloc, word)?)?;
    }
    let mut err = Vec::new(alloc);
    let (status, out, _) = run(
        &mut Memory { alloc },
        Memory { alloc },
        alloc,
        &owned,
        shows_colors,
        out,
        &mut err,
    );
    Ok(Outcome { status, out, err })
}

/// A run: the words, the exit status, and the texts of standard output and standard error.
pub type Row = (&'static [&'static str], u8, &'static str, &'static str);

/// Returns whether the run of a row ends with its status and its texts.
fn is_row(alloc: Global, row: &Row) -> Result<bool, Fail> {
    let (words, status, out, err) = row;
    let outcome = run_into(alloc, words, false, Vec::new(alloc))?;
    Ok(
        outcome.status == *status
            && outcome.out.as_slice() == out.as_bytes()
            && outcome.err.as_slice() == err.as_bytes(),
    )
}

/// Returns the number of the first row whose run ends otherwise, or `None` if there is no such row.
pub fn first_other_row(alloc: Global, rows: &[Row]) -> Result<Option<usize>, Fail> {
    for (number, row) in rows.iter().enumerate() {
        if !is_row(alloc, row)? {
            return Ok(Some(number));
        }
    }
    Ok(None)
}

/// The empty module and the identity function.
const BOTH_TEXTS: &str = r#"(module)
(module
  (type (;0;) (func (param i32) (result i32)))
  (export "f" (func 0))
  (func (;0;) (type 0) (param i32) (result i32)
    local.get 0
  )
)
"#;

/// Files, in the order of the words.
const FILES: &[Row] = &[
    (&["empty.wasm"], 0, EMPTY_TEXT, ""),
    (&["empty.wasm", "identity.wasm"], 0, BOTH_TEXTS, ""),
    (&[], 0, EMPTY_TEXT, ""),
    (&["-"], 0, EMPTY_TEXT, ""),
    (&["-", "identity.wasm"], 0, BOTH_TEXTS, ""),
    (&["--", "-empty.wasm"], 0, EMPTY_TEXT, ""),
    (&["empty.wasm", "--", "identity.wasm"], 0, BOTH_TEXTS, ""),
    (&["--", "-", "identity.wasm"], 0, BOTH_TEXTS, ""),
];

#[test]
fn prints_files_in_order(rt: HostRuntime) -> Result<(), Fail> {
    let other = first_other_row(rt.alloc(), FILES)?;
    assert!(rt; other == None, "row {other:?}");
    Ok(())
}

/// The identity function with places before lines.
const OFFSETS: &str = r#"(module
(;@b     ;)  (type (;0;) (func (param i32) (result i32)))
(;@17    ;)  (export "f" (func 0))
(;@1f    ;)  (func (;0;) (type 0) (param i32) (result i32)
(;@20    ;)    local.get 0
(;@22    ;)  )
(;@23    ;))
"#;

/// The identity function without its body.
const SKELETON: &str = r#"(module
  (type (;0;) (func (param i32) (result i32)))
  (export "f" (func 0))
  (func (;0;) (type 0) (param i32) (result i32) ...)
)
"#;

/// The identity function with synthesized identifiers.
const NAME_UNNAMED: &str = r#"(module
  (type $#type0 (;0;) (func (param i32) (result i32)))
  (export "f" (func $#func0))
  (func $#func0 (;0;) (type $#type0) (param $#local0 i32) (result i32)
    local.get $#local0
  )
)
"#;

/// The identity function with folded operators.
const FOLDED: &str = r#"(module
  (type (;0;) (func (param i32) (result i32)))
  (export "f" (func 0))
  (func (;0;) (type 0) (param i32) (result i32)
    (local.get 0)
  )
)
"#;

/// The identity function with three spaces for each level.
const INDENTED: &str = r#"(module
   (type (;0;) (func (param i32) (result i32)))
   (export "f" (func 0))
   (func (;0;) (type 0) (param i32) (result i32)
      local.get 0
   )
)
"#;

/// The identity function without indent.
const NOT_INDENTED: &str = r#"(module
(type (;0;) (func (param i32) (result i32)))
(export "f" (func 0))
(func (;0;) (type 0) (param i32) (result i32)
local.get 0
)
)
"#;

/// The empty module in colors.
const COLORED: &str = "(\x1b[0m\x1b[1m\x1b[38;5;11mmodule\x1b[0m)\n";

/// Options, before and after the file.
const OPTIONS: &[Row] = &[
    (&["-p", "identity.wasm"], 0, OFFSETS, ""),
    (&["--print-offsets", "identity.wasm"], 0, OFFSETS, ""),
    (&["identity.wasm", "--skeleton"], 0, SKELETON, ""),
    (&["--name-unnamed", "identity.wasm"], 0, NAME_UNNAMED, ""),
    (&["identity.wasm", "-f"], 0, FOLDED, ""),
    (&["--fold-instructions", "identity.wasm"], 0, FOLDED, ""),
    (&["--indent", "3", "identity.wasm"], 0, INDENTED, ""),
    (&["--indent=3", "identity.wasm"], 0, INDENTED, ""),
    (
        &["--indent=9", "identity.wasm", "--indent", "3"],
        0,
        INDENTED,
        "",
    ),
    (&["identity.wasm", "--indent=0"], 0, NOT_INDENTED, ""),
    (&["--color", "always", "empty.wasm"], 0, COLORED, ""),
    (&["--color=always", "empty.wasm"], 0, COLORED, ""),
    (
        &["--color=always", "--color=never", "empty.wasm"],
        0,
        EMPTY_TEXT,
        "",
    ),
    (&["--color=auto", "empty.wasm"], 0, EMPTY_TEXT, ""),
];

#[test]
fn prints_by_options(rt: HostRuntime) -> Result<(), Fail> {
    let other = first_other_row(rt.alloc(), OPTIONS)?;
    assert!(rt; other == None, "row {other:?}");
    Ok(())
}

/// Files that are not printed. The others are.
const FAILURES: &[Row] = &[
    (
        &["empty.wasm", "cut.wasm", "identity.wasm"],
        1,
        BOTH_TEXTS,
        "wasm2text: cut.wasm: malformed module at byte 0x0\n",
    ),
    (
        &[
            "none.wasm",
            "empty.wasm",
            "locked.wasm",
            "identity.wasm",
            "folder",
        ],
        1,
        BOTH_TEXTS,
        "wasm2text: none.wasm: no such file or directory
wasm2text: locked.wasm: permission denied
wasm2text: folder: is a directory
",
    ),
    (
        &["section.wasm"],
        1,
        "",
        "wasm2text: section.wasm: malformed module at byte 0x8\n",
    ),
    (
        &["component.wasm", "empty.wasm"],
        1,
        EMPTY_TEXT,
        "wasm2text: component.wasm: components are not supported\n",
    ),
    // The text before the section was written.
    (
        &["late.wasm"],
        1,
        "(module",
        "wasm2text: late.wasm: unknown dylink.0 subsection 9\n",
    ),
    // A text in colors is written only when it is complete.
    (
        &["--color=always", "late.wasm", "empty.wasm"],
        1,
        COLORED,
        "wasm2text: late.wasm: unknown dylink.0 subsection 9\n",
    ),
    (
        &["-o", "locked/new.wat", "empty.wasm"],
        1,
        "",
        "wasm2text: locked/new.wat: read-only file system\n",
    ),
    (&["-o", "new.wat", "empty.wasm"], 0, "", ""),
    (
        &["--output=new.wat", "cut.wasm"],
        1,
        "",
        "wasm2text: cut.wasm: malformed module at byte 0x0\n",
    ),
];

#[test]
fn reports_files_that_are_not_printed(rt: HostRuntime) -> Result<(), Fail> {
    let other = first_other_row(rt.alloc(), FAILURES)?;
    assert!(rt; other == None, "row {other:?}");
    Ok(())
}

/// Command lines that are wrong.
const MISUSES: &[Row] = &[
    (
        &["empty.wasm", "--unknown"],
        2,
        "",
        "wasm2text: unknown option '--unknown'. Try 'wasm2text --help'.\n",
    ),
    (
        &["-x", "--help"],
        2,
        "",
        "wasm2text: unknown option '-x'. Try 'wasm2text --help'.\n",
    ),
    (
        &["--skeleton=yes", "empty.wasm"],
        2,
        "",
        "wasm2text: unknown option '--skeleton=yes'. Try 'wasm2text --help'.\n",
    ),
    (
        &["empty.wasm", "-o"],
        2,
        "",
        "wasm2text: option '-o' needs a value. Try 'wasm2text --help'.\n",
    ),
    (
        &["--indent", "two", "empty.wasm"],
        2,
        "",
        "wasm2text: option '--indent' can't have the value 'two'. Try 'wasm2text --help'.\n",
    ),
    (
        &["--indent=4294967296", "empty.wasm"],
        2,
        "",
        "wasm2text: option '--indent' can't have the value '4294967296'. Try 'wasm2text --help'.\n",
    ),
    (
        &["--color=sometimes", "empty.wasm"],
        2,
        "",
        "wasm2text: option '--color' can't have the value 'sometimes'. Try 'wasm2text --help'.\n",
    ),
];

#[test]
fn reports_wrong_command_lines(rt: HostRuntime) -> Result<(), Fail> {
    let other = first_other_row(rt.alloc(), MISUSES)?;
    assert!(rt; other == None, "row {other:?}");
    Ok(())
}

/// Names and words with control characters and a backslash.
const ESCAPES: &[Row] = &[
    (
        &["a\n\t\r\u{1b}[31m\u{7f}\u{9b}\\é'\".wasm"],
        1,
        "",
        "wasm2text: a\\n\\t\\r\\u{1b}[31m\\u{7f}\\u{9b}\\\\é'\".wasm: no such file or directory\n",
    ),
    (
        &["-\u{1b}[2J"],
        2,
        "",
        "wasm2text: unknown option '-\\u{1b}[2J'. Try 'wasm2text --help'.\n",
    ),
    (
        &["--indent=\0\n"],
        2,
        "",
        "wasm2text: option '--indent' can't have the value '\\u{0}\\n'. Try 'wasm2text --help'.\n",
    ),
];

#[test]
fn escapes_names_and_words(rt: HostRuntime) -> Result<(), Fail> {
    let other = first_other_row(rt.alloc(), ESCAPES)?;
    assert!(rt; other == None, "row {other:?}");
    Ok(())
}

/// The names of all options.
const NAMES: &[&str] = &[
    "-p, --print-offsets ",
    " --skeleton ",
    " --name-unnamed ",
    "-f, --fold-instructions ",
    " --indent N ",
    " --color WHEN ",
    " --at OFFSET ",
    " --code-offset OFFSET\n",
    " --func FUNCTION ",
    " --hidden ",
    "-o, --output FILE ",
    "-h, --help ",
    "-V, --version ",
];

/// The help, and the version. The files are not read.
const OWN_TEXTS: &[Row] = &[
    (&["--help"], 0, HELP, ""),
    (&["cut.wasm", "-V", "-h"], 0, HELP, ""),
    (&["--version", "cut.wasm"], 0, "wasm2text 0.263.0-r1\n", ""),
    (&["-V"], 0, "wasm2text 0.263.0-r1\n", ""),
];

#[test]
fn writes_help_and_version(rt: HostRuntime) -> Result<(), Fail> {
    let is_known = NAMES.iter().all(|name| HELP.contains(*name));
    assert!(rt; is_known && HELP.starts_with("Usage: wasm2text [OPTIONS] [FILE...]\n"));
    let other = first_other_row(rt.alloc(), OWN_TEXTS)?;
    assert!(rt; other == None, "row {other:?}");
    Ok(())
}

/// Returns the text of the empty module with these words, if standard output shows colors.
fn text_on_a_terminal(alloc: Global, words: &[&str]) -> Result<Vec<u8>, Fail> {
    Ok(run_into(alloc, words, true, Vec::new(alloc))?.out)
}

#[test]
fn chooses_colors_for_a_terminal(rt: HostRuntime) -> Result<(), Fail> {
    let alloc = rt.alloc();
    let text = text_on_a_terminal(alloc, &["empty.wasm"])?;
    assert!(rt; text.as_slice() == COLORED.as_bytes());
    let text = text_on_a_terminal(alloc, &["--color", "auto", "-"])?;
    assert!(rt; text.as_slice() == COLORED.as_bytes());
    let text = text_on_a_terminal(alloc, &["--color=never", "empty.wasm"])?;
    assert!(rt; text.as_slice() == EMPTY_TEXT.as_bytes());
    let text = text_on_a_terminal(alloc, &["--output", "new.wat", "empty.wasm"])?;
    assert!(rt; text.is_empty());
    Ok(())
}

/// A writer that accepts some bytes, and then fails.
#[derive(Drop)]
struct Full {
    taken: Vec<u8>,
    /// The number of bytes that are accepted.
    room: usize,
    /// The kind of the failure.
    kind: ErrorKind,
    /// Flushing fails too.
    is_stuck: bool,
}

impl Write for Full {
    fn write(&mut self, bytes: &[u8]) -> io::Result<usize> {
        if self.taken.len().saturating_add(bytes.len()) > self.room {
            return Err(io::Error::from(self.kind));
        }
        self.taken.extend_from_slice(bytes)?;
        Ok(bytes.len())
    }

    fn flush(&mut self) -> io::Result<()> {
        if self.is_stuck {
            return Err(io::Error::from(self.kind));
        }
        Ok(())
    }
}

/// Runs the program with these words and a writer that accepts this many bytes.
fn run_full(
    alloc: Global,
    words: &[&str],
    room: usize,
    kind: ErrorKind,
) -> Result<Outcome<Full>, Fail> {
    let out = Full {
        taken: Vec::new(alloc),
        room,
        kind,
        is_stuck: false,
    };
    run_into(alloc, words, false, out)
}

/// Returns whether a run ended with this status, and these texts of its outputs.
fn ended(outcome: &Outcome<Full>, status: u8, out: &str, err: &str) -> bool {
    outcome.status == status
        && outcome.out.taken.as_slice() == out.as_bytes()
        && outcome.err.as_slice() == err.as_bytes()
}

#[test]
fn stops_at_a_failed_write(rt: HostRuntime) -> Result<(), Fail> {
    let alloc = rt.alloc();
    // The first text has 9 bytes.
    let words = &["empty.wasm", "empty.wasm", "none.wasm"];
    let outcome = run_full(alloc, words, 10, ErrorKind::StorageFull)?;
    let line = "wasm2text: empty.wasm: can't write the text: no space left on device\n";
    assert!(rt; ended(&outcome, 1, "(module)\n(", line));
    let outcome = run_full(alloc, &["--help"], 10, ErrorKind::FileTooLarge)?;
    let line = "wasm2text: standard output: can't write the text: file too large\n";
    assert!(rt; ended(&outcome, 1, "", line));
    Ok(())
}

#[test]
fn is_quiet_at_a_closed_pipe(rt: HostRuntime) -> Result<(), Fail> {
    let alloc = rt.alloc();
    let words = &["empty.wasm", "empty.wasm", "none.wasm"];
    let outcome = run_full(alloc, words, 10, ErrorKind::BrokenPipe)?;
    assert!(rt; ended(&outcome, 0, "(module)\n(", ""));
    // A failure before it is reported.
    let outcome = run_full(alloc, &["none.wasm", "-"], 0, ErrorKind::BrokenPipe)?;
    let line = "wasm2text: none.wasm: no such file or directory\n";
    assert!(rt; ended(&outcome, 1, "", line));
    let outcome = run_full(alloc, &["-V"], 0, ErrorKind::BrokenPipe)?;
    assert!(rt; ended(&outcome, 0, "", ""));
    Ok(())
}

#[test]
fn reports_that_flushing_fails(rt: HostRuntime) -> Result<(), Fail> {
    let out = Full {
        taken: Vec::new(rt.alloc()),
        room: 9,
        kind: ErrorKind::QuotaExceeded,
        is_stuck: true,
    };
    let outcome = run_into(rt.alloc(), &["empty.wasm", "identity.wasm"], false, out)?;
    let line = "wasm2text: empty.wasm: can't write the text: disk quota exceeded\n";
    assert!(rt; ended(&outcome, 1, EMPTY_TEXT, line));
    Ok(())
}
