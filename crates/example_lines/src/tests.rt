//! Runs over files in memory. Expected texts are typed by hand.
ghost use Rattle.std.specs.Prelude.{⊤};

use crate::run;
use std::alloc::Global;
use std::io;
use std::path::Path;
use std::test::Fail;
use wasmprinter::Source;

/// A module of 64 bytes with a branch hint. The hint is at byte 0x32 of the module, before all functions, and on line 5
/// of the text, inside the function:
///
/// ```text
///    (module
/// b    (type (;0;) (func (param i32)))
/// 39   (func (;0;) (type 0) (param i32)
/// 3a     local.get 0
/// 32     (@metadata.code.branch_hint "\01")
/// 3c     if ;; label = @1
/// 3e     end
/// 3f   )
/// 40 )
/// ```
const HINT: &[u8] = b"\0asm\x01\0\0\0\
    \x01\x05\x01\x60\x01\x7f\x00\
    \x03\x02\x01\x00\
    \x00\x20\x19metadata.code.branch_hint\x01\x00\x01\x03\x01\x01\
    \x0a\x09\x01\x07\x00\x20\x00\x04\x40\x0b\x0b";

/// A module with a section `producers`. The fourth line of its text shows no byte.
const PRODUCERS: &[u8] = b"\0asm\x01\0\0\0\
    \x00\x18\x09producers\x01\x08language\x01\x01C\x00";

/// Files in memory: the modules above, and a file whose preamble has an unknown version.
#[derive(Drop)]
struct Memory {
    alloc: Global,
}

impl Source for Memory {
    ghost may_read = { λ _ _ _. ⊤ };

    fn read(&self, path: Path<'_>) -> io::Result<Vec<u8>> {
        match path.to_str() {
            Some("hint.wasm") => Ok(HINT.to_vec(self.alloc)?),
            Some("producers.wasm") => Ok(PRODUCERS.to_vec(self.alloc)?),
            Some("bad.wasm") => Ok(b"\0asm\x02\0\0\0".to_vec(self.alloc)?),
            _ => Err(io::Error::from(io::ErrorKind::NotFound)),
        }
    }
}

/// The words of a run, its answer or the line of its failure, and its exit status.
type Row = (&'static [&'static str], &'static str, u8);

const ANSWERS: &[Row] = &[
    (&["hint.wasm", "0"], "line 1 starts at byte 0x0: (module", 0),
    // the greatest place that is not after the byte is that of line 4, not that of line 5
    (
        &["hint.wasm", "0x3b"],
        "line 4 starts at byte 0x3a: local.get 0",
        0,
    ),
    (
        &["hint.wasm", "51"],
        "line 5 starts at byte 0x32: (@metadata.code.branch_hint \"\\01\")",
        0,
    ),
    (&["hint.wasm", "0x3f"], "line 8 starts at byte 0x3f: )", 0),
    (
        &["hint.wasm", "line:1"],
        "line 1 starts at byte 0x0: (module",
        0,
    ),
    (
        &["hint.wasm", "line:5"],
        "line 5 starts at byte 0x32: (@metadata.code.branch_hint \"\\01\")",
        0,
    ),
    (&["hint.wasm", "line:9"], "line 9 starts at byte 0x40: )", 0),
    (&["producers.wasm", "line:4"], "line 4 shows no byte: )", 0),
];

const FAILURES: &[Row] = &[
    (&["hint.wasm", "64"], "error: no line shows byte 0x40", 1),
    (&["hint.wasm", "line:0"], "error: the text has no line 0", 1),
    (
        &["hint.wasm", "line:10"],
        "error: the text has no line 10",
        1,
    ),
    (&["missing.wasm", "0"], "error: the file can't be read", 1),
    (&["bad.wasm", "0"], "error: malformed module at byte 0x0", 1),
];

/// Words that do not match the usage line: too few, too many, and queries without digits, with other characters, or of
/// more than 64 bits.
const MISUSES: &[Row] = &[
    (&["hint.wasm"], USAGE, 2),
    (&["hint.wasm", "0", "1"], USAGE, 2),
    (&["hint.wasm", ""], USAGE, 2),
    (&["hint.wasm", "0x"], USAGE, 2),
    (&["hint.wasm", "line:"], USAGE, 2),
    (&["hint.wasm", "1f"], USAGE, 2),
    (&["hint.wasm", "0x1g"], USAGE, 2),
    (&["hint.wasm", "line:0x1"], USAGE, 2),
    (&["hint.wasm", "-1"], USAGE, 2),
    (&["hint.wasm", "18446744073709551616"], USAGE, 2),
];

const USAGE: &str = "usage: example_lines FILE (OFFSET | line:NUMBER)";

/// Returns whether a run gives the text and the status of the row.
fn agrees(alloc: Global, (words, text, status): Row) -> Result<bool, Fail> {
    let mut owned = Vec::new(alloc);
    for word in words {
        owned.push(String::from_str(alloc, word)?)?;
    }
    match run(&Memory { alloc }, alloc, &owned) {
        Ok(answer) => Ok(answer.as_str() == text && status == 0),
        Err(failure) => {
            let line = failure.to_string(alloc)?;
            Ok(line.as_str() == text && status == failure.status())
        }
    }
}

/// Returns the words of the first row that does not agree with its run, or `None` if there is no such row.
fn first_other(alloc: Global, rows: &[Row]) -> Result<Option<&'static [&'static str]>, Fail> {
    for row in rows {
        if !agrees(alloc, *row)? {
            return Ok(Some(row.0));
        }
    }
    Ok(None)
}

#[test]
fn maps_both_ways(rt: HostRuntime) -> Result<(), Fail> {
    let other = first_other(rt.alloc(), ANSWERS)?;
    assert!(rt; other.is_none(), "{other:?}");
    Ok(())
}

#[test]
fn reports_failures(rt: HostRuntime) -> Result<(), Fail> {
    let other = first_other(rt.alloc(), FAILURES)?;
    assert!(rt; other.is_none(), "{other:?}");
    Ok(())
}

#[test]
fn shows_its_usage(rt: HostRuntime) -> Result<(), Fail> {
    let other = first_other(rt.alloc(), MISUSES)?;
    assert!(rt; other.is_none(), "{other:?}");
    Ok(())
}
