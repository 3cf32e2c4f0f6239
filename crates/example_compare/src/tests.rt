//! Runs over files in memory. Expected texts are typed by hand.
ghost use Rattle.std.specs.Prelude.{⊤};

use crate::{run, status_of};
use std::alloc::Global;
use std::io;
use std::path::Path;
use std::test::Fail;
use wasmprinter::Source;

/// A module with a function named `f`, whose body has the operator `nop`, and a data segment with the letter `a`. Its
/// text:
///
/// ```text
/// (module
///   (type (;0;) (func))
///   (memory (;0;) 1)
///   (func $f (;0;) (type 0)
///     nop
///   )
///   (data (;0;) (i32.const 0) "a")
/// )
/// ```
const FIRST: &[u8] = b"\0asm\x01\0\0\0\
    \x01\x04\x01\x60\x00\x00\
    \x03\x02\x01\x00\
    \x05\x03\x01\x00\x01\
    \x0a\x05\x01\x03\x00\x01\x0b\
    \x0b\x07\x01\x00\x41\x00\x0b\x01a\
    \x00\x0b\x04name\x01\x04\x01\x00\x01f";

/// The same module, with the letter `b` in its data segment.
const OTHER_DATA: &[u8] = b"\0asm\x01\0\0\0\
    \x01\x04\x01\x60\x00\x00\
    \x03\x02\x01\x00\
    \x05\x03\x01\x00\x01\
    \x0a\x05\x01\x03\x00\x01\x0b\
    \x0b\x07\x01\x00\x41\x00\x0b\x01b\
    \x00\x0b\x04name\x01\x04\x01\x00\x01f";

/// The same module as `FIRST`, with the operator `return` in its function.
const OTHER_BODY: &[u8] = b"\0asm\x01\0\0\0\
    \x01\x04\x01\x60\x00\x00\
    \x03\x02\x01\x00\
    \x05\x03\x01\x00\x01\
    \x0a\x05\x01\x03\x00\x0f\x0b\
    \x0b\x07\x01\x00\x41\x00\x0b\x01a\
    \x00\x0b\x04name\x01\x04\x01\x00\x01f";

/// The same module as `FIRST`, without its data segment.
const WITHOUT_DATA: &[u8] = b"\0asm\x01\0\0\0\
    \x01\x04\x01\x60\x00\x00\
    \x03\x02\x01\x00\
    \x05\x03\x01\x00\x01\
    \x0a\x05\x01\x03\x00\x01\x0b\
    \x00\x0b\x04name\x01\x04\x01\x00\x01f";

/// The same module as `FIRST`. The size of its first section takes a byte more than it needs.
const LONGER: &[u8] = b"\0asm\x01\0\0\0\
    \x01\x84\x00\x01\x60\x00\x00\
    \x03\x02\x01\x00\
    \x05\x03\x01\x00\x01\
    \x0a\x05\x01\x03\x00\x01\x0b\
    \x0b\x07\x01\x00\x41\x00\x0b\x01a\
    \x00\x0b\x04name\x01\x04\x01\x00\x01f";

/// Files in memory: the modules above, and a file whose preamble has an unknown version.
#[derive(Drop)]
struct Memory {
    alloc: Global,
}

impl Source for Memory {
    ghost may_read = { λ _ _ _. ⊤ };

    fn read(&self, path: Path<'_>) -> io::Result<Vec<u8>> {
        match path.to_str() {
            Some("first.wasm") => Ok(FIRST.to_vec(self.alloc)?),
            Some("data.wasm") => Ok(OTHER_DATA.to_vec(self.alloc)?),
            Some("body.wasm") => Ok(OTHER_BODY.to_vec(self.alloc)?),
            Some("no-data.wasm") => Ok(WITHOUT_DATA.to_vec(self.alloc)?),
            Some("longer.wasm") => Ok(LONGER.to_vec(self.alloc)?),
            Some("bad.wasm") => Ok(b"\0asm\x02\0\0\0".to_vec(self.alloc)?),
            _ => Err(io::Error::from(io::ErrorKind::NotFound)),
        }
    }
}

/// The words of a run, the lines of its difference or of its failure, and its exit status.
type Row = (&'static [&'static str], &'static str, u8);

const ROWS: &[Row] = &[
    (&["first.wasm", "first.wasm"], "", 0),
    (&["first.wasm", "longer.wasm"], "", 0),
    (
        &["first.wasm", "data.wasm"],
        r#"line 7 differs, in `(data (;0;)`
-  (data (;0;) (i32.const 0) "a")
+  (data (;0;) (i32.const 0) "b")
"#,
        1,
    ),
    (
        &["first.wasm", "body.wasm"],
        "line 5 differs, in `(func $f (;0;)`\n-    nop\n+    return\n",
        1,
    ),
    (
        &["no-data.wasm", "first.wasm"],
        r#"line 7 differs, in `(data (;0;)`
-)
+  (data (;0;) (i32.const 0) "a")
"#,
        1,
    ),
    (
        &["first.wasm", "no-data.wasm"],
        r#"line 7 differs, in `(data (;0;)`
-  (data (;0;) (i32.const 0) "a")
+)
"#,
        1,
    ),
    (
        &["first.wasm", "missing.wasm"],
        "error: missing.wasm: the file can't be read",
        2,
    ),
    (
        &["bad.wasm", "missing.wasm"],
        "error: bad.wasm: malformed module at byte 0x0",
        2,
    ),
    (&["first.wasm"], USAGE, 2),
    (&["first.wasm", "first.wasm", "first.wasm"], USAGE, 2),
];

const USAGE: &str = "usage: example_compare FILE FILE";

/// Returns whether a run gives the lines and the status of the row.
fn agrees(alloc: Global, (words, lines, status): Row) -> Result<bool, Fail> {
    let mut owned = Vec::new(alloc);
    for word in words {
        owned.push(String::from_str(alloc, word)?)?;
    }
    let outcome = run(&Memory { alloc }, alloc, &owned);
    let has_lines = match &outcome {
        Ok(None) => lines.is_empty(),
        Ok(Some(difference)) => difference.as_str() == lines,
        Err(failure) => failure.to_string(alloc)?.as_str() == lines,
    };
    Ok(has_lines && status_of(&outcome) == status)
}

#[test]
fn shows_differences_and_failures(rt: HostRuntime) -> Result<(), Fail> {
    for row in ROWS {
        assert!(rt; agrees(rt.alloc(), *row)?, "{:?}", row.0);
    }
    Ok(())
}
