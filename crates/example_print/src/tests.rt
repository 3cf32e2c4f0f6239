//! Runs over files in memory. Expected texts are typed by hand.
ghost use Rattle.std.specs.Prelude.{⊤};

use crate::run;
use std::alloc::Global;
use std::io;
use std::path::Path;
use std::test::Fail;
use wasmprinter::Source;

/// Files in memory: a module without fields, and a file whose preamble has an unknown version.
#[derive(Drop)]
struct Memory {
    alloc: Global,
}

impl Source for Memory {
    ghost may_read = { λ _ _ _. ⊤ };

    fn read(&self, path: Path<'_>) -> io::Result<Vec<u8>> {
        match path.to_str() {
            Some("empty.wasm") => Ok(b"\0asm\x01\0\0\0".to_vec(self.alloc)?),
            Some("bad.wasm") => Ok(b"\0asm\x02\0\0\0".to_vec(self.alloc)?),
            _ => Err(io::Error::from(io::ErrorKind::NotFound)),
        }
    }
}

/// The words of a run, its text or the line of its failure, and its exit status.
type Row = (&'static [&'static str], &'static str, u8);

const USAGE: &str = "usage: example_print FILE";

const ROWS: &[Row] = &[
    (&["empty.wasm"], "(module)\n", 0),
    (&["bad.wasm"], "error: malformed module at byte 0x0", 1),
    (&["missing.wasm"], "error: the file can't be read", 1),
    (&[], USAGE, 2),
    (&["empty.wasm", "empty.wasm"], USAGE, 2),
];

/// Returns whether a run gives the text and the status of the row.
fn agrees(alloc: Global, (words, text, status): Row) -> Result<bool, Fail> {
    let mut owned = Vec::new(alloc);
    for word in words {
        owned.push(String::from_str(alloc, word)?)?;
    }
    match run(&Memory { alloc }, alloc, &owned) {
        Ok(printed) => Ok(printed.as_str() == text && status == 0),
        Err(failure) => {
            let line = failure.to_string(alloc)?;
            Ok(line.as_str() == text && status == failure.status())
        }
    }
}

#[test]
fn gives_text_or_failure(rt: HostRuntime) -> Result<(), Fail> {
    for row in ROWS {
        assert!(rt; agrees(rt.alloc(), *row)?, "{:?}", row.0);
    }
    Ok(())
}
