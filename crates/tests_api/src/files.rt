//! Tests of printing files, from the system and from a user-defined source.
ghost use Rattle.std.specs.Prelude.{⊤};

use std::alloc::Global;
use std::cell::Cell;
use std::io::ErrorKind;
use std::path::Path;
use std::test::Fail;
use std::{fs, io};
use wasmprinter::{Error, Source, print_file};
use wasmprinter_samples::modules_and_texts_from_parts::{Part, TextPart, build, text_of_parts};
use wasmprinter_samples::{EMPTY_TEXT, IDENTITY, IDENTITY_TEXT, PREAMBLE, expect_text};

/// A source with one file, `identity.wasm`, that counts its reads.
#[derive(Drop)]
struct OneFile {
    alloc: Global,
    reads: Cell<u32>,
}

impl Source for OneFile {
    ghost may_read = { λ _ _ _. ⊤ };

    fn read(&self, path: Path<'_>) -> io::Result<Vec<u8>> {
        self.reads.set(self.reads.get().saturating_add(1));
        if path == Path::new("identity.wasm") {
            Ok(IDENTITY.to_vec(self.alloc)?)
        } else {
            Err(io::Error::from(ErrorKind::NotFound))
        }
    }
}

#[test]
fn prints_a_file_of_a_source(rt: HostRuntime) -> Result<(), Fail> {
    let source = OneFile {
        alloc: rt.alloc(),
        reads: Cell::new(0),
    };
    let text = print_file(&source, rt.alloc(), Path::new("identity.wasm"))?;
    expect_text(text.as_str(), IDENTITY_TEXT)?;
    assert!(rt; source.reads.get() == 1);
    let missing = print_file(&source, rt.alloc(), Path::new("other.wasm"));
    assert!(rt; matches!(missing, Err(Error::Unreadable)));
    assert!(rt; source.reads.get() == 2);
    Ok(())
}

/// Writes a file of the system, and returns the result of printing it. Removes the file.
fn printed(rt: &HostRuntime, name: &str, content: &[u8]) -> io::Result<Result<String, Error>> {
    fs::write(rt, name, content)?;
    let text = print_file(rt, rt.alloc(), Path::new(name));
    fs::remove_file(rt, name)?;
    Ok(text)
}

#[test]
fn prints_files_of_the_system(rt: HostRuntime) -> Result<(), Fail> {
    let text = printed(&rt, "empty.wasm", PREAMBLE)??;
    expect_text(text.as_str(), EMPTY_TEXT)?;
    let text = printed(&rt, "identity.wasm", IDENTITY)??;
    expect_text(text.as_str(), IDENTITY_TEXT)?;
    Ok(())
}

/// The number of copies of `LETTERS` in the large file, which then has more than two times 2^20 bytes.
const COPIES: u32 = 100_000;

/// The 25 letters that are repeated. No power of two is a multiple of 25, so a block of the file that is missing or read
/// twice moves the letters after it.
const LETTERS: &str = "abcdefghijklmnopqrstuvwxy";

/// The preamble, and the size and the name of a custom section with 2,500,000 bytes of data, which follow.
const LARGE_START: &[u8] = &[
    0x00, 0x61, 0x73, 0x6d, 0x01, 0x00, 0x00, 0x00, // preamble
    0x00, 0xa2, 0xcb, 0x98, 0x01, 0x01, 0x78, // a section of 2,500,002 bytes
];

/// The text of the large file.
const LARGE_TEXT: &[TextPart] = &[
    TextPart::Text("(module\n  (@custom \"x\" (before first) \""),
    TextPart::TextCopies(COPIES, LETTERS),
    TextPart::Text("\")\n)\n"),
];

#[test]
fn prints_a_large_file(rt: HostRuntime) -> Result<(), Fail> {
    let data = Part::Copies(COPIES, LETTERS.as_bytes());
    let wasm = build(rt.alloc(), &[Part::Bytes(LARGE_START), data])?;
    let text = printed(&rt, "large.wasm", &wasm)??;
    let typed = text_of_parts(rt.alloc(), LARGE_TEXT)?;
    expect_text(text.as_str(), typed.as_str())?;
    Ok(())
}

#[test]
fn refuses_a_file_of_text(rt: HostRuntime) -> Result<(), Fail> {
    let text = printed(&rt, "text.wasm", b"(module)")?;
    assert!(rt; matches!(text, Err(Error::Malformed { place: 0 })));
    Ok(())
}
