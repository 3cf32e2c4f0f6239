//! The examples of docs/LIBRARY.md.

use std::alloc::Global;
use std::io;
use std::test::Fail;
use wasmprinter::print::Ansi;
use wasmprinter::wasm::decode;
use wasmprinter::{Config, Error, PrintTermcolor, PrintText, place_of, print_bytes};
use wasmprinter_samples::{IDENTITY, IDENTITY_TEXT, expect_text};

/// Returns the text of a module, or a message if the bytes are malformed.
fn text_or_message(alloc: Global, wasm: &[u8]) -> Result<String, Error> {
    match print_bytes(alloc, wasm) {
        Err(Error::Malformed { place }) => Ok(format!(in alloc; "no module: see byte {place}\n")?),
        printed => printed,
    }
}

/// Returns the text of a module without its bodies, with ANSI escape sequences for colors.
fn outline_of(alloc: Global, wasm: &[u8]) -> Result<Vec<u8>, Error> {
    let mut config = Config::new();
    config.print_skeleton(true);
    let mut printer = PrintTermcolor(Ansi::new(Vec::new(alloc)));
    config.print(alloc, wasm, &mut printer)?;
    Ok(printer.0.into_inner())
}

/// Returns the number of the line of an operator, counted from 0, and the operator's byte offset from the start of
/// the module.
fn line_of_operator(
    alloc: Global,
    wasm: &[u8],
    function: u32,
    operator: u32,
) -> Result<Option<(usize, u64)>, Error> {
    let mut storage = String::new(alloc);
    let text = Config::new().offsets_and_lines(alloc, wasm, &mut storage)?;
    let lines: Vec<(Option<u64>, &str)> = text.collect(alloc)?;
    let module = decode(alloc, wasm)?;
    Ok(place_of(&module, &lines, function, operator))
}

/// A printer that counts the bytes of a text.
#[derive(Drop)]
struct Length(usize);

impl PrintText for Length {
    fn write_str(&mut self, s: &str) -> io::Result<()> {
        self.0 = self.0.saturating_add(s.len());
        Ok(())
    }
}

/// Returns the number of bytes in the text of a module.
fn text_length(alloc: Global, wasm: &[u8]) -> Result<usize, Error> {
    let mut length = Length(0);
    Config::new().print(alloc, wasm, &mut length)?;
    Ok(length.0)
}

#[test]
fn shows_a_module_and_what_is_none(rt: HostRuntime) -> Result<(), Fail> {
    let module = [0x00, 0x61, 0x73, 0x6d, 0x01, 0x00, 0x00, 0x00];
    let text = text_or_message(rt.alloc(), &module)?;
    expect_text(text.as_str(), "(module)\n")?;
    let text = text_or_message(rt.alloc(), b"(module)")?;
    expect_text(text.as_str(), "no module: see byte 0\n")?;
    Ok(())
}

#[test]
fn outlines_a_module(rt: HostRuntime) -> Result<(), Fail> {
    let module = [0x00, 0x61, 0x73, 0x6d, 0x01, 0x00, 0x00, 0x00];
    let text = outline_of(rt.alloc(), &module)?;
    assert!(rt; text.as_slice() == b"(\x1b[0m\x1b[1m\x1b[38;5;11mmodule\x1b[0m)\n".as_slice());
    Ok(())
}

#[test]
fn finds_an_operator(rt: HostRuntime) -> Result<(), Fail> {
    assert!(rt; line_of_operator(rt.alloc(), IDENTITY, 0, 0)? == Some((4, 0x20)));
    assert!(rt; line_of_operator(rt.alloc(), IDENTITY, 0, 1)? == None);
    Ok(())
}

#[test]
fn counts_the_bytes_of_a_text(rt: HostRuntime) -> Result<(), Fail> {
    let module = [0x00, 0x61, 0x73, 0x6d, 0x01, 0x00, 0x00, 0x00];
    assert!(rt; text_length(rt.alloc(), &module)? == "(module)\n".len());
    assert!(rt; text_length(rt.alloc(), IDENTITY)? == IDENTITY_TEXT.len());
    Ok(())
}
