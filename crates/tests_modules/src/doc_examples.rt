//! The examples in the documentation comments of `wasmprinter`. `tools/documents.py` compares both.

use std::fs;
use std::path::Path;
use std::test::Fail;
use wasmprinter::wasm::decode;
use wasmprinter::{Config, PrintIoWrite, place_of, print_bytes, print_file};
use wasmprinter_samples::{IDENTITY, PREAMBLE};

#[test]
fn of_print_bytes(rt: HostRuntime) -> Result<(), Fail> {
    let text = print_bytes(rt.alloc(), b"\0asm\x01\0\0\0")?;
    assert!(rt; text.as_str() == "(module)\n");
    Ok(())
}

#[test]
fn of_print_file(rt: HostRuntime) -> Result<(), Fail> {
    fs::write(&rt, "module.wasm", PREAMBLE)?;
    let text = print_file(&rt, rt.alloc(), Path::new("module.wasm"))?;
    assert!(rt; text.as_str() == "(module)\n");
    fs::remove_file(&rt, "module.wasm")?;
    Ok(())
}

#[test]
fn of_print(rt: HostRuntime) -> Result<(), Fail> {
    let mut printer = PrintIoWrite(Vec::new(rt.alloc()));
    Config::new().print(rt.alloc(), b"\0asm\x01\0\0\0", &mut printer)?;
    assert!(rt; printer.0.as_slice() == b"(module)\n".as_slice());
    Ok(())
}

#[test]
fn of_print_to_string(rt: HostRuntime) -> Result<(), Fail> {
    let mut config = Config::new();
    config.name_unnamed(true).fold_instructions(true);
    let text = config.print_to_string(rt.alloc(), IDENTITY)?;
    assert!(rt; text.lines().nth(4) == Some("    (local.get $#local0)"));
    Ok(())
}

#[test]
fn of_print_offsets(rt: HostRuntime) -> Result<(), Fail> {
    let mut config = Config::new();
    config.print_offsets(true);
    let text = config.print_to_string(rt.alloc(), IDENTITY)?;
    assert!(rt; text.lines().nth(4) == Some("(;@20    ;)    local.get 0"));
    Ok(())
}

#[test]
fn of_print_skeleton(rt: HostRuntime) -> Result<(), Fail> {
    let mut config = Config::new();
    config.print_skeleton(true);
    let text = config.print_to_string(rt.alloc(), IDENTITY)?;
    let line = text.lines().nth(3);
    assert!(rt; line == Some("  (func (;0;) (type 0) (param i32) (result i32) ...)"));
    Ok(())
}

#[test]
fn of_name_unnamed(rt: HostRuntime) -> Result<(), Fail> {
    let mut config = Config::new();
    config.name_unnamed(true);
    let text = config.print_to_string(rt.alloc(), IDENTITY)?;
    assert!(rt; text.lines().nth(4) == Some("    local.get $#local0"));
    Ok(())
}

#[test]
fn of_fold_instructions(rt: HostRuntime) -> Result<(), Fail> {
    let mut config = Config::new();
    config.fold_instructions(true);
    let text = config.print_to_string(rt.alloc(), IDENTITY)?;
    assert!(rt; text.lines().nth(4) == Some("    (local.get 0)"));
    Ok(())
}

#[test]
fn of_indent_text(rt: HostRuntime) -> Result<(), Fail> {
    let mut config = Config::new();
    config.indent_text(String::from_str(rt.alloc(), "\t")?);
    let text = config.print_to_string(rt.alloc(), IDENTITY)?;
    assert!(rt; text.lines().nth(4) == Some("\t\tlocal.get 0"));
    Ok(())
}

#[test]
fn of_offsets_and_lines(rt: HostRuntime) -> Result<(), Fail> {
    let mut storage = String::new(rt.alloc());
    let mut lines = Config::new().offsets_and_lines(rt.alloc(), IDENTITY, &mut storage)?;
    assert!(rt; lines.next() == Some((Some(0), "(module\n")));
    assert!(rt; lines.nth(3) == Some((Some(0x20), "    local.get 0\n")));
    Ok(())
}

#[test]
fn of_place_of(rt: HostRuntime) -> Result<(), Fail> {
    let mut storage = String::new(rt.alloc());
    let text = Config::new().offsets_and_lines(rt.alloc(), IDENTITY, &mut storage)?;
    let lines: Vec<(Option<u64>, &str)> = text.collect(rt.alloc())?;
    let module = decode(rt.alloc(), IDENTITY)?;
    assert!(rt; place_of(&module, &lines, 0, 0) == Some((4, 0x20)));
    Ok(())
}
