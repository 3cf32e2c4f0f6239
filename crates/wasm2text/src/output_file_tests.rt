//! Runs over the files of the system that write to a file.

use crate::program::run;
use crate::system::Host;
use std::fs;
use std::test::Fail;
use wasmprinter_samples::{EMPTY_TEXT, PREAMBLE};

/// Runs the program with these words. Returns its status, and whether standard output is empty.
fn run_over(rt: &HostRuntime, words: &[&str]) -> Result<(u8, bool), Fail> {
    let mut owned = Vec::new(rt.alloc());
    for word in words {
        owned.push(String::from_str(rt.alloc(), word)?)?;
    }
    let (status, out, _) = run(
        &mut Host(rt),
        Host(rt),
        rt.alloc(),
        &owned,
        false,
        Vec::new(rt.alloc()),
        &mut Vec::new(rt.alloc()),
    );
    Ok((status, out.is_empty()))
}

/// Returns the bytes of a file, and removes it.
fn take(rt: &HostRuntime, name: &str) -> Result<Vec<u8>, Fail> {
    let bytes = fs::read(rt, name)?;
    fs::remove_file(rt, name)?;
    Ok(bytes)
}

#[test]
fn writes_to_a_file(rt: HostRuntime) -> Result<(), Fail> {
    fs::write(&rt, "module.wasm", PREAMBLE)?;
    fs::write(&rt, "module.wat", "an older and longer text")?;
    let ended = run_over(&rt, &["-o", "module.wat", "module.wasm"])?;
    let text = take(&rt, "module.wat")?;
    assert!(rt; ended == (0, true) && text.as_slice() == EMPTY_TEXT.as_bytes());
    let ended = run_over(&rt, &["-o", "module.wasm", "module.wasm"])?;
    let text = take(&rt, "module.wasm")?;
    assert!(rt; ended == (0, true) && text.as_slice() == EMPTY_TEXT.as_bytes());
    Ok(())
}

#[test]
fn keeps_a_file_without_a_text_for_it(rt: HostRuntime) -> Result<(), Fail> {
    fs::write(&rt, "cut.wasm", "\0asm")?;
    fs::write(&rt, "old.wat", EMPTY_TEXT)?;
    let ended = run_over(&rt, &["-o", "old.wat", "cut.wasm", "none.wasm"])?;
    let text = take(&rt, "old.wat")?;
    assert!(rt; ended == (1, true) && text.as_slice() == EMPTY_TEXT.as_bytes());
    let ended = run_over(&rt, &["-o", "new.wat", "cut.wasm"])?;
    assert!(rt; ended == (1, true) && fs::read(&rt, "new.wat").is_err());
    fs::remove_file(&rt, "cut.wasm")?;
    Ok(())
}
