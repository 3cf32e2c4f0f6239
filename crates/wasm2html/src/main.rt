//! `wasm2html FILE` writes the text of a module as an HTML page.
//!
//! The page is one file for reviewers: contents, links from operators to the items that they name, anchors for
//! functions (`#func3`) and byte offsets (`#0x1f`), and functions that are rendered when they are opened. The text is
//! inert data in the page (`page`, `escaping`), and a script renders it (`script`).
#![tactic(auto)]

mod escaping;
mod page;
mod script;
mod template;

use page::Page;
use std::alloc::Global;
use std::io::Write;
use std::path::Path;
use std::process::ExitCode;
use std::{env, io};
use wasmprinter::{Config, Error, Source};

/// The exit status after the page was written.
const WRITTEN: u8 = 0;

/// The exit status if the file can't be read, the module can't be printed, the page can't be written, or the
/// arguments can't be read.
const REFUSED: u8 = 1;

/// The exit status if the arguments do not match the usage line.
const MISUSED: u8 = 2;

fn main(rt: HostRuntime) -> ExitCode {
    let status = match words_of(&rt) {
        Ok(words) => run(&rt, &words),
        Err(_) => {
            let _ = eprintln!(rt; "error: the arguments can't be read");
            REFUSED
        }
    };
    ExitCode::from(status)
}

/// Returns the arguments without the first, which is the program's name.
fn words_of(rt: &HostRuntime) -> io::Result<Vec<String>> {
    Ok(env::args(rt)?.skip(1).collect::<Vec<String>>(rt.alloc())?)
}

/// Writes the page of the file that the words name, and returns the exit status. Nothing is written to the output
/// before the page is complete. After an error, one line is written to standard error.
fn run(rt: &HostRuntime, words: &[String]) -> u8 {
    let [file] = words else {
        let _ = eprintln!(rt; "usage: wasm2html FILE");
        return MISUSED;
    };
    match write_page(rt, file.as_str()) {
        Ok(()) => WRITTEN,
        Err(error) => {
            let _ = eprintln!(rt; "error: {error}");
            REFUSED
        }
    }
}

/// Writes the page of the module in a file.
fn write_page(rt: &HostRuntime, file: &str) -> Result<(), Error> {
    let path = Path::new(file);
    let wasm = rt.read(path).map_err(|_| Error::Unreadable)?;
    let page = page_of(rt.alloc(), path.file_name().unwrap_or(file), &wasm)?;
    rt.stdout().write_all(&page).map_err(Error::Printer)
}

/// Returns the page of a module in a file of this name.
fn page_of(alloc: Global, name: &str, wasm: &[u8]) -> Result<Vec<u8>, Error> {
    let mut page = Page::new(alloc, name, wasm.len())?;
    Config::new().print(alloc, wasm, &mut page)?;
    Ok(page.finish()?)
}
