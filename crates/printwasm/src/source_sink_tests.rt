//! Tests of behavior that no contract of the system specifies: sinks at each length, sources, and large files. Expected
//! texts are typed by hand.
ghost use Rattle.std.specs.Prelude.{⊤};

use crate::error_line_tests::joined;
use crate::error_lines::ByDisplay;
use crate::program::run;
use crate::program_tests::{Words, has_printed, run_with, strings_of};
use crate::sink_trait::Sink;
use std::alloc::Global;
use std::cell::Cell;
use std::io::ErrorKind;
use std::path::Path;
use std::test::Fail;
use std::{fs, io};
use wasmprinter::{Source, print_file};
use wasmprinter_samples::{EMPTY_TEXT, PREAMBLE};

/// Lengths of texts, each range with its first and last length: short ones, and lengths around two buffer sizes.
const TEXT_LENGTHS: &[(usize, usize)] = &[(0, 300), (65_530, 65_540), (131_066, 131_078)];

/// Returns whether a sink accepts a text of this length, as text and as bytes, and gains nothing else.
fn takes_all(alloc: Global, len: usize) -> Result<bool, Fail> {
    let text = "x".repeat(alloc, len)?;
    let mut written = Vec::new(alloc);
    written.write_text(text.as_str())?;
    let mut bytes = Vec::new(alloc);
    bytes.write_bytes(text.as_bytes())?;
    Ok(written.as_slice() == text.as_bytes() && bytes.as_slice() == text.as_bytes())
}

/// Returns the first length in these ranges for which a sink does not accept a text, or `None` if there is no such
/// length.
fn first_not_taken(alloc: Global, ranges: &[(usize, usize)]) -> Result<Option<usize>, Fail> {
    for (from, to) in ranges {
        for len in *from..=*to {
            if !takes_all(alloc, len)? {
                return Ok(Some(len));
            }
        }
    }
    Ok(None)
}

#[test]
fn takes_texts_of_each_length(rt: HostRuntime) -> Result<(), Fail> {
    let other = first_not_taken(rt.alloc(), TEXT_LENGTHS)?;
    assert!(rt; other == None, "{other:?}");
    Ok(())
}

/// A source whose files all have the same content, or can't be read. It counts all its reads, and the reads of one
/// path.
#[derive(Drop)]
struct Counted<'a> {
    alloc: Global,
    path: &'a str,
    /// The content of each file, or `None` if reading fails.
    content: Option<&'a [u8]>,
    reads: Cell<u32>,
    reads_of_path: Cell<u32>,
}

impl<'a> Counted<'a> {
    fn new(alloc: Global, path: &'a str, content: Option<&'a [u8]>) -> Counted<'a> {
        Counted {
            alloc,
            path,
            content,
            reads: Cell::new(0),
            reads_of_path: Cell::new(0),
        }
    }

    /// Returns whether the path was read once, and no other path.
    fn was_read_once(&self) -> bool {
        self.reads.get() == 1 && self.reads_of_path.get() == 1
    }
}

impl Source for Counted<'_> {
    ghost may_read = { λ _ _ _. ⊤ };

    fn read(&self, path: Path<'_>) -> io::Result<Vec<u8>> {
        self.reads.set(self.reads.get().saturating_add(1));
        if path.to_str() == Some(self.path) {
            self.reads_of_path
                .set(self.reads_of_path.get().saturating_add(1));
        }
        match self.content {
            Some(bytes) => Ok(bytes.to_vec(self.alloc)?),
            None => Err(io::Error::from(ErrorKind::NotFound)),
        }
    }
}

/// Runs the program over a source, and returns its status and what it wrote to standard output.
fn run_over_source(
    alloc: Global,
    source: &Counted<'_>,
    words: &[&str],
) -> Result<(u8, Vec<u8>), Fail> {
    let words = strings_of(alloc, words)?;
    let mut out = Vec::new(alloc);
    let mut err = Vec::new(alloc);
    let status = run(source, &ByDisplay, alloc, &words, &mut out, &mut err);
    Ok((status, out))
}

/// Returns whether `print_file` reads this path once, and no other path.
fn is_printed_after_one_read(alloc: Global, path: &str) -> Result<bool, Fail> {
    let source = Counted::new(alloc, path, Some(PREAMBLE));
    let text = print_file(&source, alloc, Path::new(path))?;
    Ok(text.as_str() == EMPTY_TEXT && source.was_read_once())
}

/// Returns whether the program reads this path once, and no other path.
fn is_run_with_one_read(alloc: Global, path: &str) -> Result<bool, Fail> {
    let source = Counted::new(alloc, path, Some(PREAMBLE));
    let (status, out) = run_over_source(alloc, &source, &[path])?;
    Ok(status == 0 && out.as_slice() == EMPTY_TEXT.as_bytes() && source.was_read_once())
}

/// Returns whether `print_file` and the program read this path once, and no other path.
fn is_read_once(alloc: Global, path: &str) -> Result<bool, Fail> {
    Ok(is_printed_after_one_read(alloc, path)? && is_run_with_one_read(alloc, path)?)
}

/// Paths with characters that have a meaning in paths and words.
const PATHS: &[&str] = &["/", ".", "-", "-/a.wasm", "../a b.wasm", "/a/./b//c.wasm"];

/// Returns the first of these paths that is not read once, or `None` if there is no such path.
fn first_path_not_read_once(
    alloc: Global,
    paths: &[&'static str],
) -> Result<Option<&'static str>, Fail> {
    for path in paths {
        if !is_read_once(alloc, path)? {
            return Ok(Some(*path));
        }
    }
    Ok(None)
}

/// Returns whether a path of this length is read once.
fn is_length_read_once(alloc: Global, len: usize) -> Result<bool, Fail> {
    let path = "x".repeat(alloc, len)?;
    is_read_once(alloc, path.as_str())
}

/// Returns the first length from 1 to 100 whose path is not read once, or `None` if there is no such length.
fn first_length_not_read_once(alloc: Global) -> Result<Option<usize>, Fail> {
    for len in 1..=100 {
        if !is_length_read_once(alloc, len)? {
            return Ok(Some(len));
        }
    }
    Ok(None)
}

#[test]
fn reads_each_path_once(rt: HostRuntime) -> Result<(), Fail> {
    let other = first_path_not_read_once(rt.alloc(), PATHS)?;
    assert!(rt; other == None, "{other:?}");
    let other = first_length_not_read_once(rt.alloc())?;
    assert!(rt; other == None, "{other:?}");
    Ok(())
}

/// Words with each option, and with all five.
const WITH_EACH_OPTION: &[Words] = &[
    &["--offsets", "a.wasm"],
    &["a.wasm", "--skeleton"],
    &["--name-unnamed", "a.wasm"],
    &["a.wasm", "--fold"],
    &["--color", "a.wasm"],
    &[
        "--offsets",
        "--skeleton",
        "a.wasm",
        "--name-unnamed",
        "--fold",
        "--color",
    ],
];

/// Returns whether the program with these words succeeds, and reads the file `a.wasm` once, and no other file.
fn reads_once(alloc: Global, words: &[&str]) -> Result<bool, Fail> {
    let source = Counted::new(alloc, "a.wasm", Some(PREAMBLE));
    let (status, _) = run_over_source(alloc, &source, words)?;
    Ok(status == 0 && source.was_read_once())
}

/// Returns the first words with which the file is not read once, or `None` if there are no such words.
fn first_not_read_once(alloc: Global, rows: &[Words]) -> Result<Option<Words>, Fail> {
    for words in rows {
        if !reads_once(alloc, words)? {
            return Ok(Some(*words));
        }
    }
    Ok(None)
}

#[test]
fn reads_once_with_each_option(rt: HostRuntime) -> Result<(), Fail> {
    let other = first_not_read_once(rt.alloc(), WITH_EACH_OPTION)?;
    assert!(rt; other == None, "{other:?}");
    Ok(())
}

/// Contents for which there is no text: a failed read, malformed bytes, and a component.
const WITHOUT_TEXT: &[Option<&[u8]>] = &[
    None,
    Some(&[0x00]),
    Some(&[0x00, 0x61, 0x73, 0x6d, 0x0d, 0x00, 0x01, 0x00]),
];

/// Returns whether the library and the program read a file without text once, and print nothing.
fn is_refused_after_one_read(alloc: Global, content: Option<&[u8]>) -> Result<bool, Fail> {
    let source = Counted::new(alloc, "a.wasm", content);
    let refused = print_file(&source, alloc, Path::new("a.wasm")).is_err();
    let program_source = Counted::new(alloc, "a.wasm", content);
    let (status, out) = run_over_source(alloc, &program_source, &["a.wasm"])?;
    Ok(
        refused
            && source.was_read_once()
            && status == 1
            && out.is_empty()
            && program_source.was_read_once(),
    )
}

/// Returns the number of the first of these contents, counted from 0, that is not refused after one read. Returns
/// `None` if there is no such content.
fn first_not_refused(
    alloc: Global,
    contents: &[Option<&'static [u8]>],
) -> Result<Option<usize>, Fail> {
    for (number, content) in contents.iter().enumerate() {
        if !is_refused_after_one_read(alloc, *content)? {
            return Ok(Some(number));
        }
    }
    Ok(None)
}

#[test]
fn reads_once_if_there_is_no_text(rt: HostRuntime) -> Result<(), Fail> {
    let other = first_not_refused(rt.alloc(), WITHOUT_TEXT)?;
    assert!(rt; other == None, "{other:?}");
    Ok(())
}

/// Sizes of files, four of them around 2^17 bytes, each with the size of the custom section in LEB128.
const FILE_SIZES: &[(usize, [u8; 3])] = &[
    (131_071, [0xf3, 0xff, 0x07]),
    (131_072, [0xf4, 0xff, 0x07]),
    (131_073, [0xf5, 0xff, 0x07]),
    (131_074, [0xf6, 0xff, 0x07]),
    (200_000, [0xb4, 0x9a, 0x0c]),
];

/// The number of bytes of such a file before the content of its custom section.
const BEFORE_CONTENT: usize = 14;

/// Writes a file of this size. Its only section is custom, is named `a`, and contains only the letter x.
fn write_module(
    rt: &HostRuntime,
    name: &str,
    size: usize,
    section_size: &[u8],
) -> Result<(), Fail> {
    let mut wasm = Vec::new(rt.alloc());
    wasm.extend_from_slice(PREAMBLE)?;
    wasm.push(0x00)?;
    wasm.extend_from_slice(section_size)?;
    wasm.extend_from_slice(&[0x01, b'a'])?;
    let content = "x".repeat(rt.alloc(), size.saturating_sub(BEFORE_CONTENT))?;
    wasm.extend_from_slice(content.as_bytes())?;
    fs::write(rt, name, &wasm)?;
    Ok(())
}

/// Returns the text of the module in a file of this size.
fn module_text(alloc: Global, size: usize) -> Result<String, Fail> {
    let before = "(module\n  (@custom \"a\" (before first) \"";
    let content = "x".repeat(alloc, size.saturating_sub(BEFORE_CONTENT))?;
    joined(alloc, before, content.as_str(), "\")\n)\n")
}

/// Returns whether the library and the program print the file of this name as this text.
fn print_as(rt: &HostRuntime, name: &str, text: &str) -> Result<bool, Fail> {
    let printed = print_file(rt, rt.alloc(), Path::new(name))?;
    let outcome = run_with(rt, &[name])?;
    Ok(printed.as_str() == text && has_printed(&outcome, text))
}

/// Returns whether the library and the program print the whole of a file of this size.
fn print_whole(rt: &HostRuntime, size: usize, section_size: &[u8]) -> Result<bool, Fail> {
    let name = "edge.wasm";
    write_module(rt, name, size, section_size)?;
    let text = module_text(rt.alloc(), size)?;
    let is_printed = print_as(rt, name, text.as_str())?;
    fs::remove_file(rt, name)?;
    Ok(is_printed)
}

/// Returns the first of these sizes of which a file is not printed whole, or `None` if there is no such size.
fn first_not_whole(rt: &HostRuntime, rows: &[(usize, [u8; 3])]) -> Result<Option<usize>, Fail> {
    for (size, section_size) in rows {
        if !print_whole(rt, *size, section_size)? {
            return Ok(Some(*size));
        }
    }
    Ok(None)
}

#[test]
fn prints_large_files_whole(rt: HostRuntime) -> Result<(), Fail> {
    let other = first_not_whole(&rt, FILE_SIZES)?;
    assert!(rt; other == None, "{other:?}");
    Ok(())
}
