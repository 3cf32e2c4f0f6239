//! Tests of runs of characters. A printer that takes runs receives each run of a quoted string in one call of
//! `write_each_char`. Any other printer receives no such call, even if it implements `write_each_char`.
ghost use Rattle.std.specs.Prelude.{None, false};

use crate::cuts::calls::Calls;
use crate::cuts::{Input, write_input};
use std::alloc::{AllocError, Global};
use std::io;
use std::test::Fail;
use wasmprinter::{Print, PrintText};
use wasmprinter_expecting::expect_same;

/// The pieces of text so far. One from `write_str` has a bar after it, one from `write_each_char` has angle
/// brackets around it.
#[derive(Drop)]
struct Pieces {
    text: String,
}

impl Pieces {
    fn new(alloc: Global) -> Pieces {
        Pieces {
            text: String::new(alloc),
        }
    }

    fn put_piece(&mut self, s: &str) -> io::Result<()> {
        self.text.push_str(s)?;
        self.text.push('|')?;
        Ok(())
    }

    fn put_run(&mut self, s: &str) -> io::Result<()> {
        self.text.push('<')?;
        self.text.push_str(s)?;
        self.text.push('>')?;
        Ok(())
    }
}

/// A printer that implements `write_each_char`, and may take runs.
#[derive(Drop)]
struct RunPrinter {
    pieces: Pieces,
    takes_runs: bool,
}

impl RunPrinter {
    fn new(alloc: Global, takes_runs: bool) -> RunPrinter {
        RunPrinter {
            pieces: Pieces::new(alloc),
            takes_runs,
        }
    }
}

impl Print for RunPrinter {
    ghost meaning = { record {
      after = λ _ _ _. Unit {0};
      may_fail = λ _ _. Unit {0};
      partly = λ _ _ _ _. Unit {0};
      faults = λ _. None;
    } };

    ghost colors = { λ _. false };

    fn write_str(&mut self, s: &str) -> io::Result<()> {
        self.pieces.put_piece(s)
    }

    #[tactic(auto, using(wasmprinter_print::specs::MadeLaws::does))]
    fn write_each_char(&mut self, s: &str) -> io::Result<()> {
        self.pieces.put_run(s)
    }

    fn takes_runs(&self) -> bool {
        self.takes_runs
    }

    fn newline(&mut self) -> io::Result<()> {
        Ok(())
    }

    fn start_line(&mut self, _binary_offset: Option<u64>) {}

    fn print_custom_section(
        &mut self,
        _name: &str,
        _binary_offset: u64,
        _bytes: &[u8],
    ) -> io::Result<bool> {
        Ok(false)
    }

    fn start_literal(&mut self) -> io::Result<()> {
        Ok(())
    }

    fn start_name(&mut self) -> io::Result<()> {
        Ok(())
    }

    fn start_keyword(&mut self) -> io::Result<()> {
        Ok(())
    }

    fn start_type(&mut self) -> io::Result<()> {
        Ok(())
    }

    fn start_comment(&mut self) -> io::Result<()> {
        Ok(())
    }

    fn reset_color(&mut self) -> io::Result<()> {
        Ok(())
    }

    fn supports_async_color(&self) -> bool {
        false
    }
}

/// A printer that only writes text.
#[derive(Drop)]
struct Plainly(Pieces);

impl PrintText for Plainly {
    fn write_str(&mut self, s: &str) -> io::Result<()> {
        self.0.put_piece(s)
    }
}

/// A printer that only writes text and takes runs.
#[derive(Drop)]
struct PlainlyInRuns(Pieces);

impl PrintText for PlainlyInRuns {
    fn write_str(&mut self, s: &str) -> io::Result<()> {
        self.0.put_piece(s)
    }

    fn takes_runs(&self) -> bool {
        true
    }
}

/// Writes a text with the printer's `write_each_char`. It has no contract, so that callers need not prove anything
/// about their own printer.
fn write_each<P: Print>(p: &mut P, text: &str) -> io::Result<()> {
    p.write_each_char(text)
}

/// Returns `part` repeated `count` times, between two other texts.
fn repeated(
    alloc: Global,
    before: &str,
    part: &str,
    count: usize,
    after: &str,
) -> Result<String, AllocError> {
    let mut text = String::from_str(alloc, before)?;
    for _ in 0..count {
        text.push_str(part)?;
    }
    text.push_str(after)?;
    Ok(text)
}

/// Checks the pieces of a content that a printer receives if it takes runs.
fn expect_runs(name: &'static str, alloc: Global, input: Input, wanted: &str) -> Result<(), Fail> {
    let mut printer = RunPrinter::new(alloc, true);
    write_input(&mut printer, input)?;
    expect_same(name, printer.pieces.text.as_str(), wanted)
}

/// Contents, each with its pieces if the printer takes runs.
const RUNS: &[(&str, Input, &str)] = &[
    ("no characters", Input::Text(""), "\"|\"|"),
    ("a word", Input::Text("memory"), "\"|<memory>\"|"),
    (
        "characters and escapes",
        Input::Text("ab\"céd"),
        "\"|<ab>\\u{|2|2|}|<c>\\u{|e|9|}|<d>\"|",
    ),
    ("no bytes", Input::Bytes(&[]), "\"|\"|"),
    (
        "bytes and escapes",
        Input::Bytes(b"a\"\0b\xff"),
        "\"|<a\\22\\00b\\ff>\"|",
    ),
];

#[test]
fn writes_quoted_strings_in_runs(rt: HostRuntime) -> Result<(), Fail> {
    for (name, input, wanted) in RUNS {
        expect_runs(*name, rt.alloc(), *input, *wanted)?;
    }
    Ok(())
}

/// A run has at most 256 plain characters. A run of a byte string covers at most 85 bytes, which are at most 255
/// characters.
#[test]
fn ends_a_run_at_its_greatest_length(rt: HostRuntime) -> Result<(), Fail> {
    let alloc = rt.alloc();
    let text = repeated(alloc, "", "x", 256, "y")?;
    let wanted = repeated(alloc, "\"|<", "x", 256, "><y>\"|")?;
    let input = Input::Text(text.as_str());
    expect_runs("256 characters", alloc, input, wanted.as_str())?;
    let wanted = repeated(alloc, "\"|<", "\\00", 85, "><\\00>\"|")?;
    let input = Input::Bytes(&[0; 86]);
    expect_runs("85 bytes", alloc, input, wanted.as_str())
}

/// By default, a printer takes no runs.
#[test]
fn writes_no_run_to_a_printer_that_takes_none(rt: HostRuntime) -> Result<(), Fail> {
    assert!(rt; !Calls::new(rt.alloc(), 0).takes_runs());
    let mut printer = RunPrinter::new(rt.alloc(), false);
    write_input(&mut printer, Input::Text("ab\""))?;
    write_input(&mut printer, Input::Bytes(b"a\0"))?;
    expect_same(
        "two strings",
        printer.pieces.text.as_str(),
        "\"|a|b|\\u{|2|2|}|\"|\"|a|\\|0|0|\"|",
    )
}

/// The trait's `write_each_char` makes a call for each character.
#[test]
fn writes_each_character_by_a_call(rt: HostRuntime) -> Result<(), Fail> {
    let mut calls = Calls::new(rt.alloc(), 0);
    write_each(&mut calls, "ab\"c")?;
    expect_same(
        "four characters",
        calls.shown(rt.alloc())?.as_str(),
        "a|b|\"|c|",
    )
}

#[test]
fn writes_pieces_to_printers_of_text_alone(rt: HostRuntime) -> Result<(), Fail> {
    let mut printer = Plainly(Pieces::new(rt.alloc()));
    write_input(&mut printer, Input::Text("ab\""))?;
    let wanted = "\"|a|b|\\u{|2|2|}|\"|";
    expect_same("no runs", printer.0.text.as_str(), wanted)?;
    let mut printer = PlainlyInRuns(Pieces::new(rt.alloc()));
    write_input(&mut printer, Input::Text("ab"))?;
    write_each(&mut printer, "cd")?;
    expect_same("runs", printer.0.text.as_str(), "\"|ab|\"|cd|")
}
