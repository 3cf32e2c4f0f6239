//! Tests of a user-defined printer and of a user-defined writer with colors.
ghost use Rattle.std.specs.Prelude.{None, false, true, Ok};

use crate::printing::print_to;
use std::io;
use std::io::Write;
use std::test::Fail;
use wasmprinter::print::{Color, ColorSpec, Print, PrintTermcolor, WriteColor};
use wasmprinter_samples::{PREAMBLE, expect_text};

/// A printer that writes a letter before each styled text, `.` after it, and `|` for each line feed. It claims the
/// sections named `mine`.
#[derive(Drop)]
struct Letters(String);

impl Letters {
    /// Appends a piece of text.
    fn push(&mut self, piece: &str) -> io::Result<()> {
        self.0.push_str(piece)?;
        Ok(())
    }
}

impl Print for Letters {
    ghost meaning = { record {
      after = λ _ _ _. Unit {0};
      may_fail = λ _ _. Unit {0};
      partly = λ _ _ _ _. Unit {0};
      faults = λ _. None;
    } };

    ghost colors = { λ _. false };

    fn write_str(&mut self, s: &str) -> io::Result<()> {
        self.push(s)
    }

    fn newline(&mut self) -> io::Result<()> {
        self.push("|")
    }

    fn start_line(&mut self, _binary_offset: Option<u64>) {}

    fn print_custom_section(
        &mut self,
        name: &str,
        _binary_offset: u64,
        _bytes: &[u8],
    ) -> io::Result<bool> {
        Ok(name == "mine")
    }

    fn start_literal(&mut self) -> io::Result<()> {
        self.push("l")
    }

    fn start_name(&mut self) -> io::Result<()> {
        self.push("n")
    }

    fn start_keyword(&mut self) -> io::Result<()> {
        self.push("k")
    }

    fn start_type(&mut self) -> io::Result<()> {
        self.push("t")
    }

    fn start_comment(&mut self) -> io::Result<()> {
        self.push("c")
    }

    fn reset_color(&mut self) -> io::Result<()> {
        self.push(".")
    }

    fn supports_async_color(&self) -> bool {
        false
    }
}

/// A module with two custom sections, `mine` and `it`.
const TWO_SECTIONS: &[u8] = &[
    0x00, 0x61, 0x73, 0x6d, 0x01, 0x00, 0x00, 0x00, // preamble
    0x00, 0x05, 0x04, 0x6d, 0x69, 0x6e, 0x65, // mine
    0x00, 0x03, 0x02, 0x69, 0x74, // it
];

/// The text of `TWO_SECTIONS` without the section that the printer claims.
const TWO_SECTIONS_TEXT: &str = "(kmodule.|  (k@custom .l\"it\". (before first) l\"\".)|)|";

#[test]
fn prints_to_a_printer_with_styles(rt: HostRuntime) -> Result<(), Fail> {
    let mut printer = Letters(String::new(rt.alloc()));
    print_to(rt.alloc(), TWO_SECTIONS, &mut printer)?;
    expect_text(printer.0.as_str(), TWO_SECTIONS_TEXT)?;
    Ok(())
}

/// A writer that writes a letter for each color: `r` for red, `o` for any other, and `.` for a reset.
#[derive(Drop)]
struct Marks(Vec<u8>);

impl Write for Marks {
    fn write(&mut self, buf: &[u8]) -> io::Result<usize> {
        self.0.write(buf)
    }

    fn flush(&mut self) -> io::Result<()> {
        self.0.flush()
    }
}

impl WriteColor for Marks {
    ghost sets_color = { λ _ _ _ _. Unit {0} };

    ghost is_colored = { λ _. true };

    ghost is_immediate = { λ _. true };

    fn supports_color(&self) -> bool {
        true
    }

    fn set_color(&mut self, spec: &ColorSpec) -> io::Result<()> {
        match spec.fg() {
            Some(Color::Red) => self.0.write_all(b"r"),
            _ => self.0.write_all(b"o"),
        }
    }

    fn reset(&mut self) -> io::Result<()> {
        self.0.write_all(b".")
    }

    fn is_synchronous(&self) -> bool {
        true
    }
}

#[test]
fn prints_to_a_writer_of_marks(rt: HostRuntime) -> Result<(), Fail> {
    let mut printer = PrintTermcolor(Marks(Vec::new(rt.alloc())));
    print_to(rt.alloc(), PREAMBLE, &mut printer)?;
    assert!(rt; printer.0.0.as_slice() == b"(omodule.)\n".as_slice());
    Ok(())
}
