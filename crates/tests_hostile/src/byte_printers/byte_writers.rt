//! Printers over byte writers that fail at each of their calls in turn: the writer's error is returned, and the bytes
//! that were written before it are a prefix of the text. One kind of writer accepts one byte in each call, the other
//! accepts all bytes. Other tests have writers whose calls are interrupted, writers that accept no bytes, and styles
//! that fail.

use crate::byte_printers::printing::{make_calls_without_text, print_bytes_to, print_colors_to};
use crate::byte_printers::scripted::Scripted;
use crate::layout::{KINDS, LAYOUTS, Layout};
use std::alloc::{AllocError, Global};
use std::io::ErrorKind;
use std::test::Fail;
use wasmprinter::print::{Ansi, Color, ColorSpec, NoColor, WriteColor};
use wasmprinter::{Error, Print, PrintIoWrite, PrintTermcolor};
use wasmprinter_samples::{
    CUSTOMS_AROUND_A_MEMORY, DYLINK_CUT, GLOBAL_BLOCK, HINTED_IF, IDENTITY, PREAMBLE,
};

/// A printer over a writer of bytes.
#[derive(Clone, Copy, Debug)]
enum Printer {
    /// `PrintIoWrite`.
    Plain,
    /// `PrintTermcolor` over `NoColor`.
    Uncolored,
    /// `PrintTermcolor` over `Ansi`.
    Colored,
}

const PRINTERS: &[Printer] = &[Printer::Plain, Printer::Uncolored, Printer::Colored];

/// The greatest number of bytes that a writer of the first kind accepts in one call.
const SINGLE: usize = 1;

/// The greatest numbers of bytes that writers accept in one call.
const ACCEPTED_AT_ONCE: &[usize] = &[SINGLE, usize::MAX];

/// The markers of styles in typed texts, and their ANSI escape sequences.
const STYLES: &[(&str, &str)] = &[
    ("{K}", "\x1b[0m\x1b[1m\x1b[38;5;11m"),
    ("{N}", "\x1b[0m\x1b[35m"),
    ("{L}", "\x1b[0m\x1b[31m"),
    ("{T}", "\x1b[0m\x1b[1m\x1b[38;5;10m"),
    ("{C}", "\x1b[0m\x1b[36m"),
    ("{R}", "\x1b[0m"),
];

/// A module with its texts. They contain the markers of styles.
struct Styled {
    name: &'static str,
    wasm: &'static [u8],
    flat: &'static str,
    folded: &'static str,
}

const EMPTY: &str = "({K}module{R})\n";

const IDENTITY_FLAT: &str = r#"({K}module{R}
  ({K}type {R}{N}(;0;){R} ({K}func{R} ({K}param{R} {T}i32{R}) ({K}result{R} {T}i32{R})))
  ({K}export {R}{L}"f"{R} ({K}func {R}{N}0{R}))
  ({K}func {R}{N}(;0;){R} ({K}type {R}{N}0{R}) ({K}param{R} {T}i32{R}) ({K}result{R} {T}i32{R})
    local.get {N}0{R}
  )
)
"#;

const IDENTITY_FOLDED: &str = r#"({K}module{R}
  ({K}type {R}{N}(;0;){R} ({K}func{R} ({K}param{R} {T}i32{R}) ({K}result{R} {T}i32{R})))
  ({K}export {R}{L}"f"{R} ({K}func {R}{N}0{R}))
  ({K}func {R}{N}(;0;){R} ({K}type {R}{N}0{R}) ({K}param{R} {T}i32{R}) ({K}result{R} {T}i32{R})
    (local.get {N}0{R})
  )
)
"#;

const GLOBAL_FLAT: &str = "({K}module{R}
  ({K}global {R}{N}(;0;){R} {T}i32{R} block ({K}result {R}{T}i32{R}) {C} (; label = @1 ;){R} i32.const{L} 1{R} end)
)
";

const GLOBAL_FOLDED: &str = "({K}module{R}
  ({K}global {R}{N}(;0;){R} {T}i32{R} (block ({K}result {R}{T}i32{R}) {C} (; label = @1 ;){R} (i32.const{L} 1{R})))
)
";

const HINTED_FLAT: &str = r#"({K}module{R}
  ({K}type {R}{N}(;0;){R} ({K}func{R} ({K}param{R} {T}i32{R})))
  ({K}func {R}{N}(;0;){R} ({K}type {R}{N}0{R}) ({K}param{R} {T}i32{R})
    local.get {N}0{R}
    {C}(@metadata.code.branch_hint "\01"){R}
    if {C};; label = @1{R}
    end
  )
)
"#;

const HINTED_FOLDED: &str = r#"({K}module{R}
  ({K}type {R}{N}(;0;){R} ({K}func{R} ({K}param{R} {T}i32{R})))
  ({K}func {R}{N}(;0;){R} ({K}type {R}{N}0{R}) ({K}param{R} {T}i32{R})
    (@metadata.code.branch_hint "\01")
    (if {C};; label = @1{R}
      (local.get {N}0{R})
      (then))
  )
)
"#;

const CUSTOMS: &str = r#"({K}module{R}
  ({K}@custom {R}{L}"a"{R} (before first) {L}"\01"{R})
  ({K}memory {R}{N}(;0;){R} {L}1{R})
  ({K}@custom {R}{L}"b"{R} (after memory) {L}""{R})
)
"#;

const CUT: &str = r#"({K}module{R}
  ;; failed to parse custom section `dylink.0`
  ({K}@custom {R}{L}"dylink.0"{R} (before first) {L}"\01\05\10"{R})
)
"#;

const MODULES: &[Styled] = &[
    Styled {
        name: "no fields",
        wasm: PREAMBLE,
        flat: EMPTY,
        folded: EMPTY,
    },
    Styled {
        name: "identity",
        wasm: IDENTITY,
        flat: IDENTITY_FLAT,
        folded: IDENTITY_FOLDED,
    },
    Styled {
        name: "global with a block",
        wasm: GLOBAL_BLOCK,
        flat: GLOBAL_FLAT,
        folded: GLOBAL_FOLDED,
    },
    Styled {
        name: "if with a hint",
        wasm: HINTED_IF,
        flat: HINTED_FLAT,
        folded: HINTED_FOLDED,
    },
    Styled {
        name: "custom sections around a memory",
        wasm: CUSTOMS_AROUND_A_MEMORY,
        flat: CUSTOMS,
        folded: CUSTOMS,
    },
    Styled {
        name: "dylink.0 that is cut",
        wasm: DYLINK_CUT,
        flat: CUT,
        folded: CUT,
    },
];

/// Returns a text with the sequences of these styles in place of their markers, or nothing if it has no colors.
fn replace_markers(
    alloc: Global,
    marked: &str,
    styles: &[(&str, &str)],
    is_colored: bool,
) -> Result<String, AllocError> {
    let mut text = String::from_str(alloc, marked)?;
    for (mark, sequence) in styles {
        let style = if is_colored { *sequence } else { "" };
        text = text.replace(alloc, *mark, style)?;
    }
    Ok(text)
}

/// The printer, the layout and the writer of a run.
#[derive(Clone, Copy, Debug)]
struct Form {
    printer: Printer,
    layout: Layout,
    /// The maximum number of bytes that the writer accepts in one call.
    most: usize,
}

/// A module that is printed in a layout by a printer, to a writer.
#[derive(Clone, Copy)]
struct Run<'a> {
    alloc: Global,
    module: &'a Styled,
    form: Form,
}

impl Run<'_> {
    fn print(&self, writer: &mut Scripted) -> Result<(), Error> {
        let config = self.form.layout.config();
        let wasm = self.module.wasm;
        match self.form.printer {
            Printer::Plain => {
                print_bytes_to(&config, self.alloc, wasm, writer)?;
            }
            Printer::Uncolored => {
                print_colors_to(&config, self.alloc, wasm, NoColor::new(writer))?;
            }
            Printer::Colored => {
                print_colors_to(&config, self.alloc, wasm, Ansi::new(writer))?;
            }
        }
        Ok(())
    }

    /// Returns the text, with ANSI escape sequences if the printer writes colors.
    fn text(&self) -> Result<String, AllocError> {
        let marked = match self.form.layout {
            Layout::Flat => self.module.flat,
            Layout::Folded => self.module.folded,
        };
        let is_colored = matches!(self.form.printer, Printer::Colored);
        replace_markers(self.alloc, marked, STYLES, is_colored)
    }

    /// Checks that the whole text is written if no call fails, and returns the number of calls.
    fn check_whole(&self, text: &str) -> Result<usize, Fail> {
        let mut writer = Scripted::new(self.alloc, self.form.most);
        self.print(&mut writer)?;
        if writer.bytes.as_slice() != text.as_bytes() {
            return Err(self.fail_at(0, "another text"));
        }
        Ok(writer.calls.len())
    }

    /// Checks that printing ends at the call with this number, which fails, and that the bytes that were written
    /// before are a proper prefix of the text. Returns their number.
    fn check_until(&self, text: &str, write: usize, kind: ErrorKind) -> Result<usize, Fail> {
        let mut writer = Scripted::with_failure(self.alloc, self.form.most, write, kind);
        let result = self.print(&mut writer);
        if !matches!(result, Err(Error::Printer(e)) if e.kind() == kind) {
            return Err(self.fail_at(write, "another result"));
        }
        if writer.calls.len() != write {
            return Err(self.fail_at(write, "another number of writes"));
        }
        let count = writer.bytes.len();
        if !text.as_bytes().starts_with(&writer.bytes) || count >= text.len() {
            return Err(self.fail_at(write, "other bytes before it"));
        }
        Ok(count)
    }

    /// Checks that printing ends at each of this number of calls if that call fails with an error of these kinds. If
    /// the writer accepts single bytes, exactly the bytes before the failing call are written.
    fn check_writes(&self, text: &str, writes: usize, kinds: &[ErrorKind]) -> Result<(), Fail> {
        for kind in kinds {
            for before in 0..writes {
                let write = before + 1;
                let count = self.check_until(text, write, *kind)?;
                if self.form.most == SINGLE && count != before {
                    return Err(self.fail_at(write, "another number of bytes before it"));
                }
            }
        }
        Ok(())
    }

    /// Checks that printing ends at each call that fails. If the writer accepts single bytes, there is a call for
    /// each byte of the text.
    fn check_each_write(&self) -> Result<(), Fail> {
        let text = self.text()?;
        let writes = self.check_whole(text.as_str())?;
        if self.form.most == SINGLE && writes != text.len() {
            return Err(self.fail_at(0, "another number of writes"));
        }
        self.check_writes(text.as_str(), writes, KINDS)
    }

    /// Checks that the last call is made again if it is interrupted.
    fn check_interrupted(&self) -> Result<(), Fail> {
        let text = self.text()?;
        let writes = self.check_whole(text.as_str())?;
        let kind = ErrorKind::Interrupted;
        let mut writer = Scripted::with_failure(self.alloc, self.form.most, writes, kind);
        self.print(&mut writer)?;
        if writer.calls.len() != writes.saturating_add(1) {
            return Err(self.fail_at(writes, "another number of writes"));
        }
        if writer.bytes.as_slice() != text.as_bytes() {
            return Err(self.fail_at(writes, "another text"));
        }
        Ok(())
    }

    /// Checks that printing ends at the first call of a writer that accepts no bytes.
    fn check_full(&self) -> Result<(), Fail> {
        let mut writer = Scripted::new(self.alloc, 0);
        let result = self.print(&mut writer);
        if !matches!(result, Err(Error::Printer(e)) if e.kind() == ErrorKind::WriteZero) {
            return Err(self.fail_at(1, "another result"));
        }
        if writer.calls.len() != 1 || !writer.bytes.is_empty() {
            return Err(self.fail_at(1, "another number of writes"));
        }
        Ok(())
    }

    /// Makes a check.
    fn check(&self, check: Check) -> Result<(), Fail> {
        match check {
            Check::EachWrite => self.check_each_write(),
            Check::Interrupted => self.check_interrupted(),
            Check::Full => self.check_full(),
        }
    }

    fn fail_at(&self, write: usize, reason: &'static str) -> Fail {
        Fail::from(Failure {
            module: self.module.name,
            form: self.form,
            write,
            reason,
        })
    }
}

/// The failure of a test at a write of a run.
#[derive(Debug, Drop)]
struct Failure {
    module: &'static str,
    form: Form,
    /// The number of the call of `write` that fails, from 1, or 0 if no call fails.
    write: usize,
    reason: &'static str,
}

/// What is checked of each run.
#[derive(Clone, Copy)]
enum Check {
    /// Printing ends at each write that fails.
    EachWrite,
    /// A write that was interrupted is made again.
    Interrupted,
    /// Printing ends at a writer that accepts no bytes.
    Full,
}

/// Checks the runs of these modules in a form.
fn check_modules(alloc: Global, modules: &[Styled], form: Form, check: Check) -> Result<(), Fail> {
    for module in modules {
        let run = Run {
            alloc,
            module,
            form,
        };
        run.check(check)?;
    }
    Ok(())
}

/// Checks the runs of all modules by a printer, in these layouts and with these writers.
fn check_printer(
    alloc: Global,
    printer: Printer,
    layouts: &[Layout],
    accepted: &[usize],
    check: Check,
) -> Result<(), Fail> {
    for layout in layouts {
        for most in accepted {
            let form = Form {
                printer,
                layout: *layout,
                most: *most,
            };
            check_modules(alloc, MODULES, form, check)?;
        }
    }
    Ok(())
}

/// Checks the runs of each module by these printers, in both layouts and with each writer.
fn check_runs(alloc: Global, printers: &[Printer], check: Check) -> Result<(), Fail> {
    for printer in printers {
        check_printer(alloc, *printer, LAYOUTS, ACCEPTED_AT_ONCE, check)?;
    }
    Ok(())
}

#[test]
fn stops_at_each_write_that_fails_and_returns_its_error(rt: HostRuntime) -> Result<(), Fail> {
    check_runs(rt.alloc(), PRINTERS, Check::EachWrite)
}

#[test]
fn tries_a_write_again_that_was_interrupted(rt: HostRuntime) -> Result<(), Fail> {
    check_runs(rt.alloc(), PRINTERS, Check::Interrupted)
}

#[test]
fn fails_where_a_writer_takes_nothing(rt: HostRuntime) -> Result<(), Fail> {
    check_runs(rt.alloc(), PRINTERS, Check::Full)
}

/// The numbers of writes that fail, each with the sequences that are written before. The color has three sequences.
const LEFT: &[(usize, &str)] = &[
    (1, ""),
    (2, "\x1b[0m"),
    (3, "\x1b[0m\x1b[1m"),
    (4, "\x1b[0m\x1b[1m\x1b[38;5;10m"),
];

/// Sets a color of three sequences if the write with this number fails. Returns the kind of the error, or `None` on
/// success, and the writer.
fn set_color_until(alloc: Global, write: usize) -> (Option<ErrorKind>, Scripted) {
    let mut spec = ColorSpec::new();
    spec.set_fg(Some(Color::Green))
        .set_bold(true)
        .set_intense(true);
    let script = Scripted::with_failure(alloc, usize::MAX, write, ErrorKind::BrokenPipe);
    let mut writer = Ansi::new(script);
    let kind = match writer.set_color(&spec) {
        Ok(()) => None,
        Err(error) => Some(error.kind()),
    };
    (kind, writer.into_inner())
}

/// Reports whether setting a color of three sequences returns the error of the write with this number, and makes no
/// write after it. The sequences that are written before are these.
fn leaves(alloc: Global, write: usize, left: &str) -> bool {
    let (kind, script) = set_color_until(alloc, write);
    let wanted = if write < 4 {
        Some(ErrorKind::BrokenPipe)
    } else {
        None
    };
    kind == wanted
        && script.calls.len() == write.min(3)
        && script.bytes.as_slice() == left.as_bytes()
}

/// Returns the number of the first of these writes before which other sequences are written, or `None` if there is no
/// such write.
fn first_other(alloc: Global, rows: &[(usize, &str)]) -> Option<usize> {
    for (write, left) in rows {
        if !leaves(alloc, *write, *left) {
            return Some(*write);
        }
    }
    None
}

#[test]
fn leaves_the_sequences_up_to_the_one_that_failed(rt: HostRuntime) {
    let other = first_other(rt.alloc(), LEFT);
    assert!(rt; other == None, "at write {other:?}");
}

/// Returns a writer whose first call fails.
fn refusing_first(alloc: Global) -> Scripted {
    Scripted::with_failure(alloc, usize::MAX, 1, ErrorKind::BrokenPipe)
}

#[test]
fn fails_only_where_it_writes(rt: HostRuntime) -> Result<(), Fail> {
    let mut printer = PrintIoWrite(refusing_first(rt.alloc()));
    assert!(rt; !make_calls_without_text(&mut printer)?);
    assert!(rt; printer.0.calls.len() == 0);
    let refused = printer.newline();
    assert!(rt; matches!(refused, Err(e) if e.kind() == ErrorKind::BrokenPipe));
    printer.write_str("b")?;
    assert!(rt; printer.0.calls.len() == 2);
    assert!(rt; printer.0.bytes.as_slice() == b"b".as_slice());
    Ok(())
}

#[test]
fn fails_at_a_style_where_it_writes_a_sequence(rt: HostRuntime) -> Result<(), Fail> {
    let mut printer = PrintTermcolor(Ansi::new(refusing_first(rt.alloc())));
    printer.start_line(Some(8));
    assert!(rt; !printer.print_custom_section("name", 8, &[0])?);
    let refused = printer.reset_color();
    assert!(rt; matches!(refused, Err(e) if e.kind() == ErrorKind::BrokenPipe));
    printer.start_comment()?;
    let script = printer.0.into_inner();
    assert!(rt; script.calls.len() == 3);
    assert!(rt; script.bytes.as_slice() == b"\x1b[0m\x1b[36m".as_slice());
    Ok(())
}
