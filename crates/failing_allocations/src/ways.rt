//! The ways in which a module is printed.

use crate::comparing::{Comparing, are_text};
use crate::ending::Ending;
use crate::going_on::by_trackers;
use crate::printers::{Copying, Keeping};
use crate::shapes::{Shape, Way};
use crate::without_memory::ending_of_calls;
use std::alloc::Global;
use std::io::ErrorKind;
use std::path::Path;
use wasmprinter::print::Ansi;
use wasmprinter::wasm::{Names, Space, decode};
use wasmprinter::{
    Config, Error, Print, PrintFmtWrite, PrintTermcolor, Source, print_bytes, print_file,
};

/// The old text of the storage to which lines are appended.
const OLD: &str = "old";

/// The file that `print_file` reads.
const FILE: &str = "everything.wasm";

/// The id of the subsection for which the `dylink.0` section of `DYLINK_UNKNOWN` is refused. All earlier calls
/// were made.
const UNKNOWN_ID: u8 = 9;

/// Returns the ending for a text, by whether it is the expected one.
fn compared(text: &str, shape: &Shape) -> Ending {
    Ending::of(text == shape.text, "wrong text")
}

fn by_print_bytes(alloc: Global, shape: &Shape) -> Ending {
    match print_bytes(alloc, shape.wasm) {
        Ok(text) => compared(text.as_str(), shape),
        Err(error) => Ending::of_error(error),
    }
}

/// Prints to any printer. This function has no contract, so that the proofs of its callers do not apply one to
/// their own printers.
fn print_to<P: Print>(
    config: &Config,
    alloc: Global,
    wasm: &[u8],
    printer: &mut P,
) -> Result<(), Error> {
    config.print(alloc, wasm, printer)
}

/// Prints with these options to a printer that allocates nothing.
fn by_comparing(
    alloc: Global,
    config: &Config,
    shape: &Shape,
    mut printer: Comparing<'_>,
) -> Ending {
    match print_to(config, alloc, shape.wasm, &mut printer) {
        Ok(()) | Err(Error::DylinkSubsection { id: UNKNOWN_ID }) => {
            Ending::of(printer.is_whole(), "wrong calls")
        }
        Err(error) => Ending::of(printer.is_prefix(), "wrong calls").or(Ending::of_error(
            error,
        ).after(printer.compared_len(shape.text))),
    }
}

/// Prints with these options, and compares the text.
fn by_config(alloc: Global, config: &Config, shape: &Shape) -> Ending {
    by_comparing(alloc, config, shape, Comparing::new(shape.text))
}

/// Returns the ending for an error of a printer whose own errors of this kind mean that an allocation for its text
/// failed. The printer keeps a prefix of the text.
fn ending_at_prefix(error: Error, kind: ErrorKind, text: &[u8], shape: &Shape) -> Ending {
    Ending::of(shape.text.as_bytes().starts_with(text), "wrong text").or(Ending::of_printer_error(
        error, kind,
    ))
}

/// Prints to a `PrintFmtWrite` over a `String`. Its errors are of the kind `Other`, since a `fmt::Error` has no
/// cause.
fn by_fmt_write(alloc: Global, shape: &Shape) -> Ending {
    let mut printer = PrintFmtWrite(String::new(alloc));
    match print_to(&Config::new(), alloc, shape.wasm, &mut printer) {
        Ok(()) => compared(printer.0.as_str(), shape),
        Err(error) => ending_at_prefix(error, ErrorKind::Other, printer.0.as_bytes(), shape),
    }
}

/// Prints to a user-defined printer. Its errors are of the kind `StorageFull`, and are returned exactly if an
/// allocation for its text failed.
fn by_keeping(alloc: Global, shape: &Shape) -> Ending {
    let mut printer = Keeping::new(alloc);
    let printed = print_to(&Config::new(), alloc, shape.wasm, &mut printer);
    let ending = match printed {
        Ok(()) => Ending::of(printer.text() == shape.text.as_bytes(), "wrong text"),
        Err(Error::Printer(error)) => Ending::of(
            printer.has_failed() && error.kind() == ErrorKind::StorageFull,
            "another error of the printer",
        )
        .or(Ending::OutOfMemory),
        Err(error) => Ending::of(!printer.has_failed(), "another error").or(Ending::of_error(
            error,
        )),
    };
    Ending::of(
        shape.text.as_bytes().starts_with(printer.text()),
        "wrong text",
    )
    .or(ending)
}

/// Prints to a `PrintTermcolor` with `Ansi` over a `Vec`.
fn by_termcolor(alloc: Global, shape: &Shape) -> Ending {
    let mut printer = PrintTermcolor(Ansi::new(Vec::new(alloc)));
    let printed = print_to(&Config::new(), alloc, shape.wasm, &mut printer);
    let text = printer.0.into_inner();
    match printed {
        Ok(()) => Ending::of(*text == *shape.text.as_bytes(), "wrong text"),
        Err(error) => ending_at_prefix(error, ErrorKind::OutOfMemory, &text, shape),
    }
}

fn by_decode(alloc: Global, shape: &Shape) -> Ending {
    match decode(alloc, shape.wasm) {
        Ok(module) => Ending::of(module.function_count() == shape.functions, "wrong count"),
        Err(error) => Ending::of_error(error),
    }
}

/// Returns the worst ending of the three calls that print the bytes of a module.
fn by_each_call(alloc: Global, shape: &Shape) -> Ending {
    by_print_bytes(alloc, shape)
        .or(by_config(alloc, &Config::new(), shape))
        .or(by_decode(alloc, shape))
}

/// Returns whether exactly these names are given to the module, to three functions, and to two locals of the first
/// function.
fn are_names(names: &Names<'_>, text: &str) -> bool {
    let mut found = Comparing::new(text);
    let given = [
        names.module(),
        names.identifier(Space::Func, 0, 0),
        names.identifier(Space::Func, 0, 1),
        names.identifier(Space::Func, 0, 2),
        names.identifier(Space::Local, 0, 0),
        names.identifier(Space::Local, 0, 1),
    ];
    for (number, name) in given.iter().enumerate() {
        if let Some(name) = name {
            found.compare(if number == 0 { "" } else { "\n" });
            found.compare(name);
        }
    }
    found.is_whole()
}

/// Reads the names of a module.
fn by_names(alloc: Global, shape: &Shape) -> Ending {
    let module = match decode(alloc, shape.wasm) {
        Ok(module) => module,
        Err(error) => return Ending::of_error(error),
    };
    match module.names(alloc) {
        Ok(names) => Ending::of(are_names(&names, shape.text), "wrong names"),
        Err(error) => Ending::of_error(error),
    }
}

/// Prints a file. Reading fails only if an allocation fails in it.
fn by_file<S: Source>(source: &S, alloc: Global, shape: &Shape) -> Ending {
    match print_file(source, alloc, Path::new(FILE)) {
        Ok(text) => compared(text.as_str(), shape),
        Err(Error::Unreadable) => Ending::OutOfMemory,
        Err(error) => Ending::of_error(error),
    }
}

/// Prints a file of a source that reports whether an allocation failed in it. The file is reported as unreadable
/// only in that case.
fn by_source(alloc: Global, shape: &Shape) -> Ending {
    let source = Copying::new(alloc, shape.wasm);
    match print_file(&source, alloc, Path::new(FILE)) {
        Ok(text) => compared(text.as_str(), shape),
        Err(Error::Unreadable) => {
            if source.has_failed() {
                Ending::OutOfMemory
            } else {
                Ending::Other("the file was read")
            }
        }
        Err(error) => {
            Ending::of(!source.has_failed(), "another error").or(Ending::of_error(error))
        }
    }
}

/// Returns whether the storage holds its old text and a prefix of this one.
fn is_begun(storage: &str, text: &str) -> bool {
    match storage.strip_prefix(OLD) {
        Some(rest) => text.starts_with(rest),
        None => false,
    }
}

/// Appends a module's lines to a text. After a failed allocation the storage must hold its old text and a prefix
/// of the module's text.
fn by_lines(alloc: Global, config: &Config, shape: &Shape) -> Ending {
    let mut storage = String::new(alloc);
    if storage.push_str(OLD).is_err() {
        return Ending::OutOfMemory;
    }
    let refused = match config.offsets_and_lines(alloc, shape.wasm, &mut storage) {
        Ok(lines) => return Ending::of(are_text(lines, shape.text), "wrong lines"),
        Err(error) => Ending::of_error(error),
    };
    Ending::of(is_begun(storage.as_str(), shape.text), "lost text").or(refused.after(
        storage.len().saturating_sub(OLD.len()),
    ))
}

/// Prints in color.
fn by_colors(alloc: Global, config: &Config, shape: &Shape) -> Ending {
    match config.print_to_ansi(alloc, shape.wasm) {
        Ok(text) => Ending::of(*text == *shape.text.as_bytes(), "wrong colors"),
        Err(error) => Ending::of_error(error),
    }
}

/// Returns the options with folded operators.
fn folding() -> Config {
    let mut config = Config::new();
    config.fold_instructions(true);
    config
}

/// Prints to a string, with folded operators.
fn by_folded_string(alloc: Global, shape: &Shape) -> Ending {
    match folding().print_to_string(alloc, shape.wasm) {
        Ok(text) => compared(text.as_str(), shape),
        Err(error) => Ending::of_error(error),
    }
}

/// Prints a shape in its way, and returns the ending.
pub fn ending_of(rt: &HostRuntime, shape: &Shape) -> Ending {
    let alloc = rt.alloc();
    match shape.way {
        Way::Plain => by_each_call(alloc, shape),
        Way::Names => by_names(alloc, shape),
        Way::File => by_file(rt, alloc, shape),
        Way::Source => by_source(alloc, shape),
        Way::Lines => by_lines(alloc, &Config::new(), shape),
        Way::FoldedLines => by_lines(alloc, &folding(), shape),
        Way::FmtWrite => by_fmt_write(alloc, shape),
        Way::Keeping => by_keeping(alloc, shape),
        Way::Colors => by_colors(alloc, &Config::new(), shape),
        Way::FoldedColors => by_colors(alloc, &folding(), shape),
        Way::Termcolor => by_termcolor(alloc, shape),
        Way::FoldedString => by_folded_string(alloc, shape),
        Way::Folded => by_config(alloc, &folding(), shape),
        Way::FoldedCalls => {
            by_comparing(alloc, &folding(), shape, Comparing::with_calls(shape.text))
        }
        Way::Trackers => by_trackers(alloc),
        Way::Setup => ending_of_calls(alloc, shape, false),
        Way::WithoutMemory => ending_of_calls(alloc, shape, true),
    }
}
