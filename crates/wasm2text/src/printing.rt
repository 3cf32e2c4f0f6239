//! Printing files to a writer.
ghost use Rattle.std.specs.Prelude.{◌≡◌, List, [], None, map, Result, Ok, Err, MatchResult};
ghost use Rattle.wasm2text.specs.Messages.{Failure};
ghost use Rattle.wasm2text.specs.Parts.{part_view};
ghost use Rattle.wasm2text.specs.Outcome.{Reads, between, Returns, Plain, InColors, PartForm, writer, printing, series, choice, style_choice, EndsAs, EndsBy, IsNoted, PrintsEach, Reports, write_failures, status_of};

use crate::cause::{Cause, is_closed_pipe};
use crate::form::Form;
use crate::messages::{Messages, report};
use crate::output::{Output, PrintOutput};
use crate::part::{Part, text_of_part};
use crate::request::STANDARD_INPUT;
use crate::status::{FAILED, PRINTED};
use crate::system::Inputs;
use crate::text_options::TextOptions;
use std::alloc::Global;
use std::io;
use wasmprinter::{Config, Error};

/// How modules are printed.
#[derive(Clone, Copy)]
pub struct Style<'a> {
    /// The options of printing.
    pub options: TextOptions<'a>,
    /// What is written.
    pub form: Form<'a>,
}

/// How printing a file ended.
#[derive(Drop)]
pub enum Ended {
    /// The text was written, and the writer was flushed.
    Printed,
    /// The file can't be read, or its module can't be printed or decoded.
    Refused(Cause),
    /// The text can't be written.
    Unwritten(io::Error),
}

/// Prints files one after the other, and returns the exit status and the writer. A file that is not printed is
/// reported. After a failed write no file is printed.
pub fn print_files<I: Inputs, O: Output + Drop, E: Messages>(
    inputs: &mut I,
    alloc: Global,
    style: Style<'_>,
    files: &[&str],
    out: O,
    err: &mut E,
) -> (u8, O)
    ensures { (failures : List Failure)
        × PrintsEach (series (Reads I.reads I.reads_input) (style_choice style.entry) (writer O.takes O.flushes O.uncreated))
        inputs.old out (map (λ f. f.now) files.now) failures inputs.new result.1
        × Reports E.sends err.old failures err.new × (result.0 ≡ status_of failures) }
{
    let mut out = out;
    let mut status = PRINTED;
    for file in files {
        let (ended, writer) = print_file(inputs, alloc, style, file, out);
        out = writer;
        let (last, goes_on) = note(err, file, &out, ended);
        status = status.max(last);
        if !goes_on {
            return (status, out);
        }
    }
    (status, out)
}

/// Reports a failure, if printing a file ended with one. Returns the exit status, and whether files are printed after
/// this one.
fn note<O: Output, E: Messages>(err: &mut E, name: &str, out: &O, ended: Ended) -> (u8, bool)
    ensures { (failures : List Failure) × IsNoted ended name.now (O.uncreated out.now) failures result.1
        × Reports E.sends err.old failures err.new × (result.0 ≡ status_of failures) }
{
    match ended {
        Ended::Printed => (PRINTED, true),
        Ended::Refused(cause) => {
            report(err, name, &cause);
            (FAILED, true)
        }
        Ended::Unwritten(error) => (report_unwritten(err, name, out, error), false),
    }
}

/// Reports that a text can't be written, or that the file for it can't be created. Reports nothing if the reader of the
/// text closed the pipe. Returns the exit status.
pub fn report_unwritten<O: Output, E: Messages>(
    err: &mut E,
    name: &str,
    out: &O,
    error: io::Error,
) -> u8
    ensures reports { Reports E.sends err.old (write_failures name.now (O.uncreated out.now) error) err.new }
    ensures status { result ≡ status_of (write_failures name.now (O.uncreated out.now) error) }
{
    match out.uncreated_file() {
        Some(path) => {
            report(err, path, &Cause::System(error));
            FAILED
        }
        None => report_failed_write(err, name, error),
    }
}

/// Reports that a text can't be written to a created file or to standard output, unless its reader closed the pipe.
/// Returns the exit status.
fn report_failed_write<E: Messages>(err: &mut E, name: &str, error: io::Error) -> u8
    ensures reports { Reports E.sends err.old (write_failures name.now None error) err.new }
    ensures status { result ≡ status_of (write_failures name.now None error) }
{
    if is_closed_pipe(&error) {
        return PRINTED;
    }
    report(err, name, &Cause::Output(error));
    FAILED
}

/// Prints a file, and returns the writer.
fn print_file<I: Inputs, O: Output>(
    inputs: &mut I,
    alloc: Global,
    style: Style<'_>,
    file: &str,
    out: O,
) -> (Ended, O)
    ensures { EndsAs (printing (between (Reads I.reads I.reads_input) inputs.old inputs.new) (style_choice style.entry)
        (writer O.takes O.flushes O.uncreated)) out file.now result.0 result.1 }
{
    match read(inputs, file) {
        Ok(wasm) => print_module(alloc, style, &wasm, out),
        Err(error) => (Ended::Refused(Cause::System(error)), out),
    }
}

/// Returns the bytes of a file, or of standard input.
fn read<I: Inputs>(inputs: &mut I, file: &str) -> io::Result<Vec<u8>>
    ensures { MatchResult result
        (λ bytes. Reads I.reads I.reads_input inputs.old file.now (Ok bytes.items) inputs.new)
        (λ error. Reads I.reads I.reads_input inputs.old file.now (Err error) inputs.new) }
{
    if file == STANDARD_INPUT {
        inputs.read_input()
    } else {
        inputs.read_file(file)
    }
}

/// Prints a module, and returns the writer.
fn print_module<O: Output>(alloc: Global, style: Style<'_>, wasm: &[u8], out: O) -> (Ended, O)
    ensures { EndsAs (printing (Returns wasm.now) (style_choice style.entry) (writer O.takes O.flushes O.uncreated)) out [] result.0 result.1 }
{
    match style.form {
        Form::Plain => print_plain(alloc, style.options.config, wasm, out),
        Form::InColors => print_colored(alloc, style.options.config, wasm, out),
        Form::Part(part) => print_part(alloc, style.options, wasm, part, out),
    }
}

/// Prints a module without ANSI escape sequences, while its text is made. Returns the writer.
fn print_plain<O: Output>(alloc: Global, config: &Config, wasm: &[u8], out: O) -> (Ended, O)
    ensures { EndsAs (printing (Returns wasm.now) (choice config.now Plain) (writer O.takes O.flushes O.uncreated)) out [] result.0 result.1 }
{
    let mut printer = PrintOutput(out);
    let printed = config.print(alloc, wasm, &mut printer);
    finish(printed, printer.0)
}

/// Prints a module with ANSI escape sequences. The text is complete before it is written. Returns the writer.
fn print_colored<O: Output>(alloc: Global, config: &Config, wasm: &[u8], out: O) -> (Ended, O)
    ensures { EndsAs (printing (Returns wasm.now) (choice config.now InColors) (writer O.takes O.flushes O.uncreated)) out [] result.0 result.1 }
{
    let mut out = out;
    match config.print_to_ansi(alloc, wasm) {
        Ok(text) => match out.write_bytes(&text) {
            Ok(()) => finish(Ok(()), out),
            Err(error) => (Ended::Unwritten(error), out),
        },
        Err(error) => (Ended::Refused(Cause::Module(error)), out),
    }
}

/// Prints a part of a module's text, or what no text shows. It is complete before it is written. Returns the writer.
fn print_part<O: Output>(
    alloc: Global,
    options: TextOptions<'_>,
    wasm: &[u8],
    part: Part<'_>,
    out: O,
) -> (Ended, O)
    ensures { EndsAs (printing (Returns wasm.now) (choice options.entry.config.now (PartForm (part_view part.entry))) (writer O.takes O.flushes O.uncreated)) out [] result.0 result.1 }
{
    let mut out = out;
    match text_of_part(alloc, options, wasm, part) {
        Ok(text) => match out.write_bytes(text.as_bytes()) {
            Ok(()) => finish(Ok(()), out),
            Err(error) => (Ended::Unwritten(error), out),
        },
        Err(cause) => (Ended::Refused(cause), out),
    }
}

/// Flushes a writer if the text was written to it. Returns how printing ended, and the writer.
fn finish<O: Output>(written: Result<(), Error>, out: O) -> (Ended, O)
    ensures { EndsBy (writer O.takes O.flushes O.uncreated) out written result.0 result.1 }
{
    let mut out = out;
    match written {
        Ok(()) => match out.finish() {
            Ok(()) => (Ended::Printed, out),
            Err(error) => (Ended::Unwritten(error), out),
        },
        Err(Error::Printer(error)) => (Ended::Unwritten(error), out),
        Err(error) => (Ended::Refused(Cause::Module(error)), out),
    }
}
