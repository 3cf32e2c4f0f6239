//! The program's behavior for its words, generic over the files and the writers.
ghost use Rattle.std.specs.Prelude.{◌≡◌, ◌⊎◌, List, Some, None, map, string_bytes, Result, Err, IfOk, IfErr, MatchResult, option_copied};
ghost use Rattle.wasm2text.specs.Messages.{Failure};
ghost use Rattle.wasm2text.specs.Arguments.{with_input};
ghost use Rattle.wasm2text.specs.Parsing.{request_read, options_read};
ghost use Rattle.wasm2text.specs.Outcome.{Serves, Performs, own_text, refusal_line, PrintsToFile, series, style_choice, Reads, writer, WritesText, Delivers, StaysBehind, Reports, status_of, misuse_status, HasOutcome};

use crate::help::{HELP, VERSION};
use crate::messages::{Messages, report_misuse};
use crate::misuse::ArgumentError;
use crate::output::{Output, OutputFile};
use crate::parser::parse;
use crate::printing::{Style, print_files, report_unwritten};
use crate::request::Request;
use crate::status::{FAILED, MISUSED, PRINTED};
use crate::system::{Inputs, Outputs};
use crate::text_options::TextOptions;
use std::alloc::{AllocError, Global};
use std::io;
use wasmprinter::Config;

/// The number of bytes that are written together.
pub const BUFFER_LEN: usize = 65536;

/// The name of standard output in messages.
const STANDARD_OUTPUT: &str = "standard output";

/// The message after a failed allocation.
const OUT_OF_MEMORY: &str = "wasm2text: out of memory\n";

/// Runs the program with its words, without the program's name. Returns the exit status, the writer to standard output,
/// and the creator of files.
///
/// The status is 0 if everything was printed or the reader of the text closed the pipe, 1 if a file was not printed or
/// an allocation failed, and 2 if the command line is wrong.
pub fn run<I, C, F, O, E>(
    inputs: &mut I,
    outputs: C,
    alloc: Global,
    words: &[String],
    shows_colors: bool,
    out: O,
    err: &mut E,
) -> (u8, O, C)
where
    I: Inputs,
    C: Outputs<F> + Drop,
    F: Output + Drop,
    O: Output + Drop,
    E: Messages,
    ensures { HasOutcome
        (record {
          reads = I.reads;
          reads_input = I.reads_input;
          creates = C.creates;
          closes = C.closes;
          out = writer O.takes O.flushes O.uncreated;
          file = writer F.takes F.flushes F.uncreated;
          sends = E.sends;
        })
        (map string_bytes words.now)
        (record {
          shows_colors = shows_colors;
          inputs_old = inputs.old;
          inputs_new = inputs.new;
          outputs_old = outputs;
          outputs_new = result.2;
          old = out;
          new = result.1;
          err_old = err.old;
          err_new = err.new;
          status = result.0;
        }) }
{
    match parse(alloc, words) {
        Ok(request) => perform(inputs, outputs, alloc, request, shows_colors, out, err),
        Err(error) => (refuse(err, &error), out, outputs),
    }
}

/// Does what a request asks for, or reports that an allocation failed. Returns the exit status, the writer to standard
/// output, and the creator of files.
fn perform<I, C, F, O, E>(
    inputs: &mut I,
    outputs: C,
    alloc: Global,
    request: Request<'_>,
    shows_colors: bool,
    out: O,
    err: &mut E,
) -> (u8, O, C)
where
    I: Inputs,
    C: Outputs<F> + Drop,
    F: Output + Drop,
    O: Output + Drop,
    E: Messages,
    ensures { Performs
        (record {
          reads = I.reads;
          reads_input = I.reads_input;
          creates = C.creates;
          closes = C.closes;
          out = writer O.takes O.flushes O.uncreated;
          file = writer F.takes F.flushes F.uncreated;
          sends = E.sends;
        })
        (with_input (request_read request.entry))
        (record {
          shows_colors = shows_colors;
          inputs_old = inputs.old;
          inputs_new = inputs.new;
          outputs_old = outputs;
          outputs_new = result.2;
          old = out;
          new = result.1;
          err_old = err.old;
          err_new = err.new;
          status = result.0;
        }) }
{
    match own_text(&request) {
        Some(text) => {
            let (status, out) = write_text(text, out, err);
            (status, out, outputs)
        }
        None => print_request(inputs, outputs, alloc, request, shows_colors, out, err),
    }
}

/// Returns the help or the version, if a request asks for it.
fn own_text(request: &Request<'_>) -> Option<&'static str>
    ensures { option_copied result ≡ own_text (request_read request.now) }
{
    if request.help {
        return Some(HELP);
    }
    if request.version {
        return Some(VERSION);
    }
    None
}

/// Prints the files of a request, or reports that an allocation failed. Returns the exit status, the writer to standard
/// output, and the creator of files.
fn print_request<I, C, F, O, E>(
    inputs: &mut I,
    outputs: C,
    alloc: Global,
    request: Request<'_>,
    shows_colors: bool,
    out: O,
    err: &mut E,
) -> (u8, O, C)
where
    I: Inputs,
    C: Outputs<F> + Drop,
    F: Output + Drop,
    O: Output + Drop,
    E: Messages,
    ensures { own_text (request_read request.entry) ≡ None → Performs
        (record {
          reads = I.reads;
          reads_input = I.reads_input;
          creates = C.creates;
          closes = C.closes;
          out = writer O.takes O.flushes O.uncreated;
          file = writer F.takes F.flushes F.uncreated;
          sends = E.sends;
        })
        (with_input (request_read request.entry))
        (record {
          shows_colors = shows_colors;
          inputs_old = inputs.old;
          inputs_new = inputs.new;
          outputs_old = outputs;
          outputs_new = result.2;
          old = out;
          new = result.1;
          err_old = err.old;
          err_new = err.new;
          status = result.0;
        }) }
{
    match complete(alloc, request) {
        Ok(completed) => print_completed(
            inputs,
            outputs,
            alloc,
            &completed.0,
            TextOptions {
                config: &completed.1,
                synthesizes: completed.0.name_unnamed,
            },
            shows_colors,
            out,
            err,
        ),
        Err(_) => (refuse(err, &ArgumentError::Memory), out, outputs),
    }
}

/// Adds standard input to a request without files. Returns the request, and the options of printing.
fn complete<'a>(alloc: Global, request: Request<'a>) -> Result<(Request<'a>, Config), AllocError>
    ensures { IfOk result (λ r. (request_read r.0 ≡ with_input (request_read request.entry)) × (r.1 ≡ options_read r.0)) }
{
    let mut request = request;
    request.add_input()?;
    let config = request.config(alloc)?;
    Ok((request, config))
}

/// Prints the files of a request to standard output or to a file. Returns the exit status, the writer to standard
/// output, and the creator of files.
fn print_completed<I, C, F, O, E>(
    inputs: &mut I,
    outputs: C,
    alloc: Global,
    request: &Request<'_>,
    options: TextOptions<'_>,
    shows_colors: bool,
    out: O,
    err: &mut E,
) -> (u8, O, C)
where
    I: Inputs,
    C: Outputs<F> + Drop,
    F: Output + Drop,
    O: Output + Drop,
    E: Messages,
    ensures { options.entry.config.now ≡ options_read request.now → own_text (request_read request.now) ≡ None → Serves
        (record {
          reads = I.reads;
          reads_input = I.reads_input;
          creates = C.creates;
          closes = C.closes;
          out = writer O.takes O.flushes O.uncreated;
          file = writer F.takes F.flushes F.uncreated;
          sends = E.sends;
        })
        (request_read request.now)
        (record {
          shows_colors = shows_colors;
          inputs_old = inputs.old;
          inputs_new = inputs.new;
          outputs_old = outputs;
          outputs_new = result.2;
          old = out;
          new = result.1;
          err_old = err.old;
          err_new = err.new;
          status = result.0;
        }) }
{
    let style = Style {
        options,
        form: request.form(shows_colors),
    };
    let files = &request.files;
    match request.output {
        None => {
            let (status, out) = print_files(inputs, alloc, style, files, out, err);
            (status, out, outputs)
        }
        Some(path) => {
            let (status, outputs) = print_to_file(inputs, outputs, alloc, style, files, path, err);
            (status, out, outputs)
        }
    }
}

/// Prints files to a file, which is created when the first byte is written. Returns the exit status, and the creator of
/// files.
fn print_to_file<I, C, F, E>(
    inputs: &mut I,
    outputs: C,
    alloc: Global,
    style: Style<'_>,
    files: &[&str],
    path: &str,
    err: &mut E,
) -> (u8, C)
where
    I: Inputs,
    C: Outputs<F> + Drop,
    F: Output + Drop,
    E: Messages,
    ensures { (failures : List Failure)
        × PrintsToFile (Reads I.reads I.reads_input) (style_choice style.entry) C.creates C.closes
        (writer F.takes F.flushes F.uncreated) path.now inputs.old outputs (map (λ f. f.now) files.now) failures inputs.new result.1
        × Reports E.sends err.old failures err.new × (result.0 ≡ status_of failures) }
{
    let file = OutputFile {
        outputs,
        path,
        file: None,
    };
    let (status, file) = print_files(inputs, alloc, style, files, file, err);
    (status, file.close())
}

/// Reports an error of the command line, and returns the exit status.
fn refuse<E: Messages>(err: &mut E, error: &ArgumentError<'_>) -> u8
    ensures reports { E.sends err.old (Some (refusal_line error.now)) err.new }
    ensures status { result ≡ misuse_status error.now }
{
    match error {
        ArgumentError::Memory => {
            err.send(OUT_OF_MEMORY);
            FAILED
        }
        _ => {
            report_misuse(err, error);
            MISUSED
        }
    }
}

/// Writes a text of the program's own. Returns the exit status and the writer.
fn write_text<O: Output + Drop, E: Messages>(text: &str, out: O, err: &mut E) -> (u8, O)
    ensures { (failures : List Failure) × WritesText (writer O.takes O.flushes O.uncreated) out text.now failures result.1
        × Reports E.sends err.old failures err.new × (result.0 ≡ status_of failures) }
{
    let mut out = out;
    match write_and_finish(text, &mut out) {
        Ok(()) => (PRINTED, out),
        Err(error) => {
            let status = report_unwritten(err, STANDARD_OUTPUT, &out, error);
            (status, out)
        }
    }
}

/// Writes a text, and flushes the writer.
fn write_and_finish<O: Output>(text: &str, out: &mut O) -> io::Result<()>
    ensures { MatchResult result
        (λ _. Delivers (writer O.takes O.flushes O.uncreated) out.old text.now out.new)
        (λ error. O.takes out.old text.now (Err error) out.new ⊎ StaysBehind (writer O.takes O.flushes O.uncreated) out.old text.now error out.new) }
{
    match out.write_bytes(text.as_bytes()) {
        Ok(()) => out.finish(),
        Err(error) => Err(error),
    }
}
