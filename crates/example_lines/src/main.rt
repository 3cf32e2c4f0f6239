//! `example_lines FILE OFFSET` is a source map: it prints the line of a module's text that shows the byte at an offset,
//! in decimal or, after `0x`, in hexadecimal. `example_lines FILE line:NUMBER` maps the other way. Both print the number
//! of the line, the byte offset at which it starts, and its text.
//!
//! `run` does the work. It reads from any [`Source`] and prints nothing, so its contract can say which answer it returns,
//! and tests can run it over files in memory. `main` and `start` do the rest: arguments, output and exit status.
#![tactic(auto)]

ghost use Rattle.std.specs.Prelude.{◌≡◌, IfOk, IfErr, map, option_map, string_bytes};
ghost use Rattle.wasmprinter_spec.specs.Options.{defaults};
ghost use Rattle.wasmprinter.specs.TextOfFile.{IsRefusedBy, AreRefused};
ghost use Rattle.example_lines.specs.Status.{status_of};
ghost use Rattle.example_lines.specs.Outcome.{answer_text, AnswersQuery, AnswersFromFile};
ghost use Rattle.example_lines.specs.Outcome.{GivesAnswer, IsFailureOf};

mod line_search;
mod query;
#[cfg(test)]
mod tests;

use line_search::{Line, find};
use query::Query;
use std::alloc::{AllocError, Global};
use std::path::Path;
use std::process::ExitCode;
use std::{env, fmt, io};
use wasmprinter::{Config, Error, Source};

/// The exit status if there is no such line, the file can't be read, its module can't be printed, or the system reports
/// another error.
const FAILED: u8 = 1;

/// The exit status if the arguments do not match the usage line.
const MISUSED: u8 = 2;

/// A reason why there is no answer. Its `Display` text is the line for standard error.
#[derive(Debug, Drop)]
enum Failure {
    /// The arguments do not match the usage line.
    Usage,
    /// The module has no such byte, or its text has no such line.
    Outside(Query),
    /// The file can't be read, or its module can't be printed.
    Refused(Error),
}

fn main(rt: HostRuntime) -> ExitCode {
    let status = start(&rt).unwrap_or_else(|error| {
        let _ = eprintln!(rt; "error: {error}");
        FAILED
    });
    ExitCode::from(status)
}

/// Prints the answer, or the line of a failure, and returns the exit status. An error of reading the arguments or of
/// writing the answer is returned.
fn start(rt: &HostRuntime) -> io::Result<u8> {
    let words: Vec<String> = env::args(rt)?.skip(1).collect(rt.alloc())?;
    match run(rt, rt.alloc(), &words) {
        Ok(answer) => {
            println!(rt; "{answer}")?;
            Ok(0)
        }
        Err(failure) => {
            let _ = eprintln!(rt; "{failure}");
            Ok(failure.status())
        }
    }
}

/// Returns the answer to the words, which name a file, and a byte of its module or a line of its text.
fn run<S: Source>(source: &S, alloc: Global, words: &[String]) -> Result<String, Failure>
    ensures answered { IfOk result (λ answer.
        GivesAnswer (S.may_read source.now) (map string_bytes words.now) (string_bytes answer)) }
    ensures failed { IfErr result (IsFailureOf (S.may_read source.now) (map string_bytes words.now)) }
{
    let [file, word] = words else {
        return Err(Failure::Usage);
    };
    let query = Query::from_word(word.as_str()).ok_or(Failure::Usage)?;
    match answer(source, alloc, file.as_str(), query) {
        Ok(Some(answer)) => Ok(answer),
        Ok(None) => Err(Failure::Outside(query)),
        Err(error) => Err(Failure::Refused(error)),
    }
}

/// Returns the answer to a query about the module in a file, or `None` if the module has no such byte, or its text no
/// such line.
fn answer<S: Source>(
    source: &S,
    alloc: Global,
    file: &str,
    query: Query,
) -> Result<Option<String>, Error>
    ensures answered { IfOk result (λ answer.
        AnswersFromFile (S.may_read source.now file.entry.now) query (option_map string_bytes answer)) }
    ensures refused { IfErr result (IsRefusedBy defaults (S.may_read source.now file.entry.now)) }
{
    let wasm = source.read(Path::new(file)).map_err(|_| Error::Unreadable)?;
    answer_for_bytes(alloc, &wasm, query)
}

/// Returns the answer to a query about the module that the bytes encode, or `None` if the module has no such byte, or
/// its text no such line.
fn answer_for_bytes(alloc: Global, wasm: &[u8], query: Query) -> Result<Option<String>, Error>
    ensures answered { IfOk result (λ answer. AnswersQuery wasm.now query (option_map string_bytes answer)) }
    ensures refused { IfErr result (AreRefused defaults wasm.now) }
{
    let mut storage = String::new(alloc);
    let text = Config::new().offsets_and_lines(alloc, wasm, &mut storage)?;
    let lines: Vec<Line<'_>> = text.collect(alloc)?;
    match find(&lines, wasm.len(), query) {
        None => Ok(None),
        Some(index) => Ok(Some(describe(alloc, index + 1, lines[index])?)),
    }
}

/// Returns the answer that shows a line with this number, counted from 1.
fn describe(alloc: Global, number: usize, line: Line<'_>) -> Result<String, AllocError>
    ensures { IfOk result (λ answer. string_bytes answer ≡ answer_text number (line.entry.0, line.entry.1.now)) }
{
    let text = line.1.trim();
    match line.0 {
        Some(place) => format!(in alloc; "line {number} starts at byte 0x{place:x}: {text}"),
        None => format!(in alloc; "line {number} shows no byte: {text}"),
    }
}

impl Failure {
    /// Returns the exit status of the program.
    fn status(&self) -> u8
        ensures { result ≡ status_of self.now }
    {
        match self {
            Failure::Usage => MISUSED,
            _ => FAILED,
        }
    }
}

impl fmt::Display for Failure {
    fn fmt<W: fmt::Write>(&self, f: &mut fmt::Formatter<W>) -> fmt::Result {
        match self {
            Failure::Usage => f.write_str("usage: example_lines FILE (OFFSET | line:NUMBER)"),
            Failure::Outside(Query::Byte(offset)) => write!(
                f,
                "error: no line shows byte 0x{offset:x}"
            ),
            Failure::Outside(Query::Line(number)) => write!(
                f,
                "error: the text has no line {number}"
            ),
            Failure::Refused(error) => write!(f, "error: {error}"),
        }
    }
}
