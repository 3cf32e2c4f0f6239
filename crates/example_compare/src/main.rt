//! `example_compare FILE FILE` compares the texts of two modules. It prints the first line that differs, with the start
//! of the field to which the line belongs, such as a function or a data segment. Its exit status is that of `cmp`: 0 if
//! the texts are equal, 1 if they differ, 2 after an error.
//!
//! `run` does the work. It reads from any [`Source`] and prints nothing, so its contract can say which texts it compares,
//! and tests can run it over files in memory. `main` and `start` do the rest: arguments, output and exit status.
#![tactic(auto)]

ghost use Rattle.std.specs.Prelude.{◌≡◌, IfOk, IfErr, map, string_bytes};
ghost use Rattle.example_compare.specs.Outcome.{status_of, Compares, IsRefused, IsFailureOf};
ghost use Rattle.wasmprinter.specs.TextOfFile.{IsTextOfFile};

mod difference;
#[cfg(test)]
mod tests;

use difference::first_difference;
use std::alloc::Global;
use std::path::Path;
use std::process::ExitCode;
use std::{env, fmt, io};
use wasmprinter::{Error, Source, print_file};

/// The exit status if the texts are equal.
const EQUAL: u8 = 0;

/// The exit status if the texts differ.
const DIFFERENT: u8 = 1;

/// The exit status after any failure.
const FAILED: u8 = 2;

/// A reason why nothing is compared. Its `Display` text is the line for standard error.
#[derive(Debug, Drop)]
enum Failure<'a> {
    /// The arguments do not name exactly two files.
    Usage,
    /// A file can't be read, or its module can't be printed.
    Refused { file: &'a str, error: Error },
    /// An allocation failed after both modules were printed.
    Memory,
}

fn main(rt: HostRuntime) -> ExitCode {
    let status = start(&rt).unwrap_or_else(|error| {
        let _ = eprintln!(rt; "error: {error}");
        FAILED
    });
    ExitCode::from(status)
}

/// Prints the difference, or the line of a failure, and returns the exit status. An error of reading the arguments or
/// of writing the difference is returned.
fn start(rt: &HostRuntime) -> io::Result<u8> {
    let words: Vec<String> = env::args(rt)?.skip(1).collect(rt.alloc())?;
    let outcome = run(rt, rt.alloc(), &words);
    match &outcome {
        Ok(None) => {}
        Ok(Some(difference)) => print!(rt; "{difference}")?,
        Err(failure) => {
            let _ = eprintln!(rt; "{failure}");
        }
    }
    Ok(status_of(&outcome))
}

/// Returns the exit status for what a run returned.
fn status_of(outcome: &Result<Option<String>, Failure<'_>>) -> u8
    ensures { result ≡ status_of outcome.now }
{
    match outcome {
        Ok(None) => EQUAL,
        Ok(Some(_)) => DIFFERENT,
        Err(_) => FAILED,
    }
}

/// Compares the texts of the modules in the two files that the words name. Returns the lines that show the first
/// difference, or `None` if the texts are equal.
fn run<'a, S: Source>(
    source: &S,
    alloc: Global,
    words: &'a [String],
) -> Result<Option<String>, Failure<'a>>
    ensures compared { IfOk result (Compares (S.may_read source.now) (map string_bytes words.now)) }
    ensures failed { IfErr result (IsFailureOf (S.may_read source.now) (map string_bytes words.now)) }
{
    let [left, right] = words else {
        return Err(Failure::Usage);
    };
    let left = text_of(source, alloc, left.as_str())?;
    let right = text_of(source, alloc, right.as_str())?;
    match first_difference(left.as_str(), right.as_str()) {
        None => Ok(None),
        Some(difference) => match difference.to_string(alloc) {
            Ok(lines) => Ok(Some(lines)),
            Err(_) => Err(Failure::Memory),
        },
    }
}

/// Returns the text of the module in a file.
fn text_of<'a, S: Source>(source: &S, alloc: Global, file: &'a str) -> Result<String, Failure<'a>>
    ensures printed { IfOk result (λ text.
        IsTextOfFile (S.may_read source.now file.entry.now) (string_bytes text)) }
    ensures refused { IfErr result (IsRefused (S.may_read source.now) file.entry.now) }
{
    print_file(source, alloc, Path::new(file)).map_err(|error| Failure::Refused { file, error })
}

impl fmt::Display for Failure<'_> {
    fn fmt<W: fmt::Write>(&self, f: &mut fmt::Formatter<W>) -> fmt::Result {
        match self {
            Failure::Usage => f.write_str("usage: example_compare FILE FILE"),
            Failure::Refused { file, error } => write!(f, "error: {file}: {error}"),
            Failure::Memory => f.write_str("error: out of memory"),
        }
    }
}
