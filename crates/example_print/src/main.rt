//! `example_print FILE` prints the text of a module.
//!
//! `run` does the work. It reads from any [`Source`] and prints nothing, so its contract can say which text it returns,
//! and tests can run it over files in memory. `main` and `start` do the rest: arguments, output and exit status.
#![tactic(auto)]

ghost use Rattle.std.specs.Prelude.{◌≡◌, IfOk, IfErr, map, string_bytes};
ghost use Rattle.example_print.specs.Outcome.{status_of, GivesText, IsFailureOf};

#[cfg(test)]
mod tests;

use std::alloc::Global;
use std::path::Path;
use std::process::ExitCode;
use std::{env, fmt, io};
use wasmprinter::{Error, Source, print_file};

/// The exit status if the file can't be read, its module can't be printed, or the system reports another error.
const FAILED: u8 = 1;

/// The exit status if the arguments do not match the usage line.
const MISUSED: u8 = 2;

/// A reason why there is no text. Its `Display` text is the line for standard error.
#[derive(Debug, Drop)]
enum Failure {
    /// The arguments do not name exactly one file.
    Usage,
    /// The file can't be read, or its module can't be printed.
    Refused(Error),
}

fn main(rt: HostRuntime) -> ExitCode {
    let status = start(&rt).unwrap_or_else(|error| {
        let _ = eprintln!(rt; "error: {error}");
        FAILED
    });
    ExitCode::from(status)
}

/// Prints the text, or the line of a failure, and returns the exit status. An error of reading the arguments or of
/// writing the text is returned.
fn start(rt: &HostRuntime) -> io::Result<u8> {
    let words: Vec<String> = env::args(rt)?.skip(1).collect(rt.alloc())?;
    match run(rt, rt.alloc(), &words) {
        Ok(text) => {
            print!(rt; "{text}")?;
            Ok(0)
        }
        Err(failure) => {
            let _ = eprintln!(rt; "{failure}");
            Ok(failure.status())
        }
    }
}

/// Returns the text of the module in the file that the words name.
fn run<S: Source>(source: &S, alloc: Global, words: &[String]) -> Result<String, Failure>
    ensures printed { IfOk result (λ text.
        GivesText (S.may_read source.now) (map string_bytes words.now) (string_bytes text)) }
    ensures failed { IfErr result (IsFailureOf (S.may_read source.now) (map string_bytes words.now)) }
{
    let [file] = words else {
        return Err(Failure::Usage);
    };
    match print_file(source, alloc, Path::new(file.as_str())) {
        Ok(text) => Ok(text),
        Err(error) => Err(Failure::Refused(error)),
    }
}

impl Failure {
    /// Returns the exit status of the program.
    fn status(&self) -> u8
        ensures { result ≡ status_of self.now }
    {
        match self {
            Failure::Usage => MISUSED,
            Failure::Refused(_) => FAILED,
        }
    }
}

impl fmt::Display for Failure {
    fn fmt<W: fmt::Write>(&self, f: &mut fmt::Formatter<W>) -> fmt::Result {
        match self {
            Failure::Usage => f.write_str("usage: example_print FILE"),
            Failure::Refused(error) => write!(f, "error: {error}"),
        }
    }
}
