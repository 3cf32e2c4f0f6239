//! A benchmark (docs/PERF.md, bench/run). It generates modules of one kind from a seed, prints each once through
//! the library's public calls, and writes the numbers of bytes read and written. The arguments are the kind, the
//! seed, and `small` for a hundredth of the size.
//!
//! The same arguments always give the same modules and the same line. The line contains a digest of all texts, so
//! that two builds of the library can be compared.
#![tactic(auto)]

mod body;
mod compiled;
mod debug;
mod digest;
mod draws;
mod encoder;
mod names;
mod printing;
mod proposals;

use printing::{Job, Scale};
use std::alloc::AllocError;
use std::process::ExitCode;
use std::{env, io};
use wasmprinter::Error;

/// The argument for a hundredth of the size.
const SMALL: &str = "small";

/// The job that the arguments select.
#[derive(Clone, Copy)]
struct Wanted {
    job: Job,
    seed: u32,
    scale: Scale,
}

/// Reads the arguments, without the program's name.
fn read_words(words: &[String]) -> Option<Wanted> {
    let job = Job::named(words.first()?.as_str())?;
    let seed = words.get(1)?.as_str().parse::<u32>().ok()?;
    let scale = match words.get(2) {
        None => Scale::Whole,
        Some(word) => {
            if word.as_str() != SMALL {
                return None;
            }
            Scale::Small
        }
    };
    Some(Wanted { job, seed, scale })
}

/// The reason why no line is written.
#[derive(Drop)]
enum Refusal {
    /// The arguments select no job.
    Words,
    /// An allocation or an output operation failed.
    System,
    /// The library refused a module.
    Library(Error),
}

impl From<io::Error> for Refusal {
    fn from(_: io::Error) -> Refusal {
        Refusal::System
    }
}

impl From<AllocError> for Refusal {
    fn from(_: AllocError) -> Refusal {
        Refusal::System
    }
}

impl From<Error> for Refusal {
    fn from(error: Error) -> Refusal {
        Refusal::Library(error)
    }
}

/// Runs the job that the arguments select, and writes the line.
fn run(rt: &HostRuntime) -> Result<(), Refusal> {
    let words = env::args(rt)?.skip(1).collect::<Vec<String>>(rt.alloc())?;
    let Some(wanted) = read_words(&words) else {
        return Err(Refusal::Words);
    };
    let total = wanted.job.run(rt.alloc(), wanted.seed, wanted.scale)?;
    println!(rt;
        "{} {}: {} modules of {} bytes, texts of {} bytes, digest {:016x}",
        wanted.job.word(),
        wanted.seed,
        total.modules,
        total.read,
        total.written,
        total.digest
    )?;
    Ok(())
}

fn main(rt: HostRuntime) -> ExitCode {
    match run(&rt) {
        Ok(()) => ExitCode::SUCCESS,
        Err(Refusal::Words) => ExitCode::from(2),
        Err(_) => ExitCode::FAILURE,
    }
}
