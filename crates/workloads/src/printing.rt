//! The jobs: the modules that are generated from the seed, and the call that prints them.

use crate::body::Nesting;
use crate::compiled::Plan;
use crate::digest::with_bytes;
use crate::draws::Draws;
use crate::encoder::Encoder;
use crate::names::Style;
use crate::{compiled, proposals};
use std::alloc::Global;
use wasmprinter::{Config, Error, print_bytes};

/// A job, one for each use of the library.
#[derive(Clone, Copy)]
pub enum Job {
    /// One large module like those of a compiler, as text.
    Flat,
    /// The same, with each operator in parentheses with its operands.
    Folded,
    /// Modules with debug information, printed as for a debugger: line by line, each with its place.
    Lines,
    /// An adversarial module: names that have to be quoted, many of them equal; names of all locals and labels;
    /// deeply nested blocks; long branch tables.
    Named,
    /// Many small modules with newer operators and types, in color, as in a test suite.
    Suite,
}

/// The amount that is printed.
#[derive(Clone, Copy)]
pub enum Scale {
    /// Enough for a measurement.
    Whole,
    /// A hundredth of it.
    Small,
}

/// The totals of a job.
#[derive(Clone, Copy)]
pub struct Total {
    /// The number of modules.
    pub modules: u32,
    /// The number of bytes of the modules.
    pub read: u64,
    /// The number of bytes of their texts.
    pub written: u64,
    /// The digest of the texts.
    pub digest: u64,
}

impl Total {
    /// Returns the totals before the first module.
    fn new() -> Total {
        Total {
            modules: 0,
            read: 0,
            written: 0,
            digest: 0,
        }
    }

    /// Returns the totals with one more module.
    fn with(self, module: &Encoder, text: &[u8]) -> Total {
        Total {
            modules: self.modules.saturating_add(1),
            read: self.read.saturating_add(module.len() as u64),
            written: self.written.saturating_add(text.len() as u64),
            digest: with_bytes(self.digest, text),
        }
    }
}

/// The number of modules that are printed in lines, each from a different seed.
const LISTINGS: u32 = 2;

/// The nesting of usual code.
const USUAL: Nesting = Nesting {
    depth: 10,
    labels: 12,
    share: 5,
};

/// The nesting of adversarial code.
const DEEP: Nesting = Nesting {
    depth: 60,
    labels: 120,
    share: 10,
};

impl Scale {
    /// Returns the count, or a hundredth of it.
    fn of(self, count: u32) -> u32 {
        match self {
            Scale::Whole => count,
            Scale::Small => count / 100,
        }
    }
}

impl Job {
    /// Returns the job with this name.
    pub fn named(word: &str) -> Option<Job> {
        match word {
            "flat" => Some(Job::Flat),
            "folded" => Some(Job::Folded),
            "lines" => Some(Job::Lines),
            "named" => Some(Job::Named),
            "suite" => Some(Job::Suite),
            _ => None,
        }
    }

    /// Returns the name of the job.
    pub fn word(self) -> &'static str {
        match self {
            Job::Flat => "flat",
            Job::Folded => "folded",
            Job::Lines => "lines",
            Job::Named => "named",
            Job::Suite => "suite",
        }
    }

    /// Returns the properties of the job's modules, if they are like those of a compiler.
    fn plan(self, scale: Scale) -> Plan {
        let usual = Plan {
            functions: scale.of(40_000),
            nesting: USUAL,
            style: Style::Mangled,
            names_all: false,
            debug: false,
        };
        match self {
            Job::Flat | Job::Suite => usual,
            Job::Folded => Plan {
                functions: scale.of(30_000),
                ..usual
            },
            Job::Lines => Plan {
                functions: scale.of(15_000),
                debug: true,
                ..usual
            },
            Job::Named => Plan {
                functions: scale.of(26_000),
                nesting: DEEP,
                style: Style::Readable,
                names_all: true,
                ..usual
            },
        }
    }

    /// Runs the job.
    pub fn run(self, alloc: Global, seed: u32, scale: Scale) -> Result<Total, Error> {
        let draws = Draws::new(u64::from(seed));
        let plan = self.plan(scale);
        match self {
            Job::Flat | Job::Named => print_flat(alloc, &compiled::module(alloc, draws, plan)?),
            Job::Folded => print_folded(alloc, &compiled::module(alloc, draws, plan)?),
            Job::Lines => print_listings(alloc, seed, plan),
            Job::Suite => print_suite(alloc, draws, scale.of(6_000)),
        }
    }
}

/// Prints a module as flat text.
fn print_flat(alloc: Global, module: &Encoder) -> Result<Total, Error> {
    let text = print_bytes(alloc, module.bytes())?;
    Ok(Total::new().with(module, text.as_bytes()))
}

/// Prints a module with its operators folded.
fn print_folded(alloc: Global, module: &Encoder) -> Result<Total, Error> {
    let mut config = Config::new();
    config.fold_instructions(true);
    let text = config.print_to_string(alloc, module.bytes())?;
    Ok(Total::new().with(module, text.as_bytes()))
}

/// Prints a module in lines, iterates over the lines, and adds the module to a total.
fn print_lines(alloc: Global, total: Total, module: &Encoder) -> Result<Total, Error> {
    let mut text = String::new(alloc);
    let mut places: u64 = 0;
    for (place, line) in Config::new().offsets_and_lines(alloc, module.bytes(), &mut text)? {
        places = places
            .wrapping_mul(31)
            .wrapping_add(place.unwrap_or(0))
            .wrapping_add(line.len() as u64);
    }
    let total = total.with(module, text.as_bytes());
    Ok(Total {
        digest: total.digest ^ places,
        ..total
    })
}

/// Prints several modules in lines. The first is generated from the seed alone.
fn print_listings(alloc: Global, seed: u32, plan: Plan) -> Result<Total, Error> {
    let mut total = Total::new();
    for number in 0..LISTINGS {
        let draws = Draws::new(u64::from(seed) | (u64::from(number) << 32));
        total = print_lines(alloc, total, &compiled::module(alloc, draws, plan)?)?;
    }
    Ok(total)
}

/// Prints this many small modules in color.
fn print_suite(alloc: Global, draws: Draws, count: u32) -> Result<Total, Error> {
    let mut draws = draws;
    let mut total = Total::new();
    for _ in 0..count {
        let module = proposals::module(alloc, &mut draws)?;
        let text = Config::new().print_to_ansi(alloc, module.bytes())?;
        total = total.with(&module, &text);
    }
    Ok(total)
}
