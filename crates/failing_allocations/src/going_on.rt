//! Trackers that are used after a failed allocation. A line feed that failed is written again, and the later
//! lines are recorded. The characters of a word before a failure are kept.

use crate::ending::Ending;
use std::alloc::Global;
use std::io;
use std::io::ErrorKind;
use wasmprinter::Print;
use wasmprinter_writers::{LineStart, LineTracker};

/// The number of lines that a tracker receives.
const LINES: usize = 24;

/// The characters of each line before its line feed.
const WORD: &str = "ab";

/// The texts before the first line. Their lengths differ, so that with one of them a line feed extends the text.
const BEGINNINGS: &[&str] = &["", "-", "--"];

/// What failed so far.
#[derive(Drop)]
struct Failures {
    /// The number of calls that failed.
    calls: usize,
    /// The number of the line whose word failed.
    line: Option<usize>,
    /// Whether a call failed with another error than `OutOfMemory`.
    is_other: bool,
}

impl Failures {
    /// Counts a call if it failed, and reports whether it did.
    fn count(&mut self, written: io::Result<()>) -> bool {
        let Err(error) = written else {
            return false;
        };
        self.calls = self.calls.saturating_add(1);
        self.is_other = self.is_other || error.kind() != ErrorKind::OutOfMemory;
        true
    }

    /// Returns the ending, without regard to the text.
    fn ending(&self) -> Ending {
        match self.calls {
            _ if self.is_other => Ending::Other("another error"),
            0 => Ending::Printed,
            1 => Ending::OutOfMemory,
            _ => Ending::Other("a call failed again"),
        }
    }
}

/// Writes a text, and writes it again if it failed. This function has no contract, so that the proofs of its callers do
/// not apply one to their own printers.
fn write_again<P: Print>(p: &mut P, text: &str, failures: &mut Failures) {
    let written = p.write_str(text);
    if failures.count(written) {
        let written = p.write_str(text);
        failures.count(written);
    }
}

/// Writes a line: the word, and a line feed, which is written again if it failed.
fn write_line<P: Print>(p: &mut P, line: usize, failures: &mut Failures) {
    p.start_line(Some(line as u64));
    let written = p.write_each_char(WORD);
    if failures.count(written) {
        failures.line = Some(line);
    }
    let fed = p.newline();
    if failures.count(fed) {
        let fed = p.newline();
        failures.count(fed);
    }
}

/// Writes this text and the lines.
fn write_lines<P: Print>(p: &mut P, beginning: &str, failures: &mut Failures) {
    write_again(p, beginning, failures);
    for line in 0..LINES {
        write_line(p, line, failures);
    }
}

/// Reports whether this is the text of a line: the word, or a proper prefix of it if the word failed, and a line feed.
fn is_line(text: &str, has_failed: bool) -> bool {
    match text.strip_suffix('\n') {
        Some(word) => WORD.starts_with(word) && (word != WORD) == has_failed,
        None => false,
    }
}

/// Reports whether the line with this number is recorded with its place and its text.
fn is_recorded(text: &str, starts: &[LineStart], line: usize, failures: &Failures) -> bool {
    let Some(start) = starts.get(line) else {
        return false;
    };
    let end = match starts.get(line.saturating_add(1)) {
        Some(next) => next.at,
        None => text.len(),
    };
    let has_failed = failures.line == Some(line);
    start.place == Some(line as u64)
        && matches!(text.get(start.at..end), Some(found) if is_line(found, has_failed))
}

/// Reports whether the text is the beginning and the lines, each of which is recorded.
fn are_recorded(beginning: &str, text: &str, starts: &[LineStart], failures: &Failures) -> bool {
    for line in 0..LINES {
        if !is_recorded(text, starts, line, failures) {
            return false;
        }
    }
    starts.len() == LINES
        && text.starts_with(beginning)
        && matches!(starts.first(), Some(first) if first.at == beginning.len())
}

/// Writes this text and the lines to a tracker, and returns the ending.
fn ending_after(alloc: Global, beginning: &str) -> Ending {
    let mut failures = Failures {
        calls: 0,
        line: None,
        is_other: false,
    };
    let mut tracker = LineTracker::new(alloc, String::new(alloc));
    write_lines(&mut tracker, beginning, &mut failures);
    let (text, starts) = tracker.finish();
    match starts {
        Ok(starts) => Ending::of(
            are_recorded(beginning, text.as_str(), &starts, &failures),
            "wrong lines",
        )
        .or(failures.ending()),
        Err(_) => Ending::Other("no lines"),
    }
}

/// Writes lines to trackers, and returns the worst ending.
pub fn by_trackers(alloc: Global) -> Ending {
    let mut ending = Ending::Printed;
    for beginning in BEGINNINGS {
        ending = ending.or(ending_after(alloc, beginning));
    }
    ending
}
