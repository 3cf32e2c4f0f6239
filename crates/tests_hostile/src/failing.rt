//! Printers that fail at each of their calls in turn: the printer's error is returned, no call follows, and the
//! calls before it are a prefix of those on a printer that does not fail. Calls that ask for a claim fail too.

use crate::examples::{EXAMPLES, Example};
use crate::layout::{KINDS, LAYOUTS, Layout};
use std::alloc::Global;
use std::io::ErrorKind;
use std::test::Fail;
use wasmprinter::Error;
use wasmprinter_expecting::{expect_recorded, expect_same, print_to};
use wasmprinter_samples::{REFUSED, Recorder};

/// The failure of a test at a call of a run.
#[derive(Debug, Drop)]
struct Failure {
    example: &'static str,
    layout: Layout,
    /// The number of the call that fails, from 1, or 0 if no call fails.
    call: u32,
    reason: &'static str,
}

/// An example that is printed in a layout.
#[derive(Clone, Copy)]
struct Run<'a> {
    alloc: Global,
    example: &'a Example,
    layout: Layout,
}

/// The start of a call that asks whether the printer claims a custom section.
const CLAIM_START: &str = "{? ";

/// The end of a call that asks for a claim. No other call ends with it.
const CLAIM_END: &str = "]}";

impl Run<'_> {
    /// Prints the example to a recorder.
    fn print(&self, recorder: &mut Recorder) -> Result<(), Error> {
        let config = self.layout.config();
        print_to(&config, self.alloc, self.example.wasm, recorder)
    }

    /// Checks all calls on a printer that never fails, and returns the number of calls that can fail.
    fn check_whole(&self, mut recorder: Recorder) -> Result<u32, Fail> {
        let result = self.print(&mut recorder);
        if !self.example.ending.is_of(&result) {
            return Err(self.fail_at(0, "another ending"));
        }
        let wanted = self.example.calls(self.layout);
        expect_recorded(self.example.name, &recorder, wanted)?;
        if recorder.faults() != 0 {
            return Err(self.fail_at(0, "a call failed"));
        }
        Ok(recorder.call_count())
    }

    /// Checks that printing ends at the call with this number, which fails, and returns the calls up to and
    /// including that call.
    fn calls_until(&self, call: u32, kind: ErrorKind) -> Result<String, Fail> {
        let mut recorder = Recorder::with_refusal(self.alloc, call, kind);
        let result = self.print(&mut recorder);
        if !matches!(result, Err(Error::Printer(e)) if e.kind() == kind) {
            return Err(self.fail_at(call, "another result"));
        }
        if recorder.faults() != 1 || recorder.call_count() != call || !recorder.is_complete() {
            return Err(self.fail_at(call, "another number of calls"));
        }
        match recorder.calls().strip_suffix(REFUSED) {
            Some(calls) => Ok(String::from_str(self.alloc, calls)?),
            None => Err(self.fail_at(call, "another last call")),
        }
    }

    /// Checks that the calls up to the one with this number, which fails, are a prefix of all calls. Returns whether
    /// that call asks for a claim.
    fn check_until(&self, call: u32, kind: ErrorKind) -> Result<bool, Fail> {
        let calls = self.calls_until(call, kind)?;
        if !self.example.calls(self.layout).starts_with(calls.as_str()) {
            return Err(self.fail_at(call, "other calls before it"));
        }
        Ok(calls.ends_with(CLAIM_END))
    }

    /// Checks that printing ends at each call up to this last one if that call fails. Returns the number of calls that
    /// ask for a claim.
    fn check_calls(&self, last: u32, kind: ErrorKind) -> Result<usize, Fail> {
        let mut claims: usize = 0;
        for call in 1..=last {
            if self.check_until(call, kind)? {
                claims = claims.saturating_add(1);
            }
        }
        Ok(claims)
    }

    /// Checks that all calls precede the last one if that call fails, and that printing is complete if only a call
    /// after the last one would fail.
    fn check_last(&self, last: u32, kind: ErrorKind) -> Result<(), Fail> {
        let whole = self.calls_until(last, kind)?;
        let wanted = self.example.calls(self.layout);
        expect_same(self.example.name, whole.as_str(), wanted)?;
        let after_last = last.saturating_add(1);
        self.check_whole(Recorder::with_refusal(self.alloc, after_last, kind))?;
        Ok(())
    }

    /// Checks that printing ends at each call that fails, each claim among them, and that it is complete if only a
    /// call after the last one would fail.
    fn check_each_call(&self, kind: ErrorKind) -> Result<(), Fail> {
        let last = self.check_whole(Recorder::new(self.alloc))?;
        let claims = self.check_calls(last, kind)?;
        let wanted = self.example.calls(self.layout);
        if claims != wanted.matches(CLAIM_START).count() {
            return Err(self.fail_at(0, "another number of claims that fail"));
        }
        self.check_last(last, kind)
    }

    fn fail_at(&self, call: u32, reason: &'static str) -> Fail {
        Fail::from(Failure {
            example: self.example.name,
            layout: self.layout,
            call,
            reason,
        })
    }
}

/// Checks these examples in a layout, with calls that fail with an error of this kind.
fn check_examples(
    alloc: Global,
    examples: &[Example],
    layout: Layout,
    kind: ErrorKind,
) -> Result<(), Fail> {
    for example in examples {
        let run = Run {
            alloc,
            example,
            layout,
        };
        run.check_each_call(kind)?;
    }
    Ok(())
}

/// Checks each example in these layouts, with calls that fail with errors of these kinds.
fn check_all(alloc: Global, layouts: &[Layout], kinds: &[ErrorKind]) -> Result<(), Fail> {
    for layout in layouts {
        for kind in kinds {
            check_examples(alloc, EXAMPLES, *layout, *kind)?;
        }
    }
    Ok(())
}

#[test]
fn stops_at_the_call_that_fails_and_returns_its_error(rt: HostRuntime) -> Result<(), Fail> {
    check_all(rt.alloc(), LAYOUTS, KINDS)
}
