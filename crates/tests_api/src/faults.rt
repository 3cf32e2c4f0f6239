//! Prints to a printer that counts its failed calls. After a module is printed, the count shows whether a call failed.
ghost use Rattle.std.specs.Prelude.{◌≡◌, OnOk, IfErr};
ghost use Rattle.tests_api.specs.Faults.{faults_after};

use std::alloc::Global;
#[cfg(test)]
use std::io::ErrorKind;
#[cfg(test)]
use std::test::Fail;
use wasmprinter::{Config, Error};
#[cfg(test)]
use wasmprinter_samples::IDENTITY;
use wasmprinter_samples::Recorder;

/// Prints a module. The recorder counts one more failed call if the error is `Printer`, and otherwise none. A
/// count of 2^64 - 1 does not increase.
pub fn print_counted(
    config: &Config,
    alloc: Global,
    wasm: &[u8],
    recorder: &mut Recorder,
) -> Result<(), Error>
    ensures printed { OnOk result (recorder.new ≡ recorder.old) }
    ensures refused { IfErr result (λ e. recorder.new ≡ faults_after e recorder.old) }
{
    config.print(alloc, wasm, recorder)
}

/// Reports whether printing with these options fails at the call with this number, returns that call's error, and
/// counts one failed call.
#[cfg(test)]
fn fails_once(config: &Config, alloc: Global, call: u32) -> bool {
    let mut recorder = Recorder::with_refusal(alloc, call, ErrorKind::BrokenPipe);
    let answer = print_counted(config, alloc, IDENTITY, &mut recorder);
    matches!(answer, Err(Error::Printer(e)) if e.kind() == ErrorKind::BrokenPipe)
        && recorder.call_count() == call
        && recorder.faults() == 1
}

#[test]
fn counts_a_failed_call(rt: HostRuntime) {
    let flat = Config::new();
    let mut folded = Config::new();
    folded.fold_instructions(true).print_offsets(true);
    for call in 1..10 {
        assert!(rt; fails_once(&flat, rt.alloc(), call));
        assert!(rt; fails_once(&folded, rt.alloc(), call));
    }
}

#[test]
fn counts_nothing_where_no_call_failed(rt: HostRuntime) -> Result<(), Fail> {
    let config = Config::new();
    let mut recorder = Recorder::new(rt.alloc());
    print_counted(&config, rt.alloc(), IDENTITY, &mut recorder)?;
    assert!(rt; recorder.call_count() > 0);
    assert!(rt; recorder.faults() == 0);
    let refused = print_counted(&config, rt.alloc(), &IDENTITY[..34], &mut recorder);
    assert!(rt; matches!(refused, Err(Error::Malformed { .. })));
    assert!(rt; recorder.faults() == 0);
    Ok(())
}
