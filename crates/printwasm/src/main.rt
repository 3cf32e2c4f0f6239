//! The program `printwasm [--offsets] [--skeleton] [--name-unnamed] [--fold] [--color] FILE`, which prints a
//! WebAssembly module as text.
#![tactic(auto)]

#[cfg(test)]
mod error_line_tests;
mod error_lines;
mod program;
#[cfg(test)]
mod program_tests;
mod sink_trait;
#[cfg(test)]
mod source_sink_tests;

use error_lines::ByDisplay;
use program::launch;
use std::env;
use std::process::ExitCode;

fn main(rt: HostRuntime) -> ExitCode {
    launch(
        &rt,
        &ByDisplay,
        rt.alloc(),
        env::args(&rt),
        &mut rt.stdout(),
        &mut rt.stderr(),
    )
}
