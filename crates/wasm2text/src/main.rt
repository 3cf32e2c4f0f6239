//! The program `wasm2text [OPTIONS] [FILE...]`, which prints WebAssembly modules as text.
#![tactic(auto)]

#[cfg(test)]
mod call_tests;
mod cause;
mod code_section;
mod decoded;
mod escaped;
mod excerpt;
#[cfg(test)]
mod excerpt_tests;
mod form;
mod function_ref;
mod function_search;
#[cfg(test)]
mod function_tests;
mod function_text;
mod help;
#[cfg(test)]
mod hidden_tests;
mod hidden_text;
mod line_search;
mod messages;
mod misuse;
mod offset;
mod options;
mod output;
#[cfg(test)]
mod output_file_tests;
mod parser;
mod part;
mod printing;
mod program;
#[cfg(test)]
mod program_tests;
mod request;
mod status;
mod system;
mod target;
mod text_options;

use program::{BUFFER_LEN, run};
use status::FAILED;
use std::env::VarError;
use std::io::{BufWriter, ErrorKind, IsTerminal};
use std::process::ExitCode;
use std::{env, io};
use system::Host;

fn main(rt: HostRuntime) -> ExitCode {
    let status = match start(&rt) {
        Ok(status) => status,
        Err(error) => {
            let cause = match error.kind() {
                ErrorKind::InvalidData => "an argument is not UTF-8",
                ErrorKind::OutOfMemory => "out of memory",
                _ => "the arguments can't be read",
            };
            let _ = eprintln!(rt; "wasm2text: {cause}");
            FAILED
        }
    };
    ExitCode::from(status)
}

/// Runs the program on the system, and returns the exit status.
fn start(rt: &HostRuntime) -> io::Result<u8> {
    let words = env::args(rt)?.skip(1).collect::<Vec<String>>(rt.alloc())?;
    let out = BufWriter::with_capacity(rt.alloc(), BUFFER_LEN, rt.stdout())?;
    let shows_colors = shows_colors(rt);
    let (status, _, _) = run(
        &mut Host(rt),
        Host(rt),
        rt.alloc(),
        &words,
        shows_colors,
        out,
        &mut rt.stderr(),
    );
    Ok(status)
}

/// Returns whether standard output is a terminal and `NO_COLOR` is unset or empty.
fn shows_colors(rt: &HostRuntime) -> bool {
    let is_unset = match env::var(rt, "NO_COLOR") {
        Ok(value) => value.is_empty(),
        Err(VarError::NotPresent) => true,
        Err(_) => false,
    };
    is_unset && rt.stdout().is_terminal()
}
