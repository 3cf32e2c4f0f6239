//! Prints modules of every shape in different ways, and writes the result for each: `printed`, `out of memory`, or
//! something else. Standard input may select one shape, which is then printed before the empty module, or a name
//! that is written to a text.
//!
//! tools/failing_allocations.sh lets each allocation of this program fail in turn, and checks what the program
//! writes. The program's own allocations are the text to which lines are appended, and those that standard input
//! requests: they select which allocation of the library fails.
#![tactic(auto)]

mod comparing;
mod ending;
mod going_on;
mod modules;
mod naming;
mod printers;
mod shapes;
mod ways;
mod without_memory;

use ending::Ending;
use naming::{Form, Name};
use shapes::{SHAPES, Shape};
use std::alloc::{AllocError, Global};
use std::io;
use std::io::Read;
use std::process::ExitCode;
use ways::ending_of;

/// The number of digits of each number on standard input.
const DIGITS: usize = 4;

/// Reads the next number from standard input, if one follows.
fn next_number<R: Read>(input: &mut R) -> io::Result<Option<u32>> {
    let mut digits = [0; DIGITS];
    let len = input.read(&mut digits)?;
    let mut number: u32 = 0;
    for digit in digits.iter().take(len) {
        if digit.is_ascii_digit() {
            number = number
                .wrapping_mul(10)
                .wrapping_add(u32::from(digit.wrapping_sub(b'0')));
        }
    }
    Ok(if len == 0 { None } else { Some(number) })
}

/// The request that standard input makes.
#[derive(Drop)]
struct Wanted {
    /// The number of allocations to make first.
    requests: u32,
    /// The number of the only shape to print before the empty module, or `None` for all shapes.
    shape: Option<u32>,
    /// The name to write instead of the shapes, if there is one.
    name: Option<Name>,
}

/// Reads a name: the number of its form, the width of its characters, and the number of characters.
fn next_name<R: Read>(input: &mut R) -> io::Result<Option<Name>> {
    let Some(form) = next_number(input)? else {
        return Ok(None);
    };
    let width = next_number(input)?.unwrap_or(0);
    let chars = next_number(input)?.unwrap_or(0);
    Ok(Some(Name {
        form: Form::of(form),
        width: width as usize,
        chars: chars as usize,
    }))
}

impl Wanted {
    /// Reads the numbers of the request.
    fn read<R: Read>(input: &mut R) -> io::Result<Wanted> {
        let requests = next_number(input)?.unwrap_or(0);
        let shape = next_number(input)?;
        let name = next_name(input)?;
        Ok(Wanted {
            requests,
            shape,
            name,
        })
    }

    /// Returns whether the shape with this number is to be printed.
    fn has(&self, number: usize) -> bool {
        let is_last = number.saturating_add(1) == SHAPES.len();
        match self.shape {
            Some(shape) => shape as usize == number || is_last,
            None => true,
        }
    }
}

/// Makes one allocation.
fn request(alloc: Global) -> Result<(), AllocError> {
    let mut text = String::new(alloc);
    text.push_str("one")
}

/// Returns whether this many allocations succeeded.
fn are_granted(alloc: Global, count: u32) -> bool {
    for _ in 0..count {
        if request(alloc).is_err() {
            return false;
        }
    }
    true
}

/// Writes an ending, and returns its status.
fn report(rt: &HostRuntime, name: &str, ending: Ending) -> io::Result<u8> {
    match ending.printed_len() {
        Some(len) => println!(rt; "{}: {} after {} bytes", name, ending.word(), len)?,
        None => println!(rt; "{}: {}", name, ending.word())?,
    }
    Ok(ending.status())
}

/// Prints a shape, writes its ending, and returns the status of the ending.
fn print_shape(rt: &HostRuntime, shape: &Shape) -> io::Result<u8> {
    report(rt, shape.name, ending_of(rt, shape))
}

/// Prints what standard input requests, writes each ending, and returns the status of the worst ending.
fn print_all(rt: &HostRuntime) -> io::Result<u8> {
    let wanted = Wanted::read(&mut rt.stdin())?;
    if !are_granted(rt.alloc(), wanted.requests) {
        return Ok(Ending::Other("own request").status());
    }
    if let Some(name) = wanted.name {
        return report(rt, "name", name.ending(rt.alloc()));
    }
    let mut status = Ending::Printed.status();
    for (number, shape) in SHAPES.iter().enumerate() {
        if wanted.has(number) {
            status = status.max(print_shape(rt, shape)?);
        }
    }
    Ok(status)
}

fn main(rt: HostRuntime) -> ExitCode {
    match print_all(&rt) {
        Ok(status) => ExitCode::from(status),
        Err(_) => ExitCode::from(Ending::Other("no input or output").status()),
    }
}
