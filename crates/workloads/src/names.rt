//! Names like those of compilers: mangled names, which are identifiers in a text unchanged, and names that have to
//! be quoted there.

use crate::draws::Draws;
use crate::encoder::Encoder;
use itoa::Buffer;
use std::alloc::AllocError;

/// The words of which names consist.
const WORDS: [&str; 24] = [
    "core",
    "fmt",
    "alloc",
    "vec",
    "string",
    "iter",
    "map",
    "parse",
    "write",
    "read",
    "buffer",
    "hash",
    "next",
    "push",
    "drop",
    "index",
    "pad",
    "try",
    "slice",
    "option",
    "result",
    "panic",
    "deserialize",
    "into_boxed_slice",
];

/// The names of locals.
const LOCALS: [&str; 14] = [
    "self", "len", "ptr", "i", "cap", "out", "state", "value", "key", "sp", "tmp", "acc", "x y",
    "größe",
];

/// A bound that the number of bytes of a word never reaches.
const MOST_LEN: usize = 100;

/// A name that many functions of one module have.
const SHARED: &str = "core::ops::function::FnOnce::call_once{{vtable.shim}}";

/// The hexadecimal digits.
const DIGITS: [u8; 16] = *b"0123456789abcdef";

/// The styles of function names in a module.
#[derive(Clone, Copy)]
pub enum Style {
    /// Mangled or plain names, which are identifiers.
    Mangled,
    /// Names as in the source code of a program, with characters that have to be quoted. Many of them are equal.
    Readable,
}

/// Appends one of the words.
fn word(draws: &mut Draws, name: &mut Encoder) -> Result<(), AllocError> {
    name.all(draws.pick(&WORDS, "core").as_bytes())
}

/// Appends this many words, separated by a text.
fn words(
    draws: &mut Draws,
    count: u32,
    between: &str,
    name: &mut Encoder,
) -> Result<(), AllocError> {
    word(draws, name)?;
    for _ in 1..count {
        name.all(between.as_bytes())?;
        word(draws, name)?;
    }
    Ok(())
}

/// Appends a number in decimal.
pub fn decimal(number: u32, name: &mut Encoder) -> Result<(), AllocError> {
    name.all(Buffer::new().format(number).as_bytes())
}

/// Appends a hash of 16 hexadecimal digits.
fn hash(draws: &mut Draws, name: &mut Encoder) -> Result<(), AllocError> {
    name.byte(b'h')?;
    for _ in 0..16 {
        name.byte(draws.pick(&DIGITS, b'0'))?;
    }
    Ok(())
}

/// Appends a mangled name.
fn mangled(draws: &mut Draws, name: &mut Encoder) -> Result<(), AllocError> {
    name.all(b"_ZN")?;
    for _ in 0..draws.within(2, 4) {
        let part = draws.pick(&WORDS, "core");
        decimal(part.len().min(MOST_LEN) as u32, name)?;
        name.all(part.as_bytes())?;
    }
    name.all(b"17")?;
    hash(draws, name)?;
    name.byte(b'E')
}

/// Appends a plain name with a number.
fn plain(draws: &mut Draws, number: u32, name: &mut Encoder) -> Result<(), AllocError> {
    let count = draws.within(1, 3);
    words(draws, count, "_", name)?;
    decimal(number, name)
}

/// Appends a name as in the source code of a program.
fn readable(draws: &mut Draws, name: &mut Encoder) -> Result<(), AllocError> {
    if draws.one_in(6) {
        return name.all(SHARED.as_bytes());
    }
    name.byte(b'<')?;
    words(draws, 3, "::", name)?;
    name.all(b"<'a, T> as ")?;
    words(draws, 2, "::", name)?;
    name.all(b">::")?;
    word(draws, name)?;
    if draws.one_in(2) {
        name.all("::{{closure}}::λ".as_bytes())?;
    }
    Ok(())
}

/// Appends the name of a function.
pub fn function_name(
    draws: &mut Draws,
    style: Style,
    number: u32,
    name: &mut Encoder,
) -> Result<(), AllocError> {
    match style {
        Style::Readable => readable(draws, name),
        Style::Mangled => {
            if draws.one_in(3) {
                plain(draws, number, name)
            } else {
                mangled(draws, name)
            }
        }
    }
}

/// Appends the name of a local, a label or another item inside a function or type.
pub fn inner_name(draws: &mut Draws, number: u32, name: &mut Encoder) -> Result<(), AllocError> {
    name.all(draws.pick(&LOCALS, "self").as_bytes())?;
    if draws.one_in(2) {
        return Ok(());
    }
    decimal(number, name)
}
