//! Pseudorandom bytes and names in quoted strings: a byte string in a data segment and in a custom section, a name of a
//! custom section, and a name of the module. The expected text is built byte by byte and character by character.

use std::alloc::{AllocError, Global};
use std::test::Fail;
use wasmprinter::{Config, Error, PrintFmtWrite};
use wasmprinter_expecting::{print_to, text_of};
use wasmprinter_samples::PREAMBLE;
use wasmprinter_samples::sections::{CUSTOM, DATA};

/// The first state of the generator.
const SEED: u64 = 0x5eed_0000_0000_0001;

/// The multiplier and the increment of the generator, a linear congruential one with 2^64 states.
const MULTIPLIER: u64 = 6_364_136_223_846_793_005;

const INCREMENT: u64 = 1_442_695_040_888_963_407;

/// A generator of pseudorandom bytes.
#[derive(Drop)]
struct Generator {
    state: u64,
}

impl Generator {
    fn next_byte(&mut self) -> u8 {
        self.state = self.state.wrapping_mul(MULTIPLIER).wrapping_add(INCREMENT);
        ((self.state >> 40) % 0x100) as u8
    }
}

/// The contents of strings.
#[derive(Clone, Copy, Debug)]
enum Kind {
    /// Lowercase letters
    Letters,
    /// Lowercase letters and, about once in 16 times, any byte or character
    MostlyLetters,
    /// Any bytes or characters
    Any,
}

const KINDS: &[Kind] = &[Kind::Letters, Kind::MostlyLetters, Kind::Any];

/// Ranges of lengths, in bytes or characters, around the multiples of the lengths at which the printer divides a
/// string: 85 bytes of a byte string, and 256 characters of a text. Also around 64.
const LENGTHS: &[(u32, u32)] = &[
    (0, 1),
    (62, 66),
    (84, 86),
    (169, 171),
    (254, 258),
    (339, 341),
    (510, 514),
    (1022, 1026),
];

/// Characters of one to four bytes, most of which are escaped.
const CHARACTERS: &[char] = &[
    '\0',
    '\n',
    '\u{1b}',
    '\u{1f}',
    ' ',
    '!',
    '"',
    '#',
    '\\',
    '~',
    '\u{7f}',
    '\u{80}',
    '\u{e9}',
    '\u{7ff}',
    '\u{800}',
    '\u{ffff}',
    '\u{1f600}',
    '\u{10ffff}',
];

impl Kind {
    /// Reports whether the next byte or character is a letter.
    fn is_letter_next(self, generator: &mut Generator) -> bool {
        match self {
            Kind::Letters => true,
            Kind::MostlyLetters => generator.next_byte() >= 0x10,
            Kind::Any => false,
        }
    }

    /// Returns the next byte.
    fn next_byte(self, generator: &mut Generator) -> u8 {
        let is_letter = self.is_letter_next(generator);
        let byte = generator.next_byte();
        if is_letter { b'a' + byte % 26 } else { byte }
    }

    /// Returns the next character.
    fn next_character(self, generator: &mut Generator) -> char {
        let is_letter = self.is_letter_next(generator);
        let byte = generator.next_byte();
        if is_letter {
            char::from(b'a' + byte % 26)
        } else {
            let index = usize::from(byte).checked_rem(CHARACTERS.len());
            match CHARACTERS.get(index.unwrap_or(0)) {
                Some(character) => *character,
                None => 'a',
            }
        }
    }
}

/// Returns this number of bytes.
fn bytes_of(
    alloc: Global,
    generator: &mut Generator,
    kind: Kind,
    len: u32,
) -> Result<Vec<u8>, AllocError> {
    let mut bytes = Vec::new(alloc);
    for _ in 0..len {
        bytes.push(kind.next_byte(generator))?;
    }
    Ok(bytes)
}

/// Returns a text of this number of characters.
fn text_with(
    alloc: Global,
    generator: &mut Generator,
    kind: Kind,
    len: u32,
) -> Result<String, AllocError> {
    let mut text = String::new(alloc);
    for _ in 0..len {
        text.push(kind.next_character(generator))?;
    }
    Ok(text)
}

/// Appends a number below 2^14, in two bytes.
fn push_len(wasm: &mut Vec<u8>, len: usize) -> Result<(), AllocError> {
    wasm.push((len % 0x80) as u8 + 0x80)?;
    wasm.push((len / 0x80 % 0x80) as u8)?;
    Ok(())
}

/// Appends a number and that many bytes.
fn push_bytes(wasm: &mut Vec<u8>, bytes: &[u8]) -> Result<(), AllocError> {
    push_len(wasm, bytes.len())?;
    wasm.extend_from_slice(bytes)
}

/// Returns a module that is named `a`, a space and the name. It has a custom section with this name and data, and a
/// passive data segment with the same data.
fn module_of(alloc: Global, name: &str, data: &[u8]) -> Result<Vec<u8>, AllocError> {
    let mut custom = Vec::new(alloc);
    push_bytes(&mut custom, name.as_bytes())?;
    custom.extend_from_slice(data)?;
    let mut segments = Vec::from_slice(alloc, &[0x01, 0x01])?;
    push_bytes(&mut segments, data)?;
    let mut content = Vec::new(alloc);
    push_len(&mut content, name.len().saturating_add(2))?;
    content.extend_from_slice(b"a ")?;
    content.extend_from_slice(name.as_bytes())?;
    let mut names = Vec::from_slice(alloc, b"\x04name\x00")?;
    push_bytes(&mut names, &content)?;
    let mut wasm = Vec::from_slice(alloc, PREAMBLE)?;
    wasm.push(CUSTOM)?;
    push_bytes(&mut wasm, &custom)?;
    wasm.push(DATA)?;
    push_bytes(&mut wasm, &segments)?;
    wasm.push(CUSTOM)?;
    push_bytes(&mut wasm, &names)?;
    Ok(wasm)
}

/// Reports whether a quoted string contains this character unescaped.
fn is_unescaped(code: u32) -> bool {
    code >= 0x20 && code <= 0x7e && code != 0x22 && code != 0x5c
}

/// Appends bytes as a quoted string contains them.
fn add_bytes(text: &mut String, bytes: &[u8]) -> Result<(), AllocError> {
    for byte in bytes {
        if is_unescaped(u32::from(*byte)) {
            text.push(char::from(*byte))?;
        } else {
            write!(text, "\\{byte:02x}")?;
        }
    }
    Ok(())
}

/// Appends the characters of a name as a quoted string contains them.
fn add_characters(text: &mut String, name: &str) -> Result<(), AllocError> {
    for character in name.chars() {
        let code = u32::from(character);
        if is_unescaped(code) {
            text.push(character)?;
        } else {
            write!(text, "\\u{{{code:x}}}")?;
        }
    }
    Ok(())
}

/// Returns the text of the module with this name and this data.
fn expected_text(alloc: Global, name: &str, data: &[u8]) -> Result<String, AllocError> {
    let mut text = String::from_str(alloc, "(module $\"a ")?;
    add_characters(&mut text, name)?;
    text.push_str("\"\n  (@custom \"")?;
    add_characters(&mut text, name)?;
    text.push_str("\" (before first) \"")?;
    add_bytes(&mut text, data)?;
    text.push_str("\")\n  (data (;0;) \"")?;
    add_bytes(&mut text, data)?;
    text.push_str("\")\n)\n")?;
    Ok(text)
}

/// Reports whether this is the text of a module by printers that take runs of characters, and by one that takes single
/// characters.
fn is_text_of(alloc: Global, wasm: &[u8], text: &str) -> Result<bool, Error> {
    let mut storage = String::new(alloc);
    Config::new().print_with_line_starts(alloc, wasm, &mut storage)?;
    let mut printer = PrintFmtWrite(String::new(alloc));
    print_to(&Config::new(), alloc, wasm, &mut printer)?;
    let printed = text_of(alloc, wasm)?;
    Ok(printed.as_str() == text && storage.as_str() == text && printer.0.as_str() == text)
}

/// Reports whether a module with strings of this kind and length has the expected text.
fn is_printed(
    alloc: Global,
    generator: &mut Generator,
    kind: Kind,
    len: u32,
) -> Result<bool, Error> {
    let name = text_with(alloc, generator, kind, len)?;
    let data = bytes_of(alloc, generator, kind, len)?;
    let wasm = module_of(alloc, name.as_str(), &data)?;
    let text = expected_text(alloc, name.as_str(), &data)?;
    is_text_of(alloc, &wasm, text.as_str())
}

/// Checks strings of this kind and of each length of these ranges.
///
/// # Errors
///
/// - A module is refused or has another text. The error has the kind and the length of its strings.
fn expect_lengths(
    alloc: Global,
    generator: &mut Generator,
    kind: Kind,
    ranges: &[(u32, u32)],
) -> Result<(), Fail> {
    for (first, last) in ranges {
        for len in *first..=*last {
            if !is_printed(alloc, generator, kind, len)? {
                return Err((kind, len))?;
            }
        }
    }
    Ok(())
}

#[test]
fn escapes_each_byte_and_character_of_strings_of_many_lengths(rt: HostRuntime) -> Result<(), Fail> {
    let mut generator = Generator { state: SEED };
    for kind in KINDS {
        expect_lengths(rt.alloc(), &mut generator, *kind, LENGTHS)?;
    }
    Ok(())
}
