//! Modules and texts that tests assemble from parts.

use crate::sections::{FUNCTION, TYPE, add_custom, add_section};
use std::alloc::{AllocError, Global};

/// A part of a module.
#[derive(Drop)]
pub enum Part<'a> {
    /// These bytes
    Bytes(&'a [u8]),
    /// Some of these bytes: the number of those before them, and the most of them
    Slice(&'a [u8], usize, usize),
    /// That many copies of these bytes
    Copies(u32, &'a [u8]),
    /// A section with this id and this content, of fewer than 128 bytes
    Section(u8, &'a [u8]),
    /// A custom section with this name and this data, of fewer than 127 bytes together
    Custom(&'a str, &'a [u8]),
    /// A code section of one body: no locals, these operators, which have fewer than 100 bytes, and an `end`
    Body(&'a [u8]),
}

/// The parts of a module of a row.
pub type Parts = &'static [Part<'static>];

/// The section of one function type, without parameters and results.
pub const NO_PARAMS: Part<'static> = Part::Section(TYPE, &[0x01, 0x60, 0x00, 0x00]);

/// The section of one function type, with an i32 parameter and without results.
pub const ONE_PARAM: Part<'static> = Part::Section(TYPE, &[0x01, 0x60, 0x01, 0x7f, 0x00]);

/// The section of one function of the first type.
pub const ONE_FUNCTION: Part<'static> = Part::Section(FUNCTION, &[0x01, 0x00]);

/// Appends a part to a module.
fn add_part(alloc: Global, wasm: &mut Vec<u8>, part: &Part<'_>) -> Result<(), AllocError> {
    match part {
        Part::Bytes(bytes) => wasm.extend_from_slice(bytes)?,
        Part::Slice(bytes, first, most) => {
            for byte in bytes.iter().skip(*first).take(*most) {
                wasm.push(*byte)?;
            }
        }
        Part::Copies(count, bytes) => {
            for _ in 0..*count {
                wasm.extend_from_slice(bytes)?;
            }
        }
        Part::Section(id, content) => add_section(wasm, *id, content)?,
        Part::Custom(name, data) => add_custom(alloc, wasm, name, data)?,
        Part::Body(operators) => {
            let size = operators.len().min(100) as u8 + 2;
            wasm.extend_from_slice(&[0x0a, size + 2, 0x01, size, 0x00])?;
            wasm.extend_from_slice(operators)?;
            wasm.push(0x0b)?;
        }
    }
    Ok(())
}

/// Appends these parts to a module.
pub fn add_parts(alloc: Global, wasm: &mut Vec<u8>, parts: &[Part<'_>]) -> Result<(), AllocError> {
    for part in parts {
        add_part(alloc, wasm, part)?;
    }
    Ok(())
}

/// Returns a module of these parts.
pub fn build(alloc: Global, parts: &[Part<'_>]) -> Result<Vec<u8>, AllocError> {
    let mut wasm = Vec::new(alloc);
    add_parts(alloc, &mut wasm, parts)?;
    Ok(wasm)
}

/// The nesting depth of a body's outermost operators.
const BODY_DEPTH: u32 = 2;

/// The most levels by which a line is indented.
const MOST_LEVELS: u32 = 50;

/// A part of a text. A level is the nesting depth of a line below a body's outermost operators.
pub enum TextPart {
    /// This text
    Text(&'static str),
    /// That many copies of this text
    TextCopies(u32, &'static str),
    /// A line feed and the indent at this level
    Line(u32),
    /// For each level less than this: a line of this text
    Levels(u32, &'static str),
    /// For each level less than this, from the greatest to 0: a line of this text
    LevelsBack(u32, &'static str),
    /// For each level less than this: a line of this text and the number of the level, counted from 1
    NumberedLevels(u32, &'static str),
    /// For each number less than this: the first text, the number, and the second text
    Numbered(u32, &'static str, &'static str),
}

/// Appends a line feed, and the indent at this level.
fn start_line(text: &mut String, level: u32) -> Result<(), AllocError> {
    text.push('\n')?;
    for _ in 0..level.saturating_add(BODY_DEPTH).min(MOST_LEVELS) {
        text.push_str("  ")?;
    }
    Ok(())
}

/// Appends a part to a text.
fn add_text_part(text: &mut String, part: &TextPart) -> Result<(), AllocError> {
    match part {
        TextPart::Text(once) => text.push_str(once)?,
        TextPart::TextCopies(count, copied) => {
            for _ in 0..*count {
                text.push_str(copied)?;
            }
        }
        TextPart::Line(level) => start_line(text, *level)?,
        TextPart::Levels(count, line) => {
            for level in 0..*count {
                start_line(text, level)?;
                text.push_str(line)?;
            }
        }
        TextPart::LevelsBack(count, line) => {
            for level in (0..*count).rev() {
                start_line(text, level)?;
                text.push_str(line)?;
            }
        }
        TextPart::NumberedLevels(count, line) => {
            for level in 0..*count {
                start_line(text, level)?;
                write!(text, "{line}{}", level.saturating_add(1))?;
            }
        }
        TextPart::Numbered(count, before, after) => {
            for number in 0..*count {
                write!(text, "{before}{number}{after}")?;
            }
        }
    }
    Ok(())
}

/// Returns a text of these parts.
pub fn text_of_parts(alloc: Global, parts: &[TextPart]) -> Result<String, AllocError> {
    let mut text = String::new(alloc);
    for part in parts {
        add_text_part(&mut text, part)?;
    }
    Ok(text)
}
