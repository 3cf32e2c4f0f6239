//! The excerpt of a module's text that shows a byte of the module.
ghost use Rattle.std.specs.Prelude.{◌≡◌, ◌+◌, ◌<◌, ◌^◌, ◌++◌, length, decimal, string_bytes, IfOk, IfErr, IfSome, OnOk};
ghost use Rattle.wasmprinter.specs.Found.{text_lines};
ghost use Rattle.wasm2text.specs.Excerpt.{StartsAtZero, IsExcerptOfLines, IsExcerptOf, IsExcerptRefusal, excerpt_text, window_around, is_outside, header_before, excerpt_line, excerpt_lines, mark, padded_number};

use crate::cause::Cause;
use crate::decoded::decoded;
use crate::line_search::{header_of_byte, line_of_byte};
use crate::request::SPACE;
use crate::target::Target;
use std::alloc::{AllocError, Global};
use wasmprinter::{Config, OffsetsAndLines};

/// The greatest number of lines before the line that shows the byte, and after it.
const CONTEXT: usize = 3;

/// Returns the excerpt of a module's text that shows a byte.
///
/// # Errors
///
/// - `Module`: the module can't be printed, or an allocation failed.
/// - `NoCode`: the byte is counted from the code section, and the module has no code section.
/// - `NoByte`: the module does not have the byte.
pub fn excerpt_of(
    alloc: Global,
    config: &Config,
    wasm: &[u8],
    target: Target,
) -> Result<String, Cause>
    ensures shown { IfOk result (λ text. IsExcerptOf config.now wasm.now target (string_bytes text)) }
    ensures refused { IfErr result (IsExcerptRefusal config.now wasm.now target) }
{
    let mut storage = String::new(alloc);
    let lines = config.offsets_and_lines(alloc, wasm, &mut storage)?;
    let Some(offset) = target.offset_in(wasm) else {
        return Err(Cause::NoCode);
    };
    let len = wasm.len() as u64;
    if offset >= len {
        return Err(Cause::NoByte { offset, len });
    }
    Ok(excerpt_of_lines(alloc, wasm, lines, offset)?)
}

/// Returns the excerpt of these lines, which are those of the module's text, that shows a byte of the module.
fn excerpt_of_lines(
    alloc: Global,
    wasm: &[u8],
    lines: OffsetsAndLines<'_>,
    offset: u64,
) -> Result<String, AllocError>
    requires { StartsAtZero lines.lines }
    ensures { IfOk result (λ text. IsExcerptOfLines wasm.now lines.entry.lines offset (string_bytes text)) }
{
    let module = decoded(alloc, wasm)?;
    let lines: Vec<(Option<u64>, &str)> = lines.collect(alloc)?;
    let shown = line_of_byte(&lines, offset);
    let header = header_of_byte(&module, &lines, offset);
    excerpt_around(alloc, &lines, shown, header)
}

/// How the lines of an excerpt are numbered.
#[derive(Clone, Copy)]
struct Numbering {
    /// The number of the line that shows the byte, counted from 1.
    shown: usize,
    /// The least number of characters for a number.
    width: usize,
}

/// The lines around the line that shows a byte.
#[derive(Clone, Copy)]
struct Window {
    /// The index of the first line.
    first: usize,
    /// The index after that of the last line.
    end: usize,
    numbering: Numbering,
}

impl Window {
    /// Returns whether the line with this index is not one of the lines.
    fn is_outside(self, index: usize) -> bool
        ensures { result ≡ is_outside self index }
    {
        index < self.first || self.end <= index
    }
}

/// Returns the lines around the line with the index `shown`, and before them the line with the index `header`, if it is
/// not among them.
fn excerpt_around(
    alloc: Global,
    lines: &[(Option<u64>, &str)],
    shown: usize,
    header: Option<usize>,
) -> Result<String, AllocError>
    requires shown { shown < length lines.now }
    requires header { IfSome header (λ h. h < length lines.now) }
    ensures { IfOk result (λ text. string_bytes text ≡ excerpt_text (text_lines lines.now) shown header) }
{
    let window = window_around(alloc, lines.len(), shown)?;
    let mut text = String::new(alloc);
    push_header(&mut text, alloc, window, lines, header)?;
    let around = &lines[window.first..window.end];
    push_lines(&mut text, alloc, window.numbering, window.first, around)?;
    Ok(text)
}

/// Returns the lines around the line with the index `shown`, of `count` lines.
fn window_around(alloc: Global, count: usize, shown: usize) -> Result<Window, AllocError>
    requires shown { shown < count }
    requires few { count < 2 ^ 63 }
    ensures { IfOk result (λ window. window ≡ window_around count shown) }
{
    let first = shown.saturating_sub(CONTEXT);
    let end = (shown + 1 + CONTEXT).min(count);
    let numbering = Numbering {
        shown: shown + 1,
        width: width_of(alloc, end)?,
    };
    Ok(Window {
        first,
        end,
        numbering,
    })
}

/// Returns the number of digits of a number in decimal.
fn width_of(alloc: Global, number: usize) -> Result<usize, AllocError>
    ensures { IfOk result (λ width. width ≡ length (decimal number)) }
{
    Ok(number.to_string(alloc)?.len())
}

/// Appends the line with the index `header`, if it is not among the lines around.
fn push_header(
    text: &mut String,
    alloc: Global,
    window: Window,
    lines: &[(Option<u64>, &str)],
    header: Option<usize>,
) -> Result<(), AllocError>
    requires { IfSome header (λ h. h < length lines.now) }
    ensures { OnOk result (string_bytes text.new
        ≡ string_bytes text.old ++ header_before window (text_lines lines.now) header) }
{
    match header {
        Some(header) if window.is_outside(header) => {
            let line = &lines[header..header + 1];
            push_lines(text, alloc, window.numbering, header, line)
        }
        _ => Ok(()),
    }
}

/// Appends lines, the first of which has the index `first`.
fn push_lines(
    text: &mut String,
    alloc: Global,
    numbering: Numbering,
    first: usize,
    lines: &[(Option<u64>, &str)],
) -> Result<(), AllocError>
    requires { first + length lines.now < 2 ^ 64 }
    ensures { OnOk result (string_bytes text.new
        ≡ string_bytes text.old ++ excerpt_lines numbering.width numbering.shown (first + 1) (text_lines lines.now)) }
{
    for index in 0..lines.len() {
        push_line(text, alloc, numbering, first + index + 1, lines[index].1)?;
    }
    Ok(())
}

/// Appends a line with its mark and its number.
fn push_line(
    text: &mut String,
    alloc: Global,
    numbering: Numbering,
    number: usize,
    line: &str,
) -> Result<(), AllocError>
    ensures { OnOk result (string_bytes text.new
        ≡ string_bytes text.old ++ excerpt_line numbering.width numbering.shown number line.now) }
{
    text.push_str(mark_of(number == numbering.shown))?;
    text.push_str(SPACE)?;
    push_number(text, alloc, numbering.width, number)?;
    text.push_str(SPACE)?;
    text.push_str(line)?;
    Ok(())
}

/// Returns the mark of a line, which shows the byte or does not.
fn mark_of(is_shown: bool) -> &'static str
    ensures { result.now ≡ mark is_shown }
{
    if is_shown { ">" } else { " " }
}

/// Appends a number in decimal, with spaces before it up to this width.
fn push_number(
    text: &mut String,
    alloc: Global,
    width: usize,
    number: usize,
) -> Result<(), AllocError>
    ensures { OnOk result (string_bytes text.new ≡ string_bytes text.old ++ padded_number width number) }
{
    let digits = number.to_string(alloc)?;
    let padding = SPACE.repeat(alloc, width.saturating_sub(digits.len()))?;
    text.push_str(padding.as_str())?;
    text.push_str(digits.as_str())?;
    Ok(())
}
