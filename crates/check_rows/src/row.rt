//! A row: a module, options, and the typed text or error.

use std::alloc::{AllocError, Global};
use wasmprinter::{Config, Error, OffsetsAndLines};

/// An error that a row describes.
#[derive(Drop)]
struct TypedError<'a> {
    name: &'a str,
    /// The place, the count or the id of the error, or 0
    detail: u64,
    /// The description of the error, if the row has it
    description: Option<&'a str>,
}

/// The expected result of printing a module.
#[derive(Drop)]
enum Expected<'a> {
    /// Nothing was typed yet
    Missing,
    /// The text of the row
    Text,
    /// This error
    Error(TypedError<'a>),
}

/// A module, options, and the expected text or error.
#[derive(Drop)]
pub struct Row<'a> {
    title: &'a str,
    config: Config,
    wasm: Vec<u8>,
    text: String,
    /// The places before the lines of the text
    places: Vec<Option<u64>>,
    /// Whether the places are compared
    has_places: bool,
    expected: Expected<'a>,
    /// The opcode of the only operator, for a row of an operator alone
    opcode: Option<u32>,
}

/// Returns the number that is written in hexadecimal, or `None` if this is not a number of fewer than 17 digits.
fn hexadecimal(digits: &str) -> Option<u64> {
    u64::from_str_radix(digits, 16).ok()
}

/// Appends bytes that are written in hexadecimal. Reports whether each word is a byte of two digits.
pub fn push_bytes(bytes: &mut Vec<u8>, words: &str) -> Result<bool, AllocError> {
    for word in words.split_whitespace() {
        match hexadecimal(word) {
            Some(byte) if word.len() == 2 && byte < 0x100 => bytes.push(byte as u8)?,
            _ => return Ok(false),
        }
    }
    Ok(true)
}

/// Returns the place and the text of a line of the expected text, or `None` if this is another line.
fn split_line(line: &str) -> Option<(Option<u64>, &str)> {
    let (place, text) = line.split_once('|')?;
    if place.is_empty() {
        return Some((None, text));
    }
    Some((Some(hexadecimal(place)?), text))
}

/// Returns the number that is written in decimal or, after `0x`, in hexadecimal.
fn number(word: &str) -> Option<u64> {
    match word.strip_prefix("0x") {
        Some(digits) => hexadecimal(digits),
        None => word.parse::<u64>().ok(),
    }
}

/// Returns the error with this name and detail, and with the description that may follow them. Returns `None` if the
/// words have another form.
fn typed_error(words: &str) -> Option<TypedError<'_>> {
    let (name, words) = words.split_once(' ')?;
    let (detail, description) = match words.split_once(' ') {
        Some((detail, description)) => (detail, Some(description)),
        None => (words, None),
    };
    Some(TypedError {
        name,
        detail: number(detail)?,
        description,
    })
}

/// Returns the name of an error, and its detail: its place, count or id, or 0.
fn name_and_detail(error: &Error) -> (&'static str, u64) {
    match error {
        Error::Malformed { place } => ("Malformed", *place),
        Error::Component => ("Component", 0),
        Error::TooManyLocals { place } => ("TooManyLocals", *place),
        Error::TooManyFunctions { count } => ("TooManyFunctions", u64::from(*count)),
        Error::EmptyTableInit { place } => ("EmptyTableInit", *place),
        Error::FoldLegacy { place } => ("FoldLegacy", *place),
        Error::FoldHint { place } => ("FoldHint", *place),
        Error::DylinkSubsection { id } => ("DylinkSubsection", u64::from(*id)),
        Error::Unreadable => ("Unreadable", 0),
        Error::Printer(_) => ("Printer", 0),
        Error::Memory => ("Memory", 0),
    }
}

impl TypedError<'_> {
    /// Reports whether the error has this name, detail and description.
    fn is(&self, alloc: Global, error: &Error) -> Result<bool, Error> {
        let (name, detail) = name_and_detail(error);
        if name != self.name || detail != self.detail {
            return Ok(false);
        }
        match self.description {
            Some(description) => Ok(format!(in alloc; "{error}")?.as_str() == description),
            None => Ok(true),
        }
    }
}

/// Reports whether the lines have these places and are those of this text, in order.
fn are_lines(mut found: OffsetsAndLines<'_>, places: &[Option<u64>], text: &str) -> bool {
    for (place, line) in places.iter().zip(text.lines()) {
        let is_line = match found.next() {
            Some((start, whole)) => start == *place && whole.strip_suffix('\n') == Some(line),
            None => false,
        };
        if !is_line {
            return false;
        }
    }
    found.next().is_none()
}

impl<'a> Row<'a> {
    /// Returns a row of an empty module, for which the expected result is missing.
    pub fn new(alloc: Global, title: &'a str) -> Row<'a> {
        Row {
            title,
            config: Config::new(),
            wasm: Vec::new(alloc),
            text: String::new(alloc),
            places: Vec::new(alloc),
            has_places: false,
            expected: Expected::Missing,
            opcode: None,
        }
    }

    /// Returns the row of a module with its expected text. Places are not compared.
    pub fn with_text(
        alloc: Global,
        title: &'a str,
        config: Config,
        wasm: Vec<u8>,
        text: String,
    ) -> Row<'a> {
        Row {
            title,
            config,
            wasm,
            text,
            places: Vec::new(alloc),
            has_places: false,
            expected: Expected::Text,
            opcode: None,
        }
    }

    /// Makes this the row of an operator alone, with this opcode.
    pub fn set_opcode(&mut self, opcode: u32) {
        self.opcode = Some(opcode);
    }

    /// Reports whether the row may follow another one: its opcode, if it has one, is greater.
    pub fn may_follow(&self, other: &Row<'_>) -> bool {
        self.opcode.is_none() || self.opcode > other.opcode
    }

    /// Returns the title.
    pub fn title(&self) -> &'a str {
        self.title
    }

    /// Turns options on or off. Reports whether each word is an option.
    fn set(&mut self, words: &str, on: bool) -> bool {
        for word in words.split_whitespace() {
            match word {
                "offsets" => self.config.print_offsets(on),
                "skeleton" => self.config.print_skeleton(on),
                "name_unnamed" => self.config.name_unnamed(on),
                "fold" => self.config.fold_instructions(on),
                _ => return false,
            };
        }
        true
    }

    /// Sets the indent, which is written in hexadecimal. Reports whether it is a text.
    fn set_indent(&mut self, alloc: Global, words: &str) -> Result<bool, AllocError> {
        let mut bytes = Vec::new(alloc);
        if !push_bytes(&mut bytes, words)? {
            return Ok(false);
        }
        let Ok(indent) = str::from_utf8(&bytes) else {
            return Ok(false);
        };
        self.config.indent_text(String::from_str(alloc, indent)?);
        Ok(true)
    }

    /// Appends bytes as many times as their first word says. Reports whether the words are a number and bytes.
    fn push_copies(&mut self, alloc: Global, words: &str) -> Result<bool, AllocError> {
        let Some((count, words)) = words.split_once(' ') else {
            return Ok(false);
        };
        let mut bytes = Vec::new(alloc);
        let Ok(count) = count.parse::<u32>() else {
            return Ok(false);
        };
        if !push_bytes(&mut bytes, words)? {
            return Ok(false);
        }
        for _ in 0..count {
            self.wasm.extend_from_slice(&bytes)?;
        }
        Ok(true)
    }

    /// Expects a line with this place and text after the earlier ones. Reports whether no error is expected, and the
    /// places are compared if the line has one.
    fn add_text(&mut self, place: Option<u64>, text: &str) -> Result<bool, AllocError> {
        if !matches!(self.expected, Expected::Missing | Expected::Text) {
            return Ok(false);
        }
        self.expected = Expected::Text;
        self.places.push(place)?;
        self.text.push_str(text)?;
        self.text.push('\n')?;
        Ok(self.has_places || place.is_none())
    }

    /// Expects an error. Reports whether nothing was expected before, and the words are the name of an error, its
    /// detail and perhaps its description.
    fn expect_error(&mut self, words: &'a str) -> bool {
        if !matches!(self.expected, Expected::Missing) {
            return false;
        }
        match typed_error(words) {
            Some(error) => {
                self.expected = Expected::Error(error);
                true
            }
            None => false,
        }
    }

    /// Adds a line of a file, which is not empty and no comment, to the row. Reports whether the line can be read.
    pub fn add_line(&mut self, alloc: Global, line: &'a str) -> Result<bool, AllocError> {
        if let Some((place, text)) = split_line(line) {
            return self.add_text(place, text);
        }
        if let Some(words) = line.strip_prefix("wasm ") {
            return push_bytes(&mut self.wasm, words);
        }
        if let Some(words) = line.strip_prefix("copies ") {
            return self.push_copies(alloc, words);
        }
        if let Some(words) = line.strip_prefix("indent") {
            return self.set_indent(alloc, words);
        }
        if let Some(words) = line.strip_prefix("set ") {
            return Ok(self.set(words, true));
        }
        if let Some(words) = line.strip_prefix("unset ") {
            return Ok(self.set(words, false));
        }
        if let Some(words) = line.strip_prefix("error ") {
            return Ok(self.expect_error(words));
        }
        self.has_places = line == "places";
        Ok(self.has_places)
    }

    /// Reports whether the lines of the text are the typed ones and start at the typed places, if there are any.
    fn are_places(&self, alloc: Global) -> Result<bool, Error> {
        if !self.has_places {
            return Ok(true);
        }
        let mut storage = String::new(alloc);
        let lines = self
            .config
            .offsets_and_lines(alloc, &self.wasm, &mut storage)?;
        let are_typed = are_lines(lines, &self.places, self.text.as_str());
        Ok(are_typed && storage == self.text)
    }

    /// Reports whether printing the module has the expected result.
    pub fn is_met(&self, alloc: Global) -> Result<bool, Error> {
        match (
            self.config.print_to_string(alloc, &self.wasm),
            &self.expected,
        ) {
            (Ok(text), Expected::Text) => Ok(text == self.text && self.are_places(alloc)?),
            // A place is at most the length of the module, whatever was typed.
            (Err(Error::Malformed { place }), _) if place > self.wasm.len() as u64 => Ok(false),
            (Err(error), Expected::Error(typed)) => typed.is(alloc, &error),
            _ => Ok(false),
        }
    }
}
