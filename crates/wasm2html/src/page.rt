//! A printer that writes an HTML page.
//!
//! The text of the module is data in the page, in the encoding that `specs/Escaped` describes. Each piece of text
//! goes through `append_text`.
ghost use Rattle.std.specs.Prelude.{false};
ghost use Rattle.wasm2html.specs.Silent.{silent};

use crate::escaping::append_text;
use crate::script::SCRIPT;
use crate::template::{BODY, HEAD, STYLE};
use std::alloc::{AllocError, Global};
use std::io;
use wasmprinter::Print;

/// The control characters that start a style.
const LITERAL: &[u8] = b"\x01";

const NAME: &[u8] = b"\x02";

const KEYWORD: &[u8] = b"\x03";

const TYPE: &[u8] = b"\x04";

const COMMENT: &[u8] = b"\x05";

/// The control character that ends a style.
const NO_STYLE: &[u8] = b"\x06";

/// The start of a function's first line.
const HEADER: &[u8] = b"  (\x03func";

/// The start of a line inside a function.
const INSIDE: &[u8] = b"    ";

/// The start of the last line of a function.
const END: &[u8] = b"  )";

/// The start of an element with the lines of a function.
const START_FUNCTION: &[u8] = b"<script type=\"text/plain\" class=\"function\">\n";

/// The start of an element with the lines of other fields.
const START_FIELDS: &[u8] = b"<script type=\"text/plain\" class=\"fields\">\n";

/// The end of an element of data.
const END_DATA: &[u8] = b"</script>\n";

/// The element of data that is open.
#[derive(Clone, Copy)]
enum Element {
    /// No element is open.
    None,
    /// The element has lines of fields that are no functions.
    Fields,
    /// The element has the lines of a function.
    Function,
}

/// A printer that writes an HTML page.
#[derive(Drop)]
pub struct Page {
    alloc: Global,
    /// The page up to the current line.
    html: Vec<u8>,
    /// The encoded text of the current line.
    line: Vec<u8>,
    /// The byte offset of the current line.
    place: Option<u64>,
    /// The element of data that is open.
    element: Element,
}

impl Page {
    /// Returns a page without lines, for a module of this length in a file of this name.
    pub fn new(alloc: Global, name: &str, wasm_len: usize) -> Result<Page, AllocError> {
        let mut html = Vec::from_slice(alloc, HEAD.as_bytes())?;
        html.extend_from_slice(STYLE.as_bytes())?;
        html.extend_from_slice(BODY.as_bytes())?;
        let start = format!(in alloc;
            "<script type=\"text/plain\" id=\"module\" data-bytes=\"{wasm_len}\">"
        )?;
        html.extend_from_slice(start.as_bytes())?;
        append_text(&mut html, name.as_bytes())?;
        html.extend_from_slice(END_DATA)?;
        Ok(Page {
            alloc,
            html,
            line: Vec::new(alloc),
            place: None,
            element: Element::None,
        })
    }

    /// Returns the page. The last line of the module must have ended.
    pub fn finish(mut self) -> Result<Vec<u8>, AllocError> {
        self.end_element()?;
        self.html.extend_from_slice(SCRIPT.as_bytes())?;
        Ok(self.html)
    }

    /// Ends the element of data, if one is open.
    fn end_element(&mut self) -> Result<(), AllocError> {
        match self.element {
            Element::None => {}
            Element::Fields | Element::Function => self.html.extend_from_slice(END_DATA)?,
        }
        self.element = Element::None;
        Ok(())
    }

    /// Starts an element of data with this opening tag.
    fn start_element(&mut self, element: Element, opening: &[u8]) -> Result<(), AllocError> {
        self.end_element()?;
        self.html.extend_from_slice(opening)?;
        self.element = element;
        Ok(())
    }

    /// Starts the element of data that the current line belongs to, unless it is open. A function starts with its
    /// header, and ends at the first line that is not inside it.
    fn start_element_of_line(&mut self) -> Result<(), AllocError> {
        if self.line.starts_with(HEADER) {
            return self.start_element(Element::Function, START_FUNCTION);
        }
        let is_inside = self.line.starts_with(INSIDE) || self.line.starts_with(END);
        let is_open = match self.element {
            Element::None => false,
            Element::Fields => true,
            Element::Function => is_inside,
        };
        if is_open {
            return Ok(());
        }
        self.start_element(Element::Fields, START_FIELDS)
    }

    /// Moves the current line to the page, with its byte offset.
    fn put_line(&mut self) -> Result<(), AllocError> {
        if let Some(place) = self.place {
            let digits = format!(in self.alloc; "{place:x}")?;
            self.html.extend_from_slice(digits.as_bytes())?;
        }
        self.html.extend_from_slice(b" ")?;
        self.html.extend_from_slice(&self.line)?;
        self.html.extend_from_slice(b"\n")?;
        self.line.clear();
        Ok(())
    }

    /// Ends the current line. The last line of a function ends its element of data.
    fn end_line(&mut self) -> Result<(), AllocError> {
        self.start_element_of_line()?;
        let is_end = self.line.starts_with(END);
        self.put_line()?;
        match self.element {
            Element::Function if is_end => self.end_element(),
            _ => Ok(()),
        }
    }

    /// Appends the control character of a style.
    fn put_style(&mut self, control: &[u8]) -> io::Result<()> {
        self.line.extend_from_slice(control)?;
        Ok(())
    }
}

impl Print for Page {
    ghost meaning = { silent };

    ghost colors = { λ _. false };

    fn write_str(&mut self, s: &str) -> io::Result<()> {
        append_text(&mut self.line, s.as_bytes())?;
        Ok(())
    }

    fn newline(&mut self) -> io::Result<()> {
        self.end_line()?;
        Ok(())
    }

    fn start_line(&mut self, binary_offset: Option<u64>) {
        self.place = binary_offset;
    }

    fn print_custom_section(
        &mut self,
        _name: &str,
        _binary_offset: u64,
        _bytes: &[u8],
    ) -> io::Result<bool> {
        Ok(false)
    }

    fn start_literal(&mut self) -> io::Result<()> {
        self.put_style(LITERAL)
    }

    fn start_name(&mut self) -> io::Result<()> {
        self.put_style(NAME)
    }

    fn start_keyword(&mut self) -> io::Result<()> {
        self.put_style(KEYWORD)
    }

    fn start_type(&mut self) -> io::Result<()> {
        self.put_style(TYPE)
    }

    fn start_comment(&mut self) -> io::Result<()> {
        self.put_style(COMMENT)
    }

    fn reset_color(&mut self) -> io::Result<()> {
        self.put_style(NO_STYLE)
    }

    fn supports_async_color(&self) -> bool {
        false
    }
}
