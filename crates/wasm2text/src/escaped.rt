//! Names and words in messages, without control characters.
ghost use Rattle.std.specs.Prelude.{◌≡◌, Some, chars, encode_utf8_all};
ghost use Rattle.std.specs.Fmt.{WritesOnOk};
ghost use Rattle.std.specs.List.{list_any};
ghost use Rattle.wasm2text.specs.Messages.{is_escaped, message_char, in_message};

use std::fmt;

/// A name or a word in a message. Control characters and backslashes are escaped as by `char::escape_default`; other
/// characters are written as they are.
#[derive(Clone, Copy)]
pub struct Escaped<'a>(pub &'a str);

impl fmt::Display for Escaped<'_> {
    ghost output = { λ e. Some (in_message e.0.now) };

    fn fmt<W: fmt::Write>(&self, f: &mut fmt::Formatter<W>) -> fmt::Result {
        write_text(f, self.0)
    }
}

/// Writes a text in a message. A text without escapes is written in one call.
fn write_text<W: fmt::Write>(f: &mut fmt::Formatter<W>, text: &str) -> fmt::Result
    ensures { WritesOnOk W.write_str_gives f.old result (in_message text.now) f.new }
{
    if has_escapes(text) {
        write_each_char(f, text)
    } else {
        f.write_str(text)
    }
}

/// Writes each character of a text in a message.
fn write_each_char<W: fmt::Write>(f: &mut fmt::Formatter<W>, text: &str) -> fmt::Result
    ensures { WritesOnOk W.write_str_gives f.old result (in_message text.now) f.new }
{
    for c in text.chars() {
        write_char(f, c)?;
    }
    Ok(())
}

/// Writes a character in a message.
fn write_char<W: fmt::Write>(f: &mut fmt::Formatter<W>, c: char) -> fmt::Result
    ensures { WritesOnOk W.write_str_gives f.old result (encode_utf8_all (message_char c)) f.new }
{
    if !is_escaped(c) {
        return f.write_char(c);
    }
    for part in c.escape_default() {
        f.write_char(part)?;
    }
    Ok(())
}

/// Reports whether a character of a text is escaped in a message.
fn has_escapes(text: &str) -> bool
    ensures { result ≡ list_any is_escaped (chars text.now) }
{
    for c in text.chars() {
        if is_escaped(c) {
            return true;
        }
    }
    false
}

/// Reports whether a character is escaped in a message.
fn is_escaped(c: char) -> bool
    ensures { result ≡ is_escaped c }
{
    c.is_control() || c == '\\'
}
