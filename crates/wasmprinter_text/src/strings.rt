//! Quoted strings (section 6.3 of the WebAssembly Core Specification, "Strings"). A plain character is one that a
//! quoted string contains unescaped: printable ASCII except `"` and `\`.
ghost use Rattle.std.specs.Prelude.{◌≡◌, ◌+◌, ◌<◌, ◌≤◌, true, false, [], ◌∷◌, ◌++◌, flat_map, chars, length};
ghost use Rattle.std.specs.Prelude.{◌*◌, take, drop, slice_index, if◌then◌else◌};
ghost use Rattle.std.specs.Str.{IsAscii, IsCharBoundary};
ghost use Rattle.wasmprinter_spec.specs.Call.{Text, Literal};
ghost use Rattle.wasmprinter_spec.specs.Piece.{Quoted, QuotedBytes, calls_in_style};
ghost use Rattle.wasmprinter_spec.specs.Quoted.{is_plain, char_text, byte_text, quoted_text, quoted_bytes};
ghost use Rattle.wasmprinter_text.specs.Numbers.{backslash, buffer_len, widest, chunk_len};

use crate::integers::{hex_digit, write_digit, write_hexadecimal};
use wasmprinter_print::{Output, Style};

/// The maximum number of bytes of a quoted string that one call writes.
const BUFFER_LEN: usize = 256;

/// The maximum number of bytes that one byte takes in a quoted string.
const WIDEST: usize = 3;

/// The maximum number of bytes of a byte string that one call writes. In a quoted string they take at most
/// `BUFFER_LEN` bytes.
const CHUNK_LEN: usize = BUFFER_LEN / WIDEST;

/// The first byte that each byte is written as in a quoted string: the byte itself if it is plain, else the
/// backslash before its digits.
static BEGINNINGS: [u8; 256] = *b"\
    \\\\\\\\\\\\\\\\\\\\\\\\\\\\\\\\\\\\\\\\\\\\\\\\\\\\\\\\\\\\\\\\ !\\#$%&'()*+,-./0123456789:;<=>?\
    @ABCDEFGHIJKLMNOPQRSTUVWXYZ[\\]^_\
    `abcdefghijklmnopqrstuvwxyz{|}~\\\
    \\\\\\\\\\\\\\\\\\\\\\\\\\\\\\\\\\\\\\\\\\\\\\\\\\\\\\\\\\\\\\\\\
    \\\\\\\\\\\\\\\\\\\\\\\\\\\\\\\\\\\\\\\\\\\\\\\\\\\\\\\\\\\\\\\\\
    \\\\\\\\\\\\\\\\\\\\\\\\\\\\\\\\\\\\\\\\\\\\\\\\\\\\\\\\\\\\\\\\\
    \\\\\\\\\\\\\\\\\\\\\\\\\\\\\\\\\\\\\\\\\\\\\\\\\\\\\\\\\\\\\\\\";

/// Reports whether a quoted string contains a character unescaped.
fn is_plain(c: char) -> bool
    ensures { result ≡ is_plain c }
{
    matches!(c, ' '..='~') && c != '"' && c != '\\'
}

/// Writes a character of a quoted string as `\u{..}`, with its number in hexadecimal.
fn write_escape<O: Output>(out: &mut O, c: char)
    requires { is_plain c ≡ false }
    ensures { O.called out.old out.new (Text (char_text c) ∷ []) }
{
    out.write_str("\\u{");
    write_hexadecimal(out, u64::from(u32::from(c)));
    out.write_str("}");
}

/// Returns the length in bytes of a run of plain characters at the start of a text, at most `BUFFER_LEN`. The
/// first character must be plain.
fn plain_len(s: &str) -> usize
    requires some { 0 < length s.now }
    requires plain { is_plain (slice_index s.now 0) ≡ true }
    ensures boundary { IsCharBoundary s.now result }
    ensures text { flat_map char_text (chars s.now) ≡ take result s.now ++ flat_map char_text (chars (drop result s.now)) }
    ensures some { 0 < result }
    ensures most { result ≤ buffer_len }
{
    let bytes = s.as_bytes();
    let most = bytes.len().min(BUFFER_LEN);
    for i in 1..most {
        if !is_plain(char::from(bytes[i])) {
            return i;
        }
    }
    most
}

/// Writes the characters of a text as a quoted string contains them, plain characters in runs, each run in one
/// call.
fn write_chars_in_runs<O: Output>(out: &mut O, s: &str)
    ensures { O.called out.old out.new (Text (flat_map char_text (chars s.now)) ∷ []) }
{
    let mut rest = s;
    loop {
        let mut chars = rest.chars();
        let Some(first) = chars.next() else {
            return;
        };
        if out.has_failed() {
            return;
        }
        if is_plain(first) {
            let (plain, after) = rest.split_at(plain_len(rest));
            out.write_each_char(plain);
            rest = after;
            continue;
        }
        write_escape(out, first);
        rest = chars.as_str();
    }
}

/// Writes the characters of a text as a quoted string contains them, each plain character in a call of its own.
fn write_chars_one_by_one<O: Output>(out: &mut O, s: &str)
    ensures { O.called out.old out.new (Text (flat_map char_text (chars s.now)) ∷ []) }
{
    for c in s.chars() {
        if out.has_failed() {
            return;
        }
        if is_plain(c) {
            out.write_str(c.encode_utf8(&mut [0; 4]));
            continue;
        }
        write_escape(out, c);
    }
}

/// Writes the characters of a text as a quoted string contains them.
pub(crate) fn write_chars<O: Output>(out: &mut O, s: &str)
    ensures { O.called out.old out.new (Text (flat_map char_text (chars s.now)) ∷ []) }
{
    if out.takes_runs() {
        write_chars_in_runs(out, s);
    } else {
        write_chars_one_by_one(out, s);
    }
}

/// Writes a quoted string without a style.
#[tactic(auto, unfolding(wasmprinter_spec::specs::Quoted::quoted_text))]
pub(crate) fn write_in_quotes<O: Output>(out: &mut O, s: &str)
    ensures { O.called out.old out.new (Text (quoted_text (chars s.now)) ∷ []) }
{
    out.write_str("\"");
    write_chars(out, s);
    out.write_str("\"");
}

/// Writes a text in the style of literals as a quoted string: printable ASCII characters except `"` and `\` unescaped,
/// any other character as `\u{..}` with its number in hexadecimal, in lower case (section 6.3 of the standard,
/// "Strings"). The contract gives the calls on the printer (`calls`) and the same as a piece of the layout (`pieces`).
pub fn write_string<O: Output>(out: &mut O, s: &str)
    ensures calls { O.called out.old out.new (calls_in_style Literal (quoted_text (chars s.now))) }
    ensures pieces { O.wrote out.old out.new (Quoted (chars s.now) ∷ []) }
{
    out.start(Style::Literal);
    write_in_quotes(out, s);
    out.reset_color();
}

/// Returns the first byte that a byte is written as in a quoted string.
fn beginning_of(byte: u8) -> u8
    ensures { result ≡ (if is_plain byte then byte else backslash) }
{
    BEGINNINGS[usize::from(byte)]
}

/// Appends a byte, as a quoted string contains it, to the first `len` bytes of `escaped`, and returns the new
/// length. The byte is an ASCII character, or `\hh` with its two hexadecimal digits. All three bytes are stored in
/// both cases, because a branch would be slower.
fn escape_byte(escaped: &mut [u8; BUFFER_LEN], len: usize, byte: u8) -> usize
    requires { len + widest ≤ buffer_len }
    ensures text { take result escaped.new ≡ take len escaped.old ++ byte_text byte }
    ensures len { result ≤ len + widest }
{
    let beginning = beginning_of(byte);
    escaped[len] = beginning;
    escaped[len + 1] = hex_digit(byte / 16);
    escaped[len + 2] = hex_digit(byte % 16);
    if beginning == b'\\' {
        len + WIDEST
    } else {
        len + 1
    }
}

/// Stores bytes in `escaped` as a quoted string contains them, and returns the number of bytes that they take.
fn show_bytes(escaped: &mut [u8; BUFFER_LEN], bytes: &[u8]) -> usize
    requires { length bytes.now ≤ chunk_len }
    ensures text { take result escaped.new ≡ flat_map byte_text bytes.now }
    ensures ascii { IsAscii (take result escaped.new) }
    ensures len { result ≤ widest * chunk_len }
{
    let mut len = 0;
    for &byte in bytes {
        len = escape_byte(escaped, len, byte);
    }
    len
}

/// Writes an ASCII text.
fn write_ascii<O: Output>(out: &mut O, bytes: &[u8])
    requires { IsAscii bytes.now }
    ensures { O.called out.old out.new (Text bytes.now ∷ []) }
{
    let Ok(s) = str::from_utf8(bytes) else {
        unreachable!();
    };
    out.write_each_char(s);
}

/// Writes bytes as a quoted string contains them, `CHUNK_LEN` bytes in each call.
fn write_bytes_in_runs<O: Output>(out: &mut O, bytes: &[u8])
    ensures { O.called out.old out.new (Text (flat_map byte_text bytes.now) ∷ []) }
{
    let mut escaped = [0; BUFFER_LEN];
    for chunk in bytes.chunks(CHUNK_LEN) {
        if out.has_failed() {
            return;
        }
        let len = show_bytes(&mut escaped, chunk);
        write_ascii(out, &escaped[..len]);
    }
}

/// Writes a byte of a quoted string as `\hh`, with its two hexadecimal digits.
#[inline(always)]
#[tactic(auto, unfolding(wasmprinter_spec::specs::Quoted::byte_text))]
fn write_byte_escape<O: Output>(out: &mut O, byte: u8)
    requires { is_plain byte ≡ false }
    ensures { O.called out.old out.new (Text (byte_text byte) ∷ []) }
{
    out.write_str("\\");
    write_digit(out, byte / 16);
    write_digit(out, byte % 16);
}

/// Writes bytes as a quoted string contains them, each plain byte in a call of its own.
fn write_bytes_one_by_one<O: Output>(out: &mut O, bytes: &[u8])
    ensures { O.called out.old out.new (Text (flat_map byte_text bytes.now) ∷ []) }
{
    for &byte in bytes {
        if out.has_failed() {
            return;
        }
        let c = char::from(byte);
        if is_plain(c) {
            out.write_str(c.encode_utf8(&mut [0; 4]));
            continue;
        }
        write_byte_escape(out, byte);
    }
}

/// Writes bytes as a quoted string contains them.
fn write_each_byte<O: Output>(out: &mut O, bytes: &[u8])
    ensures { O.called out.old out.new (Text (flat_map byte_text bytes.now) ∷ []) }
{
    if out.takes_runs() {
        write_bytes_in_runs(out, bytes);
    } else {
        write_bytes_one_by_one(out, bytes);
    }
}

/// Writes bytes as a quoted string without a style.
#[tactic(auto, unfolding(wasmprinter_spec::specs::Quoted::quoted_bytes))]
fn write_bytes_in_quotes<O: Output>(out: &mut O, bytes: &[u8])
    ensures { O.called out.old out.new (Text (quoted_bytes bytes.now) ∷ []) }
{
    out.write_str("\"");
    write_each_byte(out, bytes);
    out.write_str("\"");
}

/// Writes bytes as a quoted string: printable ASCII except `"` and `\` unescaped, any other byte as `\hh` with its
/// two hexadecimal digits (section 6.3 of the standard, "Strings").
pub(crate) fn write_byte_string<O: Output>(out: &mut O, bytes: &[u8])
    ensures calls { O.called out.old out.new (calls_in_style Literal (quoted_bytes bytes.now)) }
    ensures pieces { O.wrote out.old out.new (QuotedBytes bytes.now ∷ []) }
{
    out.start(Style::Literal);
    write_bytes_in_quotes(out, bytes);
    out.reset_color();
}
