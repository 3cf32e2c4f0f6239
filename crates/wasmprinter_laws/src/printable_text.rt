//! Laws of plain text, which consists of printable ASCII characters, tabs and line feeds.

ghost use Rattle.wasmprinter_spec.specs.Laws.{AlikeHaveOneText, PrintsPlainText, PlainTextIsUtf8, PlainTextHasNoColor, PlainTextsJoin};

/// The text of each module that bytes encode, without colors and with an indent of spaces and tabs, contains only
/// tabs, line feeds and the characters from the space to the tilde.
pub fn printed_text_is_plain()
    ensures { PrintsPlainText }
{}

/// Text that contains only tabs, line feeds and the characters from the space to the tilde is UTF-8.
pub fn plain_text_is_utf8()
    ensures { PlainTextIsUtf8 }
{}

/// Deleting ANSI escape sequences leaves a text unchanged that contains only tabs, line feeds and the characters from
/// the space to the tilde.
pub fn plain_text_has_no_color()
    ensures { PlainTextHasNoColor }
{}

/// If each of two texts contains only tabs, line feeds and the characters from the space to the tilde, so do the two
/// texts joined.
pub fn plain_texts_join()
    ensures { PlainTextsJoin }
{}

/// Two lists of calls that differ only in how text is split into pieces have the same text.
pub fn alike_calls_have_one_text()
    ensures { AlikeHaveOneText }
{}
