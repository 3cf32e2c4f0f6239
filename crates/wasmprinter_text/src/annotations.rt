//! Annotations (section 6.2 of the WebAssembly Core Specification, "Annotations"), and the comment line that
//! reports an error in a custom section.
ghost use Rattle.std.specs.Prelude.{[], ◌∷◌, ◌++◌};
ghost use Rattle.wasmprinter_spec.specs.Piece.{OpenAnnotation, OpenAnnotationSpace, OpenAnnotationWord, PlainLineComment};

use crate::comments::write_between;
use crate::parens_and_words::{write_in_style, write_two_in_style};
use wasmprinter_print::{Output, Style};

/// Opens an annotation: writes a parenthesis without a style, then the sign `@` and the name in the style of keywords.
pub fn open_annotation<O: Output>(out: &mut O, name: &str)
    ensures { O.wrote out.old out.new (OpenAnnotation name.now ∷ []) }
{
    out.write_str("(");
    write_two_in_style(out, Style::Keyword, "@", name);
}

/// Opens an annotation as [`open_annotation`] does, and writes a space after its name in the same style.
pub fn open_annotation_space<O: Output>(out: &mut O, name: &str)
    ensures { O.wrote out.old out.new (OpenAnnotationSpace name.now ∷ []) }
{
    out.write_str("(");
    out.start(Style::Keyword);
    write_between(out, "@", name, " ");
    out.reset_color();
}

/// Opens a group of an annotation: writes a parenthesis without a style, then `word` in the style of keywords. The word
/// need not be a keyword; its characters are not checked.
pub fn open_annotation_word<O: Output>(out: &mut O, word: &str)
    ensures { O.wrote out.old out.new (OpenAnnotationWord word.now ∷ []) }
{
    out.write_str("(");
    write_in_style(out, Style::Keyword, word);
}

/// Writes a comment to the end of the line, without a style: `;;`, a space, `before`, `s` and `after`. It does not end
/// the line.
pub fn write_plain_line_comment<O: Output>(out: &mut O, before: &str, s: &str, after: &str)
    ensures { O.wrote out.old out.new (PlainLineComment (before.now ++ (s.now ++ after.now)) ∷ []) }
{
    out.write_str(";; ");
    write_between(out, before, s, after);
}
