//! Parentheses, spaces and words.
ghost use Rattle.std.specs.Prelude.{[], ◌∷◌, ◌++◌};
ghost use Rattle.wasmprinter_spec.specs.Piece.{OneSpace, Open, OpenUnnamed, OpenSpace, OpenPlain, OpenTypeSpace, CloseParen, BeginName, EndStyle};
ghost use Rattle.wasmprinter_spec.specs.Piece.{Word, TypeWord, TypeWordSpace, SpaceTypeWord, calls_in_style as in_style};
ghost use Rattle.wasmprinter_print.specs.Styles.{style_of};

use wasmprinter_print::{Output, Style};

/// Writes a piece of text in a style.
pub(crate) fn write_in_style<O: Output>(out: &mut O, style: Style, s: &str)
    ensures { O.called out.old out.new (in_style (style_of style) s.now) }
{
    out.start(style);
    out.write_str(s);
    out.reset_color();
}

/// Writes two texts in one style.
pub(crate) fn write_two_in_style<O: Output>(out: &mut O, style: Style, first: &str, second: &str)
    ensures { O.called out.old out.new (in_style (style_of style) (first.now ++ second.now)) }
{
    out.start(style);
    out.write_str(first);
    out.write_str(second);
    out.reset_color();
}

/// Writes the start of a group: a parenthesis without a style, then the keyword in the style of keywords. If a line may
/// begin in the group, a call of `Output::enter_group` has to follow.
pub fn open_group<O: Output>(out: &mut O, keyword: &str)
    ensures { O.wrote out.old out.new (Open keyword.now ∷ []) }
{
    out.write_str("(");
    write_in_style(out, Style::Keyword, keyword);
}

/// Writes the start of a group as [`open_group`] does, and a space after its keyword in the same style.
pub fn open_group_space<O: Output>(out: &mut O, keyword: &str)
    ensures { O.wrote out.old out.new (OpenSpace keyword.now ∷ []) }
{
    out.write_str("(");
    write_two_in_style(out, Style::Keyword, keyword, " ");
}

/// Writes the start of a group whose keyword has no style: a parenthesis and the text `unstyled`.
pub fn open_plain<O: Output>(out: &mut O, unstyled: &str)
    ensures { O.wrote out.old out.new (OpenPlain unstyled.now ∷ []) }
{
    out.write_str("(");
    out.write_str(unstyled);
}

/// Writes the start of a group whose keyword is the word of a type: a parenthesis without a style, then the keyword and
/// a space in the style of types.
pub fn open_type_space<O: Output>(out: &mut O, keyword: &str)
    ensures { O.wrote out.old out.new (OpenTypeSpace keyword.now ∷ []) }
{
    out.write_str("(");
    write_two_in_style(out, Style::TypeName, keyword, " ");
}

/// Writes the start of a group without a keyword: a parenthesis without a style, then an empty text in the style of
/// keywords.
pub fn open_without_keyword<O: Output>(out: &mut O)
    ensures { O.wrote out.old out.new (OpenUnnamed ∷ []) }
{
    out.write_str("(");
    write_in_style(out, Style::Keyword, "");
}

/// Writes a closing parenthesis on the current line, without a style.
pub fn write_close_paren<O: Output>(out: &mut O)
    ensures { O.wrote out.old out.new (CloseParen ∷ []) }
{
    out.write_str(")");
}

/// Writes a space without a style.
pub fn write_space<O: Output>(out: &mut O)
    ensures { O.wrote out.old out.new (OneSpace ∷ []) }
{
    out.write_str(" ");
}

/// Writes a word without a style.
pub fn write_word<O: Output>(out: &mut O, word: &str)
    ensures { O.wrote out.old out.new (Word word.now ∷ []) }
{
    out.write_str(word);
}

/// Writes the word of a type, in the style of types.
pub fn write_type_word<O: Output>(out: &mut O, word: &str)
    ensures { O.wrote out.old out.new (TypeWord word.now ∷ []) }
{
    write_in_style(out, Style::TypeName, word);
}

/// Writes the word of a type and a space, both in the style of types.
pub fn write_type_word_space<O: Output>(out: &mut O, word: &str)
    ensures { O.wrote out.old out.new (TypeWordSpace word.now ∷ []) }
{
    write_two_in_style(out, Style::TypeName, word, " ");
}

/// Writes a space and the word of a type, both in the style of types.
pub fn write_space_type_word<O: Output>(out: &mut O, word: &str)
    ensures { O.wrote out.old out.new (SpaceTypeWord word.now ∷ []) }
{
    write_two_in_style(out, Style::TypeName, " ", word);
}

/// Starts the style of names, which lasts until another style starts or [`end_style`] ends it. Writes no text.
pub fn begin_name<O: Output>(out: &mut O)
    ensures { O.wrote out.old out.new (BeginName ∷ []) }
{
    out.start(Style::Name);
}

/// Ends the current style: the text after it has none. Writes no text.
pub fn end_style<O: Output>(out: &mut O)
    ensures { O.wrote out.old out.new (EndStyle ∷ []) }
{
    out.reset_color();
}
