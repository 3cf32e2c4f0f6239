//! Identifiers, and the annotations with names (section 6.3 of the WebAssembly Core Specification, "Identifiers",
//! and the custom annotations proposal).
ghost use Rattle.std.specs.Prelude.{◌≡◌, [], ◌∷◌, ◌++◌, true, chars, decimal, if◌then◌else◌};
ghost use Rattle.wasmprinter_spec.specs.Call.{Text};
ghost use Rattle.wasmprinter_spec.specs.Names.Content.{index_content};
ghost use Rattle.wasmprinter_spec.specs.Piece.{Identifier, NameAnnotation};
ghost use Rattle.wasmprinter_spec.specs.Quoted.{all_id_chars, is_id, quoted_text};
ghost use Rattle.wasmprinter_text.specs.Numbers.{dollar};

use crate::integers::write_decimal;
use crate::parens_and_words::write_in_style;
use crate::strings::{write_chars, write_in_quotes};
use wasmprinter_custom::is_id;
use wasmprinter_print::{Output, Style};

/// Writes the part of an identifier after its dollar sign.
fn write_content<O: Output>(out: &mut O, content: &str)
    ensures { O.called out.old out.new
        (Text (if is_id (chars content.now) then chars content.now else quoted_text (chars content.now)) ∷ []) }
{
    if is_id(content) {
        out.write_str(content);
    } else {
        write_in_quotes(out, content);
    }
}

/// Writes an identifier without a style: the dollar sign and `content`, which is quoted if it is empty or has other
/// than identifier characters.
#[tactic(auto, unfolding(wasmprinter_spec::specs::Quoted::identifier_text))]
pub fn write_identifier<O: Output>(out: &mut O, content: &str)
    ensures { O.wrote out.old out.new (Identifier (chars content.now) ∷ []) }
{
    out.write_str("$");
    write_content(out, content);
}

/// Writes a text, a word and a number.
fn write_numbered<O: Output>(out: &mut O, before: &str, word: &str, number: u64)
    ensures { O.called out.old out.new (Text (before.now ++ (word.now ++ decimal number)) ∷ []) }
{
    out.write_str(before);
    out.write_str(word);
    write_decimal(out, number);
}

/// Writes the synthesized identifier of an item without a style: `$#`, the word of its kind (`group`), and its number
/// in decimal. It is written without quotes (`calls`). So it is an identifier of the layout only if the word consists
/// of identifier characters (`pieces`).
pub fn write_synthesized_identifier<O: Output>(out: &mut O, group: &str, number: u64)
    ensures calls { O.called out.old out.new (Text (dollar ∷ index_content group.now number) ∷ []) }
    ensures pieces { all_id_chars group.now ≡ true
        → O.wrote out.old out.new (Identifier (chars (index_content group.now number)) ∷ []) }
{
    write_numbered(out, "$#", group, number);
}

/// Writes the annotation `(@name "..")` with the name of an item, whose characters are written as in a quoted string.
/// `(` has no style of its own, `@name "` that of keywords, and the rest none.
pub fn write_name_annotation<O: Output>(out: &mut O, name: &str)
    ensures { O.wrote out.old out.new (NameAnnotation (chars name.now) ∷ []) }
{
    out.write_str("(");
    write_in_style(out, Style::Keyword, "@name \"");
    write_chars(out, name);
    out.write_str("\")");
}
