//! Comments (section 6.2 of the WebAssembly Core Specification, "Comments").
ghost use Rattle.std.specs.Prelude.{[], ◌∷◌, ◌++◌, codes, decimal, true, false};
ghost use Rattle.wasmprinter_spec.specs.Call.{Text, Comment};
ghost use Rattle.wasmprinter_spec.specs.Piece.{IndexComment, BlockComment, LineComment, calls_in_style};

use crate::integers::write_decimal_between;
use wasmprinter_print::{Output, Style};

/// Writes a text between two others.
pub(crate) fn write_between<O: Output>(out: &mut O, before: &str, s: &str, after: &str)
    ensures { O.called out.old out.new (Text (before.now ++ (s.now ++ after.now)) ∷ []) }
{
    out.write_str(before);
    out.write_str(s);
    out.write_str(after);
}

/// Writes a space and a comment `(;content;)` without a style. `content` is written as it is: a `(;` or `;)` in it would
/// change where the comment ends.
pub fn write_unstyled_comment<O: Output>(out: &mut O, content: &str)
    ensures { O.wrote out.old out.new (BlockComment false content.now ∷ []) }
{
    write_between(out, " (;", content, ";)");
}

/// Writes the number of a declaration in decimal as a comment `(;n;)`, without a style of its own.
pub fn write_index_comment<O: Output>(out: &mut O, n: u64)
    ensures { O.wrote out.old out.new (IndexComment n ∷ []) }
{
    write_decimal_between(out, "(;", n, ";)");
}

/// Writes a number between two texts, in the style of comments.
fn write_number_comment<O: Output>(out: &mut O, before: &str, n: u64, after: &str)
    ensures { O.called out.old out.new (calls_in_style Comment (before.now ++ (decimal n ++ after.now))) }
{
    out.start(Style::Comment);
    write_decimal_between(out, before, n, after);
    out.reset_color();
}

/// Writes a space and a comment `(;@n;)` in the style of comments, where `n` is the number of a block in decimal.
pub fn write_depth_comment<O: Output>(out: &mut O, block: u64)
    ensures { O.wrote out.old out.new (BlockComment true (codes "@" ++ decimal block) ∷ []) }
{
    write_number_comment(out, " (;@", block, ";)");
}

/// Writes a space and a comment `(; label = @n ;)` in the style of comments, where `n` is the number of a block in
/// decimal.
pub fn write_label_block_comment<O: Output>(out: &mut O, block: u64)
    ensures { O.wrote out.old out.new
        (BlockComment true (codes " label = @" ++ (decimal block ++ codes " ")) ∷ []) }
{
    write_number_comment(out, " (; label = @", block, " ;)");
}

/// Writes a comment `;; label = @n` in the style of comments, where `n` is the number of a block in decimal. It does
/// not end the line.
pub fn write_label_line_comment<O: Output>(out: &mut O, block: u64)
    ensures { O.wrote out.old out.new (LineComment (codes "label = @" ++ decimal block) ∷ []) }
{
    write_number_comment(out, ";; label = @", block, "");
}
