//! The print options.
use std::marker::Model;

/// The text of one level of indentation. The default of two spaces owns no memory.
#[derive(Debug, Drop)]
enum Indent {
    /// The default.
    Default,
    /// This text, which may be empty.
    Text(String),
}

/// The default indentation of the deepest level: two spaces for each of 50 levels.
const SPACES: &str =
    "                                                                                                    ";

/// The options that each part of the layout uses.
#[derive(Debug, Drop)]
pub struct PrintOptions {
    /// Whether each line after the first begins with its place, in a comment.
    pub offsets: bool,
    /// Whether bodies, the items of element segments, and the bytes of data segments and `(@custom ..)` are left out.
    pub skeleton: bool,
    /// Whether identifiers are synthesized for items without a name.
    pub synthesizes: bool,
    /// Whether each operator is written in parentheses with its operands.
    pub folds: bool,
    /// The text of one level of indentation.
    indent: Indent,
}

impl Model for PrintOptions {
    ghost use Rattle.wasmprinter_spec.specs.Options.{Options};
    ghost use Rattle.std.specs.Prelude.{false};
    ghost use Rattle.wasmprinter_print.specs.Indents.{indent_text};

    ghost Value = { Options };

    ghost view = { λ o. record {
      offsets = o.offsets;
      skeleton = o.skeleton;
      synthesizes = o.synthesizes;
      folds = o.folds;
      color = false;
      indent = indent_text o.indent;
    } };
}

impl PrintOptions {
    ghost use Rattle.std.specs.Prelude.{◌≡◌, ◌≤◌, string_bytes, IfSome};
    ghost use Rattle.wasmprinter_spec.specs.Options.{defaults};
    ghost use Rattle.wasmprinter_spec.specs.Piece.{most_indents, repetition_of};

    /// Returns the default options: no places before lines, complete bodies, no synthesized identifiers, no folding,
    /// and an indentation of two spaces. The option `color`, which no `PrintOptions` holds, is `false`.
    pub fn new() -> PrintOptions
        ensures { result ≡ defaults }
    {
        PrintOptions {
            offsets: false,
            skeleton: false,
            synthesizes: false,
            folds: false,
            indent: Indent::Default,
        }
    }

    /// Sets the text of one level of indentation. The other options stay as they are.
    pub fn set_indent(&mut self, text: String)
        ensures { self.new ≡ record self.old { indent = string_bytes text } }
    {
        self.indent = Indent::Text(text);
    }

    /// Returns the text of one level of indentation.
    pub fn indent(&self) -> &str
        ensures { result.now ≡ self.now.indent }
    {
        match &self.indent {
            Indent::Default => "  ",
            Indent::Text(text) => text.as_str(),
        }
    }

    /// Returns the indentation of `levels` levels as one text, or `None` if it is not stored.
    pub(crate) fn indent_of(&self, levels: usize) -> Option<&str>
        requires { levels ≤ most_indents }
        ensures { IfSome result (λ t. t.now ≡ repetition_of levels self.now.indent) }
    {
        match &self.indent {
            Indent::Default => SPACES.get(..2 * levels),
            Indent::Text(_) => None,
        }
    }
}
