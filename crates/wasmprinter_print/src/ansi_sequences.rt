//! The ANSI escape sequences of styles (Select Graphic Rendition of ECMA-48). Each begins with a reset of
//! all attributes. In the comments, ESC is the byte 27.
ghost use Rattle.std.specs.Prelude.{◌≡◌};
ghost use Rattle.wasmprinter_spec.specs.Call.{Start, Literal as LiteralStyle, Name as NameStyle, Keyword as KeywordStyle};
ghost use Rattle.wasmprinter_spec.specs.Call.{TypeName as TypeStyle, Comment as CommentStyle, Reset as NoStyle};
ghost use Rattle.wasmprinter_spec.specs.Colored.{colored_bytes};

/// Returns the ANSI escape sequences that start the style of literals, that is, numbers and strings: `ESC[0m`, a reset,
/// and `ESC[31m`, red.
#[tactic(auto, using(wasmprinter_spec::proofs::Sequences::literal))]
#[inline(always)]
pub fn literal_sequences() -> &'static str
    ensures { result.now ≡ colored_bytes (Start LiteralStyle) }
{
    "\x1b[0m\x1b[31m"
}

/// Returns the ANSI escape sequences that start the style of the names and indices of items: `ESC[0m`, a reset, and
/// `ESC[35m`, magenta.
#[tactic(auto, using(wasmprinter_spec::proofs::Sequences::name))]
#[inline(always)]
pub fn name_sequences() -> &'static str
    ensures { result.now ≡ colored_bytes (Start NameStyle) }
{
    "\x1b[0m\x1b[35m"
}

/// Returns the ANSI escape sequences that start the style of keywords: `ESC[0m`, a reset, `ESC[1m`, bold, and
/// `ESC[38;5;11m`, intense yellow.
#[tactic(auto, using(wasmprinter_spec::proofs::Sequences::keyword))]
#[inline(always)]
pub fn keyword_sequences() -> &'static str
    ensures { result.now ≡ colored_bytes (Start KeywordStyle) }
{
    "\x1b[0m\x1b[1m\x1b[38;5;11m"
}

/// Returns the ANSI escape sequences that start the style of the words of types: `ESC[0m`, a reset, `ESC[1m`, bold, and
/// `ESC[38;5;10m`, intense green.
#[tactic(auto, using(wasmprinter_spec::proofs::Sequences::type_name))]
#[inline(always)]
pub fn type_sequences() -> &'static str
    ensures { result.now ≡ colored_bytes (Start TypeStyle) }
{
    "\x1b[0m\x1b[1m\x1b[38;5;10m"
}

/// Returns the ANSI escape sequences that start the style of comments: `ESC[0m`, a reset, and `ESC[36m`, cyan.
#[tactic(auto, using(wasmprinter_spec::proofs::Sequences::comment))]
#[inline(always)]
pub fn comment_sequences() -> &'static str
    ensures { result.now ≡ colored_bytes (Start CommentStyle) }
{
    "\x1b[0m\x1b[36m"
}

/// Returns the ANSI escape sequence after which text has no style, with the default color and not bold: `ESC[0m`, a
/// reset.
#[tactic(auto, using(wasmprinter_spec::proofs::Sequences::reset))]
#[inline(always)]
pub fn reset_sequences() -> &'static str
    ensures { result.now ≡ colored_bytes (Start NoStyle) }
{
    "\x1b[0m"
}
