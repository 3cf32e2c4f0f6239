//! Annotations of branch hints (Code Metadata, a companion document of the WebAssembly Core Specification).
ghost use Rattle.std.specs.Prelude.{◌≡◌, [], ◌∷◌, ◌++◌, codes};
ghost use Rattle.wasmprinter_spec.specs.Options.{defaults};
ghost use Rattle.wasmprinter_spec.specs.Piece.{HintAnnotation, flag_byte, text};
ghost use Rattle.wasmprinter_spec.specs.Quoted.{quoted_bytes};

use crate::parens_and_words::write_in_style;
use wasmprinter_print::{Output, Style};

/// The annotation of an operator that is likely to branch.
const TAKEN_NOTE: &str = "(@metadata.code.branch_hint \"\\01\")";

/// The annotation of an operator that is unlikely to branch.
const NOT_TAKEN_NOTE: &str = "(@metadata.code.branch_hint \"\\00\")";

/// Returns the annotation of an operator: `(@metadata.code.branch_hint "\01")` if it is likely to branch, otherwise the
/// same with `"\00"` (`note`). It is the text of the piece that [`write_hint_annotation`] writes (`shown`).
#[tactic(auto, unfolding(wasmprinter_spec::specs::Quoted::quoted_bytes, wasmprinter_spec::specs::Quoted::byte_text))]
pub fn hint_text(taken: bool) -> &'static str
    ensures note { result.now ≡ codes "(@metadata.code.branch_hint " ++ (quoted_bytes (flag_byte taken ∷ []) ++ codes ")") }
    ensures shown { result.now ≡ text defaults (HintAnnotation taken) }
{
    if taken { TAKEN_NOTE } else { NOT_TAKEN_NOTE }
}

/// Writes the annotation that says whether the operator after it is likely to branch ([`hint_text`]), in the style of
/// comments.
pub fn write_hint_annotation<O: Output>(out: &mut O, taken: bool)
    ensures { O.wrote out.old out.new (HintAnnotation taken ∷ []) }
{
    write_in_style(out, Style::Comment, hint_text(taken));
}
