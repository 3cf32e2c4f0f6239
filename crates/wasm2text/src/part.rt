//! What is written of a module instead of its whole text.
ghost use Rattle.std.specs.Prelude.{IfOk, IfErr, string_bytes};
ghost use Rattle.wasm2text.specs.Parts.{part_view, IsPartOf, IsPartRefusal};

use crate::cause::Cause;
use crate::excerpt::excerpt_of;
use crate::function_ref::FunctionRef;
use crate::function_text::text_of_function;
use crate::hidden_text::hidden_text;
use crate::target::Target;
use crate::text_options::TextOptions;
use std::alloc::Global;

/// What is written of a module instead of its whole text.
#[derive(Clone, Copy)]
pub enum Part<'a> {
    /// The excerpt that shows this byte.
    Excerpt(Target),
    /// The text of this function.
    Function(FunctionRef<'a>),
    /// What no text of the module shows.
    Hidden,
}

/// Returns a part of a module's text, or what no text of the module shows.
///
/// # Errors
///
/// - `Module`: the module can't be printed or, for what no text shows, decoded; or an allocation failed.
/// - `NoCode`: the byte is counted from the code section, and the module has no code section.
/// - `NoByte`: the module does not have the byte.
/// - `NoFunction`: the module does not have the function.
pub fn text_of_part(
    alloc: Global,
    options: TextOptions<'_>,
    wasm: &[u8],
    part: Part<'_>,
) -> Result<String, Cause>
    ensures shown { IfOk result (λ text. IsPartOf options.entry.config.now wasm.now (part_view part.entry) (string_bytes text)) }
    ensures refused { IfErr result (IsPartRefusal options.entry.config.now wasm.now (part_view part.entry)) }
{
    match part {
        Part::Excerpt(target) => excerpt_of(alloc, options.config, wasm, target),
        Part::Function(function) => text_of_function(alloc, options, wasm, function),
        Part::Hidden => hidden_text(alloc, wasm),
    }
}
