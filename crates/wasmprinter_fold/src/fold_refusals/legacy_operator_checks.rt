//! Legacy operators (`try`, `catch`, `catch_all` and `delegate` of the first form of the exception handling proposal),
//! which have no folded text.
ghost use Rattle.std.specs.Prelude.{◌≡◌};
ghost use Rattle.wasmprinter_bytes.specs.declared.library_error.Error.TheVariants.{FoldLegacy};
ghost use Rattle.wasmprinter_spec.specs.Folding.Refusals.{legacy_places_in};
ghost use Rattle.wasmprinter_fold.specs.Refused.{error_of_first};

use wasmprinter_bytes::Error;
use wasmprinter_ops::expression::Expression;
use wasmprinter_ops::opcode_shapes_arities_and_roles::Listed;

/// Returns `FoldLegacy`, with its place, for the first legacy operator.
#[tactic(auto, using(crate::proofs::Steps::legacy_none))]
pub(crate) fn check_expression(expression: &Expression<'_>) -> Result<(), Error>
    ensures { result ≡ error_of_first FoldLegacy (legacy_places_in expression.now.items) }
{
    for (place, operator) in expression.operators() {
        if operator.opcode.role().is_of_try() {
            return Err(Error::FoldLegacy { place });
        }
    }
    Ok(())
}
