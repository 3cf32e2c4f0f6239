//! Checks which modules can be folded: the printed parts must have no legacy operators (`try`, `catch`, `catch_all`,
//! `delegate`), and no branch hints on operators whose folded text can't hold them.
ghost use Rattle.std.specs.Prelude.{◌≡◌, [], IfOk};
ghost use Rattle.std.specs.List.{flat_map};
ghost use Rattle.std.specs.Result.{IfErr};
ghost use Rattle.wasmprinter_bytes.specs.declared.library_error.Error.TheVariants.{FoldLegacy, FoldHint};
ghost use Rattle.wasmprinter_spec.specs.Folding.Refusals.{legacy_places_in, legacy_places, lists_before_code, body_lists, misplaced_hints};
ghost use Rattle.wasmprinter_fold.specs.Refused.{error_of_first, HasFoldReason};

mod hint_checks;
mod item_expressions;
mod legacy_operator_checks;

use hint_checks::check_hints;
use item_expressions::{check_bodies, check_each};
use wasmprinter_bytes::Error;
use wasmprinter_decoder::{Fields, Module};
use wasmprinter_print::PrintOptions;

/// Returns an error for the first legacy operator in constant expressions before the bodies.
#[tactic(auto, using(crate::proofs::Steps::before_parts, crate::proofs::Steps::front_refused, crate::proofs::Steps::front_passed))]
fn check_before_code(options: &PrintOptions, module: &Module<'_>) -> Result<(), Error>
    ensures { result ≡ error_of_first FoldLegacy (flat_map legacy_places_in (lists_before_code options.now module.now)) }
{
    let skeleton = options.skeleton;
    check_each(module.tables(), skeleton)?;
    check_each(module.globals(), skeleton)?;
    check_each(module.elements(), skeleton)
}

/// Returns an error for the first legacy operator in bodies that are printed.
fn check_printed_bodies(options: &PrintOptions, module: &Module<'_>) -> Result<(), Error>
    ensures { result ≡ error_of_first FoldLegacy (flat_map legacy_places_in (body_lists options.now module.now)) }
{
    if options.skeleton {
        return Ok(());
    }
    check_bodies(module)
}

/// Returns an error for the first legacy operator that is printed.
#[tactic(auto, using(crate::proofs::Steps::all_parts, crate::proofs::Steps::front_refused, crate::proofs::Steps::front_passed))]
fn check_legacy(options: &PrintOptions, module: &Module<'_>) -> Result<(), Error>
    ensures { result ≡ error_of_first FoldLegacy (legacy_places options.now module.now) }
{
    check_before_code(options, module)?;
    check_printed_bodies(options, module)?;
    check_each(module.data_segments(), options.skeleton)
}

/// Returns an error for the first printed hint on an operator whose folded text can't hold it.
fn check_printed_hints(options: &PrintOptions, module: &Module<'_>) -> Result<(), Error>
    ensures { result ≡ error_of_first FoldHint (misplaced_hints options.now module.now) }
{
    if options.skeleton {
        return Ok(());
    }
    check_hints(module)
}

/// Checks that everything that the options print of a module can be folded. On `Ok`, the printed lists of operators
/// have none of the operators (`legacy`) and hints (`hints`) below. The result does not depend on whether the options
/// ask for folding.
///
/// # Errors
///
/// No error other than these is returned (`refused`):
///
/// - `FoldLegacy` with the place of the first `try`, `catch`, `catch_all` or `delegate` in the lists of operators that
///   are printed, in the order of the bytes.
/// - `FoldHint`, if there is no such operator, with the place of the first branch hint on a `block`, `loop`,
///   `try_table`, `else` or `end` of the bodies that are printed, in the order of the operators.
pub fn check_folding(options: &PrintOptions, module: &Module<'_>) -> Result<(), Error>
    ensures legacy { IfOk result (λ _. legacy_places options.now module.now ≡ []) }
    ensures hints { IfOk result (λ _. misplaced_hints options.now module.now ≡ []) }
    ensures refused { IfErr result (HasFoldReason options.now module.now) }
{
    check_legacy(options, module)?;
    check_printed_hints(options, module)
}
