//! Branch hints on operators whose folded text can't hold them (Code Metadata, a document beside the
//! standard).
ghost use Rattle.std.specs.Prelude.{◌≡◌, None, is_some, codes};
ghost use Rattle.wasmprinter_bytes.specs.declared.library_error.Error.TheVariants.{FoldHint};
ghost use Rattle.wasmprinter_spec.specs.Types.{FuncKind};
ghost use Rattle.wasmprinter_spec.specs.Customs.Hints.{last_named, hints_of};
ghost use Rattle.wasmprinter_spec.specs.Folding.Refusals.{is_hintless, place_if_misplaced, misplaced_hints_in, misplaced_hints_from};
ghost use Rattle.wasmprinter_decoder.specs.Externs.{imported_count};
ghost use Rattle.wasmprinter_ops.specs.Shapes.{role_view};
ghost use Rattle.wasmprinter_fold.specs.Refused.{error_of_first};

use wasmprinter_bytes::Error;
use wasmprinter_custom::{FunctionHints, Hint, is_hint_section};
use wasmprinter_decoder::find_branch_hints::hints_of;
use wasmprinter_decoder::{Body, CustomEntry, ExternKind, Fields, Module};
use wasmprinter_ops::opcode_shapes_arities_and_roles::{Listed, Role};

/// Reports whether there is a hint section among the custom sections.
fn has_hints(customs: &[CustomEntry<'_>]) -> bool
    ensures { result ≡ is_some (last_named (codes "metadata.code.branch_hint") None customs.now) }
{
    for entry in customs {
        if is_hint_section(entry.section.name()) {
            return true;
        }
    }
    false
}

/// Reports whether folded text can't hold a hint on this operator. An `end` has no node, and this printer
/// puts no hint before the node of a `block`, `loop`, `try_table` or `else`.
fn is_hintless(role: Role) -> bool
    ensures { result ≡ is_hintless (role_view role) }
{
    match role {
        Role::Opens | Role::Else | Role::Ends => true,
        Role::Plain | Role::OpensIf | Role::OpensTry => false,
        Role::Catches | Role::CatchesAll | Role::Delegates => false,
    }
}

/// Returns an error for a hint on an operator whose folded text can't hold it.
fn check_hint(role: Role, hint: Option<Hint>) -> Result<(), Error>
    ensures { result ≡ error_of_first FoldHint (place_if_misplaced (role_view role) hint) }
{
    match hint {
        Some(hint) if is_hintless(role) => Err(Error::FoldHint {
            place: hint.place(),
        }),
        _ => Ok(()),
    }
}

/// Returns an error for the first hint of a body on an operator whose folded text can't hold it.
#[tactic(auto, using(crate::proofs::Steps::misplaced_none))]
fn check_body(hints: FunctionHints<'_>, body: &Body<'_>) -> Result<(), Error>
    ensures { result ≡ error_of_first FoldHint (misplaced_hints_in body.now.place hints.entry body.now.value.operators) }
{
    let mut hints = hints;
    for (place, operator) in body.operators() {
        let offset = place.saturating_sub(body.place());
        check_hint(operator.opcode.role(), hints.next_at(offset))?;
    }
    Ok(())
}

/// Returns `FoldHint`, with the place of the hint, for the first hint of a module on an operator whose folded text
/// can't hold it. Function indices count imported functions first.
pub(crate) fn check_hints(module: &Module<'_>) -> Result<(), Error>
    ensures { result ≡ error_of_first FoldHint
        (misplaced_hints_from (hints_of module.now.customs) (imported_count FuncKind module.now.imports) module.now.functions) }
{
    if !has_hints(module.customs()) {
        return Ok(());
    }
    let first = module.imported_count(ExternKind::Func);
    let mut hints = hints_of(module.customs());
    for index in 0..module.function_count() {
        let function = module.function(index);
        let number = first + u64::from(index);
        check_body(hints.next_function(number), function.body())?;
    }
    Ok(())
}
