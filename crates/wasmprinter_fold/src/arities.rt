//! The number of operands that an operator takes from the stack and of results that it gives, at its position in a
//! module (section 3.4 of the WebAssembly Core Specification, "Instructions").
ghost use Rattle.std.specs.Prelude.{◌≡◌};
ghost use Rattle.wasmprinter_spec.specs.Folding.Arities.{counts_of, signatures_within};
ghost use Rattle.wasmprinter_fold.specs.Counted.{counts_view};

pub mod block_types;
pub mod counts;
pub mod function_and_tag_types;
pub mod label_arities;
mod referenced_items;
mod resolve_arity;

use crate::arities::counts::{Counts, NOTHING};
use crate::arities::function_and_tag_types::FunctionAndTagTypes;
use crate::arities::label_arities::LabelCounts;
use crate::arities::resolve_arity::counts_by_arity;
use wasmprinter_ops::opcode_shapes_arities_and_roles::Listed;
use wasmprinter_ops::operator::Operator;

/// Returns the number of operands that an operator takes and of results that it gives. `labels` are those open
/// before it. `own` is the number of results of the enclosing function: 0 in a constant expression, `None` if the
/// function's type is unknown.
///
/// Counts saturate at the greatest 32-bit number. An operator takes and gives nothing if the item that it refers to
/// is unknown. A block takes nothing, whatever its parameters are. Contracts see `callees` as the module, and `labels`
/// as the numbers of values that branches to the open labels take, the innermost first.
pub fn counts_of(
    callees: &FunctionAndTagTypes,
    own: Option<u32>,
    labels: &LabelCounts,
    operator: &Operator<'_>,
) -> Counts
    ensures { counts_view result
        ≡ counts_of (signatures_within callees.now own) labels.now operator.now }
{
    let Some(arity) = operator.opcode.arity() else {
        return NOTHING;
    };
    counts_by_arity(callees, own, labels, arity, &operator.immediates).unwrap_or(NOTHING)
}
