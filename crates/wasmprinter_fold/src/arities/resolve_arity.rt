//! The operands and results of an operator, by its arity in the table of operators. If the operator refers to a
//! type, a function, a tag or a label, they depend on that item of the module (section 3.4 of the WebAssembly Core
//! Specification, "Instructions").
ghost use Rattle.std.specs.Prelude.{◌≡◌};
ghost use Rattle.wasmprinter_spec.specs.Folding.Arities.{counts as counts_by_arity};
ghost use Rattle.wasmprinter_spec.specs.Folding.Arities.{signatures_within};
ghost use Rattle.wasmprinter_ops.specs.Arities.{arity_view};
ghost use Rattle.wasmprinter_ops.specs.Immediates.{immediates_view};
ghost use Rattle.wasmprinter_fold.specs.Counted.{known_view};

use crate::arities::counts::{Counts, counts_of_call, one_more, operands_and_results};
use crate::arities::function_and_tag_types::FunctionAndTagTypes;
use crate::arities::label_arities::LabelCounts;
use crate::arities::referenced_items::{
    block_gives_in, cast_label_in, count_in, field_count_named, function_named, index_in,
    last_label_in, tag_named, type_named,
};
use wasmprinter_ops::opcode_shapes_arities_and_roles::Arity;
use wasmprinter_ops::operator::Immediates;

/// Returns the operands and results of an operator with the arity, or `None` if the item that it refers to is
/// unknown.
pub(crate) fn counts_by_arity(
    callees: &FunctionAndTagTypes,
    own: Option<u32>,
    labels: &LabelCounts,
    arity: Arity,
    immediates: &Immediates<'_>,
) -> Option<Counts>
    ensures { known_view result
        ≡ counts_by_arity (signatures_within callees.now own) labels.now
        (arity_view arity) (immediates_view immediates.now) }
{
    let call = || counts_of_call(function_named(callees, immediates));
    let indirect = || counts_of_call(type_named(callees, immediates));
    let tag = || counts_of_call(tag_named(callees, immediates));
    let label = || labels.find_if_any(own, index_in(immediates));
    let last_label = || labels.find_if_any(own, last_label_in(immediates));
    let cast_label = || labels.find_if_any(own, cast_label_in(immediates));
    match arity {
        Arity::Fixed(operands, results) => Some(operands_and_results(operands, results)),
        Arity::OfCall => call(),
        Arity::OfReturnCall => call().map(|of| operands_and_results(of.operands, 0)),
        Arity::OfIndirectCall => indirect().map(|of| operands_and_results(
            one_more(of.operands),
            of.results,
        )),
        Arity::OfReturnIndirectCall => indirect().map(|of| operands_and_results(
            one_more(of.operands),
            0,
        )),
        Arity::OfThrow => tag().map(|of| operands_and_results(of.operands, 0)),
        Arity::OfReturn => own.map(|n| operands_and_results(n, 0)),
        Arity::OfBranch => label().map(|v| operands_and_results(v, 0)),
        Arity::OfBranchIf => label().map(|v| operands_and_results(one_more(v), v)),
        Arity::OfBranchTable => last_label().map(|v| operands_and_results(one_more(v), 0)),
        Arity::OfBranchOnNull => label().map(|v| operands_and_results(one_more(v), one_more(v))),
        Arity::OfBranchOnNonNull => label().map(|v| operands_and_results(v, v.saturating_sub(1))),
        Arity::OfBranchOnCast => cast_label().map(|v| operands_and_results(v, v)),
        Arity::OfBlock => block_gives_in(callees, immediates).map(|n| operands_and_results(0, n)),
        Arity::OfStruct => field_count_named(callees, immediates).map(|n| operands_and_results(
            n, 1,
        )),
        Arity::OfCount => count_in(immediates).map(|n| operands_and_results(n, 1)),
    }
}
