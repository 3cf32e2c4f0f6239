//! The items that an operator's immediates refer to (section 5.4 of the WebAssembly Core Specification,
//! "Instructions").
ghost use Rattle.std.specs.Prelude.{◌≡◌, ℕ, Option};
ghost use Rattle.wasmprinter_spec.specs.Folding.Arities.{signatures_within};
ghost use Rattle.wasmprinter_ops.specs.Immediates.{immediates_view};
ghost use Rattle.wasmprinter_fold.specs.Named.{index_in, type_in, last_label_in, cast_label_in, count_in};
ghost use Rattle.wasmprinter_fold.specs.Named.{function_named, tag_named, type_named};
ghost use Rattle.wasmprinter_fold.specs.Named.{field_count_named, block_gives_in};

use crate::arities::block_types::block_results;
use crate::arities::function_and_tag_types::FunctionAndTagTypes;
use wasmprinter_ops::composite_types::FuncType;
use wasmprinter_ops::operator::Immediates;

/// Returns the index, if it is the only immediate.
pub(crate) fn index_in(immediates: &Immediates<'_>) -> Option<u32>
    ensures { result ≡ index_in (immediates_view immediates.now) }
{
    match immediates {
        Immediates::Index(index) => Some(*index),
        _ => None,
    }
}

/// Returns the index of a type, alone or before another index.
fn type_in(immediates: &Immediates<'_>) -> Option<u32>
    ensures { result ≡ type_in (immediates_view immediates.now) }
{
    match immediates {
        Immediates::Index(index) => Some(*index),
        Immediates::Indices(index, _) => Some(*index),
        _ => None,
    }
}

/// Returns the default label of a `br_table`.
pub(crate) fn last_label_in(immediates: &Immediates<'_>) -> Option<u32>
    ensures { result ≡ last_label_in (immediates_view immediates.now) }
{
    match immediates {
        Immediates::BrTable(_, label) => Some(*label),
        _ => None,
    }
}

/// Returns the label of a branch that depends on a cast.
pub(crate) fn cast_label_in(immediates: &Immediates<'_>) -> Option<u32>
    ensures { result ≡ cast_label_in (immediates_view immediates.now) }
{
    match immediates {
        Immediates::Cast(_, label, _, _) => Some(*label),
        _ => None,
    }
}

/// Returns the number after the index of a type.
pub(crate) fn count_in(immediates: &Immediates<'_>) -> Option<u32>
    ensures { result ≡ count_in (immediates_view immediates.now) }
{
    match immediates {
        Immediates::Indices(_, count) => Some(*count),
        _ => None,
    }
}

/// Returns the type of the function that the index refers to.
pub(crate) fn function_named<'a>(
    callees: &FunctionAndTagTypes<'_, 'a>,
    immediates: &Immediates<'_>,
) -> Option<FuncType<'a>>
    ensures { result ≡ function_named callees.now (immediates_view immediates.now) }
{
    callees.function_type(index_in(immediates)?)
}

/// Returns the type of the tag that the index refers to.
pub(crate) fn tag_named<'a>(
    callees: &FunctionAndTagTypes<'_, 'a>,
    immediates: &Immediates<'_>,
) -> Option<FuncType<'a>>
    ensures { result ≡ tag_named callees.now (immediates_view immediates.now) }
{
    callees.tag_type(index_in(immediates)?)
}

/// Returns the function type that the index refers to, alone or with a table.
pub(crate) fn type_named<'a>(
    callees: &FunctionAndTagTypes<'_, 'a>,
    immediates: &Immediates<'_>,
) -> Option<FuncType<'a>>
    ensures { result ≡ type_named callees.now (immediates_view immediates.now) }
{
    callees.signature(type_in(immediates)?)
}

/// Returns the number of fields of the structure type that the index refers to.
pub(crate) fn field_count_named(
    callees: &FunctionAndTagTypes,
    immediates: &Immediates<'_>,
) -> Option<u32>
    ensures { result ≡ field_count_named callees.now (immediates_view immediates.now) }
{
    callees.field_count(index_in(immediates)?)
}

/// Returns the number of results of a block with the block type in the immediates.
pub(crate) fn block_gives_in(
    callees: &FunctionAndTagTypes,
    immediates: &Immediates<'_>,
) -> Option<u32>
    // The enclosing function does not matter.
    ensures { (own : Option ℕ) → result
        ≡ block_gives_in (signatures_within callees.now own) (immediates_view immediates.now) }
{
    match immediates {
        Immediates::Block(block_type) => block_results(callees, *block_type),
        Immediates::TryTable(block_type, _) => block_results(callees, *block_type),
        _ => None,
    }
}
