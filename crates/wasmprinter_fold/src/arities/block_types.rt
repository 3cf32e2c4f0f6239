//! Operands and results of blocks, by their types (section 3.2 of the WebAssembly Core Specification, "Block Types").
ghost use Rattle.std.specs.Prelude.{◌≡◌, ℕ, Option, length, option_map};
ghost use Rattle.wasmprinter_spec.specs.Types.{signature_at};
ghost use Rattle.wasmprinter_spec.specs.Folding.Arities.{types_of, signatures_within};
ghost use Rattle.wasmprinter_spec.specs.Folding.Arities.{block_operands, block_results};
ghost use Rattle.wasmprinter_ops.specs.Blocks.{block_type_view};

use crate::arities::counts::{parameter_count_of, result_count_of};
use crate::arities::function_and_tag_types::FunctionAndTagTypes;
use wasmprinter_ops::block_immediates::BlockType;

/// Returns the number of parameters of the function type with the index, or `None` if there is no such function
/// type.
fn parameter_count(callees: &FunctionAndTagTypes, type_index: u32) -> Option<u32>
    ensures { result ≡ option_map (λ t. length t.params)
        (signature_at (types_of callees.now) type_index) }
{
    match callees.signature(type_index) {
        Some(func_type) => Some(parameter_count_of(&func_type)),
        None => None,
    }
}

/// Returns the number of results of the function type with the index, or `None` if there is no such function type.
fn result_count(callees: &FunctionAndTagTypes, type_index: u32) -> Option<u32>
    ensures { result ≡ option_map (λ t. length t.results)
        (signature_at (types_of callees.now) type_index) }
{
    match callees.signature(type_index) {
        Some(func_type) => Some(result_count_of(&func_type)),
        None => None,
    }
}

/// Returns the number of parameters of a block with the type.
pub(crate) fn block_operands(callees: &FunctionAndTagTypes, block_type: BlockType) -> Option<u32>
    // The enclosing function does not matter.
    ensures { (own : Option ℕ) →
        result ≡ block_operands (signatures_within callees.now own) (block_type_view block_type) }
{
    match block_type {
        BlockType::Empty | BlockType::Value(_) => Some(0),
        BlockType::Func(type_index) => parameter_count(callees, type_index),
    }
}

/// Returns the number of results of a block with the type.
pub(crate) fn block_results(callees: &FunctionAndTagTypes, block_type: BlockType) -> Option<u32>
    // The enclosing function does not matter.
    ensures { (own : Option ℕ) →
        result ≡ block_results (signatures_within callees.now own) (block_type_view block_type) }
{
    match block_type {
        BlockType::Empty => Some(0),
        BlockType::Value(_) => Some(1),
        BlockType::Func(type_index) => result_count(callees, type_index),
    }
}
