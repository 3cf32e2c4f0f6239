//! Numbers of operands and results.
ghost use Rattle.std.specs.Prelude.{◌≡◌, length, option_map};
ghost use Rattle.wasmprinter_spec.specs.Folding.Arities.{operands_and_results, saturating_sum};
ghost use Rattle.wasmprinter_fold.specs.Counted.{counts_view};

use wasmprinter_ops::composite_types::FuncType;

/// The number of operands that an operator takes and of results that it gives.
#[derive(Clone, Copy, Debug, PartialEq, Eq)]
pub struct Counts {
    /// The number of operands.
    pub operands: u32,
    /// The number of results.
    pub results: u32,
}

/// No operands and no results.
pub(crate) const NOTHING: Counts = Counts {
    operands: 0,
    results: 0,
};

/// Returns the counts with these numbers of operands and results.
pub(crate) fn operands_and_results(operands: u32, results: u32) -> Counts
    ensures { counts_view result ≡ operands_and_results operands results }
{
    Counts { operands, results }
}

/// Returns `count + 1`, or the greatest 32-bit number if that overflows.
pub(crate) fn one_more(count: u32) -> u32
    ensures { result ≡ saturating_sum count 1 }
{
    count.saturating_add(1)
}

/// Returns the number of parameters of a function type.
pub(crate) fn parameter_count_of(func_type: &FuncType<'_>) -> u32
    ensures { result ≡ length func_type.now.params }
{
    func_type.params().len()
}

/// Returns the number of results of a function type.
pub(crate) fn result_count_of(func_type: &FuncType<'_>) -> u32
    ensures { result ≡ length func_type.now.results }
{
    func_type.results().len()
}

/// Returns the operands and results of a call of a function with the type.
pub(crate) fn counts_of_call(func_type: Option<FuncType<'_>>) -> Option<Counts>
    ensures { option_map counts_view result
        ≡ option_map (λ t. operands_and_results (length t.params) (length t.results)) func_type.entry }
{
    match func_type {
        Some(func_type) => Some(Counts {
            operands: parameter_count_of(&func_type),
            results: result_count_of(&func_type),
        }),
        None => None,
    }
}
