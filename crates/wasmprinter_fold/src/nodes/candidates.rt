//! The nodes that the next operators may take as operands, and the search for operands among them.
ghost use Rattle.std.specs.Prelude.{◌≡◌, ◌≤◌, ◌<◌, ℕ, List, [], ◌∷◌, ◌++◌, length, OnOk};
ghost use Rattle.std.specs.List.Sorted.{IsNonDecreasingBy};
ghost use Rattle.wasmprinter_spec.specs.Folding.Tree.{NodesOf, operand_search, front};
ghost use Rattle.wasmprinter_fold.specs.declared.nodes.NodeText.{NodeText};
ghost use Rattle.wasmprinter_fold.specs.declared.nodes.candidates.Candidate.{Candidate};
ghost use Rattle.wasmprinter_fold.specs.Candidates.{candidates, candidate_after, total_of, sum_at, outcome, IsSplit, IsCut, IsOperandsCut, IsEndOf, IsLimited};

use std::alloc::AllocError;

/// A node of an open part, which is in no other node yet.
#[derive(Clone, Copy, Debug)]
pub struct Candidate {
    /// The index of its first node: the first one that it holds, or itself if it holds none.
    pub start: usize,
    /// The sum of the results of the candidates of its part, up to and including this one.
    pub sum: u128,
}

/// The outcome of a search for operands.
#[derive(Clone, Copy, Debug)]
pub enum Taken {
    /// The operands were found. This is the number of candidates before them.
    From(usize),
    /// The sum of results exceeded the number of operands without ever being equal to it.
    Overshot,
    /// There are too few results, or the operator takes no operands.
    TooFew,
}

/// A position in a row of candidates: between two of them, before the first or after the last.
#[derive(Clone, Copy, Debug)]
pub struct Cut {
    /// The number of candidates before it.
    pub kept: usize,
    /// The index of the first node after it.
    pub start: usize,
    /// The sum of the results of the candidates before it.
    pub sum: u128,
}

/// The search for operands looks at this many candidates one by one before its step grows.
const NEAREST: usize = 4;

/// Returns the sum of the results of a row.
fn total(row: &[Candidate]) -> u128
    ensures { result ≡ total_of row.now }
{
    match row.split_last() {
        Some((last, _)) => last.sum,
        None => 0,
    }
}

/// Returns the number of candidates whose sum is at most `limit`. The sums from `end` on are greater.
///
/// The search doubles its distance from the end of the row. So it looks at O(log n) candidates, where n is the number
/// of those that it does not count.
fn count_within_far(row: &[Candidate], limit: u128, end: usize) -> usize
    requires rising { IsNonDecreasingBy (λ (c : Candidate). c.sum) row.now }
    requires within { end ≤ length row.now }
    requires above { (k : ℕ) → end ≤ k → k < length row.now → limit < sum_at row.now k }
    ensures { IsSplit row.now limit result }
{
    let mut low = 0;
    let mut high = end;
    'probes: while low < high {
        let half = (high - low) / 2;
        let passed = row.len() - high;
        let middle = high - passed.max(1).min(half + 1);
        if row[middle].sum <= limit {
            low = middle + 1;
        } else {
            high = middle;
        }
    }
    low
}

/// Returns the number of candidates whose sum is at most `limit`.
fn count_within(row: &[Candidate], limit: u128) -> usize
    requires { IsNonDecreasingBy (λ (c : Candidate). c.sum) row.now }
    ensures { IsSplit row.now limit result }
{
    let first = row.len().saturating_sub(NEAREST);
    let mut end = row.len();
    'nearest: while end > first {
        if row[end - 1].sum <= limit {
            return end;
        }
        end -= 1;
    }
    count_within_far(row, limit, end)
}

/// Searches a row for the operands of an operator that takes `operands` values. If the row is that of the nodes `f`,
/// from index `first` on, the result is that of the search which the definition makes in `f` (`operand_search`).
pub fn find_operands(row: &[Candidate], operands: u32) -> Taken
    requires { (first : ℕ) × (f : NodesOf NodeText) × (row.now ≡ candidates first f) }
    ensures { (first : ℕ) (f : NodesOf NodeText) → row.now ≡ candidates first f → result ≡ outcome (operand_search operands f) }
{
    let Some((last, earlier)) = row.split_last() else {
        return Taken::TooFew;
    };
    let needed = u128::from(operands);
    if operands == 0 || last.sum < needed {
        return Taken::TooFew;
    }
    let limit = last.sum - needed;
    let kept = count_within(earlier, limit);
    if total(&earlier[..kept]) == limit || operands == u32::MAX {
        Taken::From(kept)
    } else {
        Taken::Overshot
    }
}

/// Returns the position after the last candidate of a row: all its nodes `f` are before it. `first` is the index of the
/// row's first node, `end` that of the node after the row.
pub fn end_of(row: &[Candidate], end: usize) -> Cut
    ensures { (first : ℕ) (f : NodesOf NodeText) → IsEndOf row.now end first f → IsCut first f result }
{
    Cut {
        kept: row.len(),
        start: end,
        sum: total(row),
    }
}

/// Returns where the operands of a plain operator begin, and the number of results of its node. `end` is the number of
/// all nodes. If no operands are found, the position is after all nodes. The number of results is then `results`, or
/// the greatest 32-bit number if the operands would begin inside the results of one node.
pub fn operands_cut(row: &[Candidate], end: usize, operands: u32, results: u32) -> (Cut, u32)
    requires { (first : ℕ) × (f : NodesOf NodeText) × IsEndOf row.now end first f }
    ensures { (first : ℕ) (f : NodesOf NodeText) → IsEndOf row.now end first f →
        IsOperandsCut first f results (operand_search operands f) result.0 result.1 }
{
    match find_operands(row, operands) {
        Taken::From(kept) => (
            Cut {
                kept,
                start: row[kept].start,
                sum: total(&row[..kept]),
            },
            results,
        ),
        Taken::Overshot => (end_of(row, end), u32::MAX),
        Taken::TooFew => (end_of(row, end), results),
    }
}

/// Returns where the predicate of an `if` begins: the last node of a row `f`, if there is one, after the others
/// (`front f`). Otherwise returns the end of the row. `end` is the index after the last node.
pub fn predicate_of(row: &[Candidate], end: usize) -> Cut
    requires { (first : ℕ) × (f : NodesOf NodeText) × IsEndOf row.now end first f }
    ensures { (first : ℕ) (f : NodesOf NodeText) → IsEndOf row.now end first f → IsCut first (front f) result }
{
    match row.split_last() {
        Some((predicate, before)) => end_of(before, predicate.start),
        None => end_of(row, end),
    }
}

/// Adds a candidate with this number of results. Its node, with the nodes that it holds, starts at the cut, after the
/// nodes `f` of its part.
///
/// Its sum is that of the results of at most `cut.start + 1` nodes, so it is less than 2^97.
///
/// # Errors
///
/// Returns an error if an allocation fails.
pub fn push_candidate(all: &mut Vec<Candidate>, cut: Cut, results: u32) -> Result<(), AllocError>
    requires { (first : ℕ) × (f : NodesOf NodeText) × IsCut first f cut × IsLimited f }
    ensures { OnOk result ((first : ℕ) (f : NodesOf NodeText) →
        IsCut first f cut → all.new.items ≡ all.old.items ++ candidate_after first f results ∷ []) }
{
    all.push(Candidate {
        start: cut.start,
        sum: cut.sum + u128::from(results),
    })?;
    Ok(())
}
