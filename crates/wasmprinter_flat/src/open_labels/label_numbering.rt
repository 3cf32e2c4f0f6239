//! Labels with names, each with a number that is the same for equal given names.
ghost use Rattle.std.specs.Prelude.{◌≡◌, List, [], ℕ, bytes_eq, unwrap_or, if◌then◌else◌, Some, map, IfOk, IsOk};
ghost use Rattle.wasmprinter_flat.specs.OpenLabels.Numbers.{number_of, AreNumbered};

use std::alloc::{AllocError, Global};
use std::collections::BTreeMap;
use wasmprinter_custom::LabelName;

/// A label with a name, and the number of its given name.
#[derive(Clone, Copy)]
pub(crate) struct NumberedLabel<'n> {
    pub(crate) label: LabelName<'n>,
    /// A number that is the same for labels with equal given names.
    pub(crate) name_number: usize,
}

/// Returns the number of a given name. A name without a number gets `next`.
fn number<'n>(
    numbers: &mut BTreeMap<&'n str, usize>,
    given: &'n str,
    next: usize,
) -> Result<usize, AllocError>
    ensures number { IfOk result (λ n. n ≡ unwrap_or (number_of numbers.old given.now) next) }
    ensures known { IfOk result (λ n. (q : List ℕ)
        → number_of numbers.new q ≡ (if bytes_eq given.now q then Some n else number_of numbers.old q)) }
{
    if let Some(number) = numbers.get(given) {
        return Ok(*number);
    }
    numbers.insert(given, next)?;
    Ok(next)
}

/// Returns the labels, each with the number of its given name.
pub(crate) fn numbered_labels<'n>(
    alloc: Global,
    labels: &[LabelName<'n>],
) -> Result<Vec<NumberedLabel<'n>>, AllocError>
    ensures labels { IfOk result (λ v. map (λ x. x.label) v.items ≡ labels.now) }
    ensures numbers { IfOk result (λ v. AreNumbered v.items) }
    ensures succeeds { labels.now ≡ [] → IsOk result }
{
    let mut numbers = BTreeMap::new(alloc);
    let mut numbered = Vec::with_capacity(alloc, labels.len())?;
    for label in labels {
        let name_number = number(&mut numbers, label.name.given, numbered.len())?;
        numbered.push(NumberedLabel {
            label: *label,
            name_number,
        })?;
    }
    Ok(numbered)
}
