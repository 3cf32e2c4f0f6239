//! Finding a function of a module: its index by its identifier, and its range of places by its index.
ghost use Rattle.std.specs.Prelude.{◌≡◌, ◌↔◌, ◌<◌, ◌^◌, ℕ, IsTrue, IfOk, MatchOption, length, slice_get, map};
ghost use Rattle.wasmprinter_spec.specs.Names.{name_in};
ghost use Rattle.wasmprinter_spec.specs.Names.Section.{function_subsection};
ghost use Rattle.wasmprinter_custom.specs.Shown.{identifier_view};
ghost use Rattle.wasmprinter_custom.specs.Views.{name_at};
ghost use Rattle.wasm2text.specs.FunctionText.{is_in, body_range, function_ranges, HasContent, IsNamed, HasRange, function_view};

use crate::function_ref::FunctionRef;
use std::alloc::{AllocError, Global};
use wasmprinter::wasm::{Module, Space};
use wasmprinter_custom::{Identifier, Identifiers};
use wasmprinter_decoder::{ExternKind, Fields};

/// A range of places, which are byte offsets from the start of the module.
#[derive(Clone, Copy)]
pub struct PlaceRange {
    /// The first place.
    pub first: u64,
    /// The last place.
    pub last: u64,
}

impl PlaceRange {
    /// Returns whether a line has a place in the range.
    pub fn contains(self, place: Option<u64>) -> bool
        ensures { result ≡ is_in self place }
    {
        match place {
            Some(place) => self.first <= place && place <= self.last,
            None => false,
        }
    }
}

/// Returns the range of places of a function, or `None` if the module has no such function.
pub fn range_of_function(
    alloc: Global,
    module: &Module<'_>,
    synthesizes: bool,
    function: FunctionRef<'_>,
) -> Result<Option<PlaceRange>, AllocError>
    ensures { IfOk result (λ found. MatchOption found ((range : PlaceRange) → HasRange synthesizes «module».now (function_view function.entry) range → ⊥)
        (HasRange synthesizes «module».now (function_view function.entry))) }
{
    let index = match function {
        FunctionRef::Index(index) => Some(index),
        FunctionRef::Identifier(word) => index_of_identifier(alloc, module, synthesizes, word)?,
    };
    match index {
        Some(index) => Ok(range_of_index(module, index)),
        None => Ok(None),
    }
}

/// Returns the range of places of the function with this index, or `None` if there is no such function. Imported
/// functions are counted.
fn range_of_index(module: &Module<'_>, index: u64) -> Option<PlaceRange>
    ensures { result ≡ slice_get (function_ranges «module».now) index }
{
    let mut left = index;
    for import in module.imports() {
        if import.is_of(ExternKind::Func) {
            if left == 0 {
                return Some(PlaceRange {
                    first: import.place(),
                    last: import.place(),
                });
            }
            left -= 1;
        }
    }
    range_of_body(module, left)
}

/// Returns the range of places of the body with this index among the defined functions, or `None` if there is no such
/// function.
fn range_of_body(module: &Module<'_>, index: u64) -> Option<PlaceRange>
    ensures { result ≡ slice_get (map body_range «module».now.functions) index }
{
    if index >= u64::from(module.function_count()) {
        return None;
    }
    let body = module.body(index as u32)?;
    Some(PlaceRange {
        first: body.place(),
        last: body.end(),
    })
}

/// Returns the index of the function whose identifier is this word after a dollar sign, or `None` if there is no such
/// function.
fn index_of_identifier(
    alloc: Global,
    module: &Module<'_>,
    synthesizes: bool,
    word: &str,
) -> Result<Option<u64>, AllocError>
    ensures { IfOk result (λ found. MatchOption found
        ((n : ℕ) → n < length (function_ranges «module».now) → IsNamed synthesizes «module».now word.now n → ⊥)
        (λ n. (n < length (function_ranges «module».now)) × IsNamed synthesizes «module».now word.now n)) }
{
    // Only an allocation can fail.
    let names = module.names(alloc).map_err(|_| AllocError)?;
    let identifiers = Identifiers {
        names: &names,
        synthesizes,
    };
    let count = module.imported_count(ExternKind::Func) + u64::from(module.function_count());
    for index in 0..count {
        if has_content(alloc, &identifiers, index, word)? {
            return Ok(Some(index));
        }
    }
    Ok(None)
}

/// Returns whether a function has an identifier, and it is this word after a dollar sign.
fn has_content(
    alloc: Global,
    identifiers: &Identifiers<'_, '_>,
    index: u64,
    word: &str,
) -> Result<bool, AllocError>
    ensures { IfOk result (λ is. IsTrue is
        ↔ HasContent (name_in identifiers.now.synthesizes (name_at identifiers.now.names.now) function_subsection 0 index) word.now) }
{
    match identifiers.item(Space::Func, 0, index) {
        Some(Identifier::Given(name)) => Ok(name.content == word),
        Some(Identifier::Synthesized { space, number }) => {
            let group = space.word();
            Ok(format!(in alloc; "#{group}{number}")?.as_str() == word)
        }
        None => Ok(false),
    }
}
