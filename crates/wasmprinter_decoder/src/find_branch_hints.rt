//! The branch hints of a module (Code Metadata, a document beside the standard).
ghost use Rattle.std.specs.Prelude.{◌≡◌};
ghost use Rattle.wasmprinter_spec.specs.Customs.Hints.{hints_of};

use crate::custom_section_positions::CustomEntry;
use wasmprinter_custom::{Hints, is_hint_section};

/// Returns the branch hints of a module's custom sections: those of the last section with the name
/// `metadata.code.branch_hint`. Returns no hints if there is no such section, or if the last one is malformed, has
/// hints for more than 1,000,000 functions, or has more than 131,071 hints for a function.
pub fn hints_of<'a>(customs: &[CustomEntry<'a>]) -> Hints<'a>
    ensures { result ≡ hints_of customs.now }
{
    let mut last = None;
    for entry in customs {
        if is_hint_section(entry.section.name()) {
            last = Some(&entry.section);
        }
    }
    match last {
        Some(section) => {
            let content = section.cursor();
            prove!(content.end() <= u64::MAX);
            Hints::of_section(content.place(), content.rest())
        }
        None => Hints::none(),
    }
}
