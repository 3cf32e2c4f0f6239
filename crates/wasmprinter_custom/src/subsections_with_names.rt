//! Which subsections of a name section have given names to items.
ghost use Rattle.wasmprinter_custom.specs.Lookups.{AreUsed};

use crate::names::{Key, StoredName};

/// The number of possible subsection ids.
pub(crate) const SUBSECTIONS: usize = 256;

/// Returns for each subsection, by its id, whether one of the items belongs to it.
pub(crate) fn used_subsections(entries: &[(Key, StoredName<'_>)]) -> [bool; SUBSECTIONS]
    ensures { AreUsed entries.now result }
{
    let mut marks = [false; SUBSECTIONS];
    for (key, _) in entries {
        marks[usize::from(key.subsection)] = true;
    }
    marks
}
