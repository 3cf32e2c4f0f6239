//! The names in the name sections of a module.
ghost use Rattle.std.specs.Prelude.{◌≡◌, ℕ, [], IsOk, IfOk, IfErr};
ghost use Rattle.wasmprinter_bytes.specs.declared.library_error.Error.TheVariants.{Memory};
ghost use Rattle.wasmprinter_spec.specs.Names.Content.{name_of};
ghost use Rattle.wasmprinter_spec.specs.ModuleNames.{name_entries};
ghost use Rattle.wasmprinter_custom.specs.Views.{name_at};

use crate::module::{Fields, Module};
use std::alloc::Global;
use wasmprinter_bytes::Error;
use wasmprinter_custom::{Names, NamesBuilder, read_names};

impl<'a> Module<'a> {
    /// Returns the names in the module's name sections, each with the identifier for it. If they give several names to
    /// an item, the last one counts.
    ///
    /// A name section counts up to its first error, which is not reported. Names of items that do not exist are
    /// returned too.
    ///
    /// In the clause `names`, `s` is the id of a subsection, `outer` the function of a local or a label, the type of a
    /// field, and 0 for any other item, and `index` the item's index.
    ///
    /// # Errors
    ///
    /// - `Memory` if an allocation failed. This can happen only if a name section gives a name. No other error is
    ///   returned.
    pub fn names(&self, alloc: Global) -> Result<Names<'a>, Error>
        ensures names { IfOk result (λ names. (s outer index : ℕ) → name_at names s outer index
            ≡ name_of (name_entries self.now.customs) s outer index) }
        ensures memory { IfErr result (λ e. e ≡ Memory) }

        // Without a name no allocation is needed.
        ensures succeeds { name_entries self.now.customs ≡ [] → IsOk result }
    {
        let mut builder = NamesBuilder::new(alloc);
        for custom in self.customs() {
            if custom.section.is_name_section() {
                read_names(alloc, &mut builder, custom.section.cursor())?;
            }
        }
        Ok(builder.finish(alloc)?)
    }
}
