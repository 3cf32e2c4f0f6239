//! The items of a module, with the names that count (appendix "Name Section" of the WebAssembly Core Specification).
ghost use Rattle.std.specs.Prelude.{◌≡◌, IfOk, option_map};
ghost use Rattle.wasmprinter_spec.specs.Names.Section.{module_subsection};
ghost use Rattle.wasmprinter_custom.specs.Spaces.{id_of, outer_of};
ghost use Rattle.wasmprinter_custom.specs.Views.{name_view};
ghost use Rattle.wasmprinter_hidden.specs.HiddenNames.{is_replaced};
ghost use Rattle.wasmprinter_hidden.specs.NamedItems.{is_other};

use crate::name_counts::NameCounts;
use std::alloc::{AllocError, Global};
use std::marker::Model;
use wasmprinter_custom::{Name, NameEntries, Names, Space};
use wasmprinter_decoder::Module;

/// The numbers of a module's items, and the names that its name sections give the items. Contracts see them as the module.
///
/// [`NamedItems::new`] reads the name sections once. To look up a name takes logarithmic time at most, and no memory. (The
/// contracts do not say so.)
#[derive(Drop)]
pub(crate) struct NamedItems<'m, 'a> {
    counts: NameCounts<'m, 'a>,
    names: Names<'a>,
}

impl<'m, 'a> Model for NamedItems<'m, 'a> {
    ghost use Rattle.wasmprinter_spec.specs.Placed.{PlacedModule};
    ghost use Rattle.wasmprinter_hidden.specs.NamedItems.{HaveNames};

    ghost Value = { PlacedModule };

    ghost view = { λ n. n.counts };

    ghost invariant = { λ n. HaveNames n.counts n.names };
}

/// Reports whether there is a name that counts, and it differs from the other name.
fn is_other(counted: Option<Name<'_>>, name: &str) -> bool
    ensures { result ≡ is_other (option_map name_view counted.entry) name.now }
{
    match counted {
        Some(counted) => counted.given != name,
        None => false,
    }
}

impl<'m, 'a> NamedItems<'m, 'a> {
    /// Counts the items of the module, and reads its name sections.
    pub(crate) fn new(alloc: Global, module: &'m Module<'a>) -> Result<Self, AllocError>
        ensures { IfOk result (λ n. n ≡ «module».now) }
    {
        let counts = NameCounts::new(alloc, module)?;
        // Only an allocation can fail.
        let names = module.names(alloc).map_err(|_| AllocError)?;
        Ok(NamedItems { counts, names })
    }

    /// Returns the module.
    pub(crate) fn module(&self) -> &'m Module<'a>
        ensures { result.now ≡ self.now }
    {
        self.counts.module()
    }

    /// Returns the numbers of the items.
    pub(crate) fn counts(&self) -> &NameCounts<'m, 'a>
        ensures { result.now ≡ self.now }
    {
        &self.counts
    }

    /// Reports whether the name that counts for an item differs from this name. `outer` is the function or type of the
    /// item; it is ignored if the space is one of the module.
    pub(crate) fn is_replaced(&self, space: Space, outer: u32, index: u32, name: &str) -> bool
        ensures { result ≡ is_replaced self.now (id_of space) (outer_of space outer) index name.now }
    {
        let counted = self.names.name(space, u64::from(outer), u64::from(index));
        is_other(counted, name)
    }

    /// Reports whether the name that counts for the module differs from this name.
    pub(crate) fn is_module_replaced(&self, name: &str) -> bool
        ensures { result ≡ is_replaced self.now module_subsection 0 0 name.now }
    {
        is_other(self.names.module_name(), name)
    }
}
