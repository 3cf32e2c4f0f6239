//! The identifiers of a module's items in the text (section 6.3 of the WebAssembly Core
//! Specification, "Identifiers").
ghost use Rattle.std.specs.Prelude.{◌≡◌, Some, None, option_map};
ghost use Rattle.wasmprinter_spec.specs.Names.{name_in};
ghost use Rattle.wasmprinter_spec.specs.Names.Section.{module_subsection};
ghost use Rattle.wasmprinter_custom.specs.Spaces.{id_of, outer_of};
ghost use Rattle.wasmprinter_custom.specs.Views.{name_at};
ghost use Rattle.wasmprinter_custom.specs.Shown.{identifier_view, synthesized_view};

use crate::index_space::Space;
use crate::names::{Name, NameEntries, Names};

/// The identifier of an item.
#[derive(Clone, Copy, Debug, PartialEq, Eq)]
pub enum Identifier<'a> {
    /// The identifier for a name that a name section gives.
    Given(Name<'a>),
    /// A synthesized identifier: the sign `#`, the word for the items of the space, and the number.
    Synthesized { space: Space, number: u64 },
}

/// The names of a module, and whether identifiers are synthesized for items without a name.
#[derive(Clone, Copy)]
pub struct Identifiers<'n, 'a> {
    /// The names that the module's name sections give.
    pub names: &'n Names<'a>,
    /// Whether identifiers are synthesized.
    pub synthesizes: bool,
}

/// Returns a synthesized identifier, or `None` if identifiers are not synthesized.
fn synthesized_identifier<'n>(
    synthesizes: bool,
    space: Space,
    number: u64,
) -> Option<Identifier<'n>>
    ensures { option_map identifier_view result ≡ synthesized_view synthesizes (id_of space) number }
{
    synthesizes.then_some(Identifier::Synthesized { space, number })
}

impl<'n> Identifiers<'n, '_> {
    /// Returns the identifier of an item: that of its name or, if it has none and identifiers are synthesized, a
    /// synthesized one with `number`, and otherwise `None`. `number` is the item's index or, for a label,
    /// [`LabelName::number`](crate::LabelName::number). (In a text, the synthesized identifier of a label has the
    /// number of blocks around it instead.) `outer` is the index of the function of a local or label (imports counted)
    /// or of the type of a field; for other items it is ignored.
    pub fn item(&self, space: Space, outer: u64, number: u64) -> Option<Identifier<'n>>
        ensures { option_map identifier_view result
            ≡ name_in self.now.synthesizes (name_at self.now.names.now) (id_of space) (outer_of space outer) number }
    {
        match self.names.name(space, outer, number) {
            Some(name) => Some(Identifier::Given(name)),
            None => synthesized_identifier(self.synthesizes, space, number),
        }
    }

    /// Returns the identifier of the module, or `None` if the module has no name. It is never synthesized. The clause
    /// looks the name up in `module_subsection`, in no function or type (`0`), at index 0.
    pub fn module(&self) -> Option<Identifier<'n>>
        ensures { option_map identifier_view result ≡ name_at self.now.names.now module_subsection 0 0 }
    {
        self.names.module_name().map(Identifier::Given)
    }
}
