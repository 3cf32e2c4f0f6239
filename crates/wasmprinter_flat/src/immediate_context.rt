//! The context in which an operator's immediates are printed, and the identifiers of indices (section 6.3 of the
//! WebAssembly Core Specification, "Identifiers").
ghost use Rattle.std.specs.Prelude.{◌≡◌, ◌+◌, ◌<◌, ◌^◌, suc, List, length, option_map};
ghost use Rattle.wasmprinter_spec.specs.Labels.{Label, labels_outside};
ghost use Rattle.wasmprinter_spec.specs.Names.{in_function};
ghost use Rattle.wasmprinter_custom.specs.Shown.{identifier_view, names_of_identifiers};
ghost use Rattle.wasmprinter_custom.specs.Spaces.{id_of};
ghost use Rattle.wasmprinter_ops.specs.Shapes.{role_view, space_view};
ghost use Rattle.wasmprinter_flat.specs.Contexts.{names_in, labels_around, operand_subsection};

use crate::open_labels::OpenLabels;
use crate::operators::Setting;
use wasmprinter_custom::{Identifier, Identifiers, Space as NamedSpace};
use wasmprinter_ops::opcode_shapes_arities_and_roles::{Listed, Opcode, Role, Space};
use wasmprinter_text::type_use::Signatures;

/// The context in which an operator's immediates are printed.
#[derive(Drop)]
pub(crate) struct Context<'c, 's, 'n, 'a, S: Signatures> {
    /// The settings shared by all operators of the list.
    pub(crate) setting: &'c Setting<'s, S>,
    /// The labels that are open before the operator.
    pub(crate) labels: &'c OpenLabels<'n, 'a>,
    /// The opcode of the operator.
    pub(crate) opcode: Opcode,
}

/// Returns the space of names for an index space, or `None` for labels, whose identifiers follow another rule.
fn named_space(space: Space) -> Option<NamedSpace>
    ensures { option_map id_of result ≡ operand_subsection (space_view space) }
{
    match space {
        Space::Types => Some(NamedSpace::Types),
        Space::Func => Some(NamedSpace::Func),
        Space::Table => Some(NamedSpace::Table),
        Space::Memory => Some(NamedSpace::Memory),
        Space::Tag => Some(NamedSpace::Tag),
        Space::Global => Some(NamedSpace::Global),
        Space::Elem => Some(NamedSpace::Elem),
        Space::Data => Some(NamedSpace::Data),
        Space::Local => Some(NamedSpace::Local),
        Space::Label => None,
    }
}

/// Returns the number of open blocks whose labels an operator may refer to. `delegate` cannot refer to its own
/// block.
fn depth_outside(role: Role, depth: u64) -> u64
    ensures { (labels : List Label) → depth ≡ length labels → result ≡ length (labels_outside (role_view role) labels) }
{
    match role {
        Role::Delegates => depth.saturating_sub(1),
        _ => depth,
    }
}

impl<'n, 'a, S: Signatures> Context<'_, '_, 'n, 'a, S> {
    /// Returns the identifiers of the module.
    pub(crate) fn identifiers(&self) -> Identifiers<'n, 'a>
        ensures { names_of_identifiers result ≡ names_in self.now }
    {
        self.labels.identifiers()
    }

    /// Returns the identifier of the item with an index, if it has one. Labels follow another rule.
    pub(crate) fn identifier(&self, space: Space, index: u32) -> Option<Identifier<'n>>
        ensures { option_map identifier_view result
            ≡ in_function (names_in self.now) self.now.setting.now.function (space_view space) index }
    {
        match named_space(space) {
            Some(named) => self
                .identifiers()
                .item(named, self.setting.function, u64::from(index)),
            None => None,
        }
    }

    /// Returns the identifier of a field of a structure type, if it has one.
    pub(crate) fn field(&self, type_index: u32, field: u32) -> Option<Identifier<'n>>
        ensures { option_map identifier_view result ≡ (names_in self.now).fields type_index field }
    {
        self.identifiers()
            .item(NamedSpace::Field, u64::from(type_index), u64::from(field))
    }

    /// Returns the number of the block that the operator opens, if it opens one. Blocks are counted from 1.
    pub(crate) fn block(&self) -> u64
        requires { length self.now.labels.now.labels + 1 < 2 ^ 64 }
        ensures { result ≡ suc (length (labels_around self.now)) }
    {
        depth_outside(self.opcode.role(), self.labels.depth()) + 1
    }
}
