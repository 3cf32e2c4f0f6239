//! Parameters and locals (section 6.6 of the WebAssembly Core Specification, "Functions" and "Type Uses"). A
//! variable with an identifier has a group of its own; adjacent variables without identifiers share a group.
ghost use Rattle.std.specs.Prelude.{◌≡◌, ◌∷◌, ◌++◌, Some, codes, option_map};
ghost use Rattle.wasmprinter_spec.specs.Layout.Groups.{line_group};
ghost use Rattle.wasmprinter_spec.specs.Layout.Types.{parameters_of};
ghost use Rattle.wasmprinter_spec.specs.Layout.Identifiers.{id_and_name_space_pieces};
ghost use Rattle.wasmprinter_spec.specs.Layout.ValTypes.{val_pieces};
ghost use Rattle.wasmprinter_spec.specs.Layout.Variables.{variable_groups, groups_pieces};
ghost use Rattle.wasmprinter_spec.specs.Piece.{OneSpace};
ghost use Rattle.wasmprinter_custom.specs.Shown.{identifier_view, names_of_identifiers};
ghost use Rattle.wasmprinter_ops.specs.ValTypes.{val_type_view, val_types_view};
ghost use Rattle.wasmprinter_text.specs.Variables.{front_pieces, end_pieces, before_next, first_pieces, unnamed_pieces, variable_pieces};

use crate::declarations_and_indices::write_id_and_name_space;
use crate::parens_and_words::{open_group, write_close_paren, write_space};
use crate::types::{write_space_val_type, write_val_type};
use wasmprinter_custom::{Identifier, Identifiers, Space};
use wasmprinter_ops::{ValType, ValTypes};
use wasmprinter_print::Output;

/// The state of the text before a variable.
#[derive(Clone, Copy)]
pub enum Before {
    /// The start of a line: no space comes before the variable.
    Line,
    /// No group is open, and the text before the variable is on the same line.
    ClosedGroup,
    /// A group of variables without identifiers is open.
    Open,
}

/// Returns the identifier of a variable of the function `owner`, or `None` for a parameter without a function.
fn variable<'n>(
    identifiers: &Identifiers<'n, '_>,
    owner: Option<u64>,
    number: u64,
) -> Option<Identifier<'n>>
    ensures { option_map identifier_view result ≡ parameters_of (names_of_identifiers identifiers.now) owner number }
{
    match owner {
        None => None,
        Some(function) => identifiers.item(Space::Local, function, number),
    }
}

/// Writes the text before a new group: closes the group that is open and writes a space, as far as needed.
fn write_before_group<O: Output>(out: &mut O, before: Before)
    ensures { O.wrote out.old out.new (front_pieces before) }
{
    match before {
        Before::Line => {}
        Before::ClosedGroup => write_space(out),
        Before::Open => {
            write_close_paren(out);
            write_space(out);
        }
    }
}

/// Writes a variable with an identifier as a group.
#[tactic(auto, unfolding(wasmprinter_spec::specs::Layout::Groups::line_group))]
fn write_named_variable<O: Output>(
    out: &mut O,
    identifiers: &Identifiers<'_, '_>,
    keyword: &str,
    identifier: Identifier<'_>,
    value_type: ValType,
)
    ensures { O.wrote out.old out.new
        (line_group keyword.now (OneSpace ∷ (id_and_name_space_pieces (Some (identifier_view identifier.entry))
        ++ val_pieces (names_of_identifiers identifiers.now) (val_type_view value_type)))) }
{
    open_group(out, keyword);
    write_space(out);
    write_id_and_name_space(out, Some(identifier));
    write_val_type(out, identifiers, value_type);
    write_close_paren(out);
}

/// Writes a variable without an identifier as the first of a new group, which stays open.
fn write_first_unnamed<O: Output>(
    out: &mut O,
    identifiers: &Identifiers<'_, '_>,
    keyword: &str,
    before: Before,
    value_type: ValType,
)
    ensures { O.wrote out.old out.new
        (first_pieces (names_of_identifiers identifiers.now) keyword.now before (val_type_view value_type)) }
{
    write_before_group(out, before);
    open_group(out, keyword);
    write_space_val_type(out, identifiers, value_type);
}

/// Writes a variable without an identifier: in the open group, or as the first of a new one.
fn write_unnamed_variable<O: Output>(
    out: &mut O,
    identifiers: &Identifiers<'_, '_>,
    keyword: &str,
    before: Before,
    value_type: ValType,
)
    ensures { O.wrote out.old out.new
        (unnamed_pieces (names_of_identifiers identifiers.now) keyword.now before (val_type_view value_type)) }
{
    match before {
        Before::Open => write_space_val_type(out, identifiers, value_type),
        _ => write_first_unnamed(out, identifiers, keyword, before, value_type),
    }
}

/// Writes a variable and returns the state before the next one.
#[tactic(auto, unfolding(wasmprinter_spec::specs::Layout::Variables::variables_pieces))]
fn write_variable_as<O: Output>(
    out: &mut O,
    identifiers: &Identifiers<'_, '_>,
    identifier: Option<Identifier<'_>>,
    keyword: &str,
    before: Before,
    value_type: ValType,
) -> Before
    ensures pieces { O.wrote out.old out.new
        (variable_pieces (names_of_identifiers identifiers.now) keyword.now before
        (option_map identifier_view identifier.entry) (val_type_view value_type)) }
    ensures next { result ≡ before_next (option_map identifier_view identifier.entry) }
{
    match identifier {
        None => {
            write_unnamed_variable(out, identifiers, keyword, before, value_type);
            Before::Open
        }
        Some(identifier) => {
            write_before_group(out, before);
            write_named_variable(out, identifiers, keyword, identifier, value_type);
            Before::ClosedGroup
        }
    }
}

/// Writes a variable, a parameter or a local, and returns the state before the next one: after a variable with an
/// identifier its group is closed, after another one it is open (`next`). A variable with an identifier has a group of
/// its own. One without joins the group that is open, or opens a new group. Before a new group, an open group is closed
/// and a space is written, except at the start of a line (`pieces`).
///
/// `owner` is the function of the variable, or `None` for a parameter without a function, which has no identifier.
/// `number` is the index of the variable among the parameters and locals. `keyword` is the first word of a new group.
pub fn write_variable<O: Output>(
    out: &mut O,
    identifiers: &Identifiers<'_, '_>,
    owner: Option<u64>,
    keyword: &str,
    before: Before,
    number: u64,
    value_type: ValType,
) -> Before
    ensures pieces { O.wrote out.old out.new
        (variable_pieces (names_of_identifiers identifiers.now) keyword.now before
        (parameters_of (names_of_identifiers identifiers.now) owner number) (val_type_view value_type)) }
    ensures next { result ≡ before_next (parameters_of (names_of_identifiers identifiers.now) owner number) }
{
    let identifier = variable(identifiers, owner, number);
    write_variable_as(out, identifiers, identifier, keyword, before, value_type)
}

/// Closes the group that is open after the last variable, if there is one.
pub fn close_variables<O: Output>(out: &mut O, before: Before)
    ensures { O.wrote out.old out.new (end_pieces before) }
{
    if let Before::Open = before {
        write_close_paren(out);
    }
}

/// Writes parameters in their groups, with a space before each group. `owner` is the function of the parameters, or
/// `None` for parameters without a function.
pub(crate) fn write_params<O: Output>(
    out: &mut O,
    identifiers: &Identifiers<'_, '_>,
    owner: Option<u64>,
    types: &ValTypes<'_>,
)
    ensures { O.wrote out.old out.new
        (groups_pieces (names_of_identifiers identifiers.now) (codes "param")
        (variable_groups (parameters_of (names_of_identifiers identifiers.now) owner) 0 (val_types_view types.now))) }
{
    let mut before = Before::ClosedGroup;
    for (number, value_type) in (0..u64::from(types.len())).zip(types.iter()) {
        if out.has_failed() {
            return;
        }
        before = write_variable(out, identifiers, owner, "param", before, number, value_type);
    }
    close_variables(out, before);
}
