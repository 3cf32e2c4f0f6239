//! Items at their declarations and indices that refer to them: by identifier if the item has one, otherwise by number
//! (section 6.3 of the WebAssembly Core Specification, "Identifiers").
ghost use Rattle.std.specs.Prelude.{[], ◌∷◌, Some, chars, option_map};
ghost use Rattle.wasmprinter_spec.specs.Piece.{OneSpace, NameAnnotation, Identifier as IdentifierPiece};
ghost use Rattle.wasmprinter_spec.specs.Layout.Groups.{line_group_space};
ghost use Rattle.wasmprinter_spec.specs.Layout.Identifiers.{given_pieces, id_and_name_pieces, leading_id_and_name_pieces, id_and_name_space_pieces};
ghost use Rattle.wasmprinter_spec.specs.Layout.Identifiers.{identifier_space_pieces, declaration_pieces, index_pieces};
ghost use Rattle.wasmprinter_custom.specs.Shown.{identifier_view};
ghost use Rattle.wasmprinter_custom.specs.Views.{name_view};
ghost use Rattle.wasmprinter_text.specs.Items.{item_of};

use crate::comments::write_index_comment;
use crate::identifiers::{
    write_identifier as write_content, write_name_annotation, write_synthesized_identifier,
};
use crate::parens_and_words::{
    begin_name, end_style, open_group_space, write_close_paren, write_in_style, write_space,
};
use itoa::Buffer;
use wasmprinter_custom::{Identifier, Identifiers, Name, Space};
use wasmprinter_print::{Output, Style};

/// Writes an identifier.
fn write_identifier<O: Output>(out: &mut O, identifier: Identifier<'_>)
    ensures { O.wrote out.old out.new
        (IdentifierPiece (chars (identifier_view identifier.entry).content) ∷ []) }
{
    match identifier {
        Identifier::Given(name) => write_content(out, name.content),
        Identifier::Synthesized { space, number } => {
            write_synthesized_identifier(out, space.word(), number);
        }
    }
}

/// Writes a space and a name annotation.
fn write_space_name_annotation<O: Output>(out: &mut O, name: &str)
    ensures { O.wrote out.old out.new (OneSpace ∷ (NameAnnotation (chars name.now) ∷ [])) }
{
    write_space(out);
    write_name_annotation(out, name);
}

/// Writes a space and a name annotation if the identifier differs from the given name.
fn write_given_name<O: Output>(out: &mut O, name: Name<'_>)
    ensures { O.wrote out.old out.new (given_pieces (Some name.entry.given.now) name.entry.content.now) }
{
    if name.given != name.content {
        write_space_name_annotation(out, name.given);
    }
}

/// Writes the identifier of a name, then the given name as an annotation if it differs.
#[tactic(auto, unfolding(wasmprinter_spec::specs::Layout::Identifiers::id_and_name_pieces))]
fn write_name<O: Output>(out: &mut O, name: Name<'_>)
    ensures { O.wrote out.old out.new (id_and_name_pieces (name_view name.entry)) }
{
    write_content(out, name.content);
    write_given_name(out, name);
}

/// Writes an identifier without a style of its own. If a name was given that differs from the characters after the
/// dollar sign, a space and the annotation `(@name "..")` with that name follow. The annotation ends the style of the
/// text before it.
#[tactic(auto, unfolding(wasmprinter_spec::specs::Layout::Identifiers::id_and_name_pieces))]
pub fn write_id_and_name<O: Output>(out: &mut O, identifier: Identifier<'_>)
    ensures { O.wrote out.old out.new (id_and_name_pieces (identifier_view identifier.entry)) }
{
    match identifier {
        Identifier::Given(name) => write_name(out, name),
        Identifier::Synthesized { .. } => write_identifier(out, identifier),
    }
}

/// Writes a space, an identifier and its annotation as [`write_id_and_name`] does. Writes nothing for `None`.
#[tactic(auto, unfolding(wasmprinter_spec::specs::Layout::Identifiers::leading_id_and_name_pieces))]
pub fn write_leading_id_and_name<O: Output>(out: &mut O, identifier: Option<Identifier<'_>>)
    ensures { O.wrote out.old out.new
        (leading_id_and_name_pieces (option_map identifier_view identifier.entry)) }
{
    if let Some(identifier) = identifier {
        write_space(out);
        write_id_and_name(out, identifier);
    }
}

/// Writes an identifier and its annotation as [`write_id_and_name`] does, then a space. Writes nothing for `None`.
#[tactic(auto, unfolding(wasmprinter_spec::specs::Layout::Identifiers::id_and_name_space_pieces))]
pub(crate) fn write_id_and_name_space<O: Output>(out: &mut O, identifier: Option<Identifier<'_>>)
    ensures { O.wrote out.old out.new
        (id_and_name_space_pieces (option_map identifier_view identifier.entry)) }
{
    if let Some(identifier) = identifier {
        write_id_and_name(out, identifier);
        write_space(out);
    }
}

/// Writes an identifier and a space. Writes nothing for `None`.
#[tactic(auto, unfolding(wasmprinter_spec::specs::Layout::Identifiers::identifier_space_pieces))]
pub(crate) fn write_identifier_space<O: Output>(out: &mut O, identifier: Option<Identifier<'_>>)
    ensures { O.wrote out.old out.new
        (identifier_space_pieces (option_map identifier_view identifier.entry)) }
{
    if let Some(identifier) = identifier {
        write_identifier(out, identifier);
        write_space(out);
    }
}

/// Writes the declaration of an item: its identifier with its annotation, if it has one, and its number in a comment.
#[tactic(auto, unfolding(wasmprinter_spec::specs::Layout::Identifiers::declaration_pieces))]
fn write_declaration<O: Output>(out: &mut O, identifier: Option<Identifier<'_>>, number: u64)
    ensures { O.wrote out.old out.new
        (declaration_pieces (option_map identifier_view identifier.entry) number) }
{
    begin_name(out);
    write_id_and_name_space(out, identifier);
    write_index_comment(out, number);
    end_style(out);
}

/// Writes an index in the style of names: the identifier of the item, without its annotation, or its number in decimal
/// for `None`. `number` is not used if there is an identifier.
#[tactic(auto, unfolding(wasmprinter_spec::specs::Layout::Identifiers::index_pieces))]
pub fn write_index<O: Output>(out: &mut O, identifier: Option<Identifier<'_>>, number: u64)
    ensures { O.wrote out.old out.new
        (index_pieces (option_map identifier_view identifier.entry) number) }
{
    match identifier {
        None => write_in_style(out, Style::Name, Buffer::new().format(number)),
        Some(identifier) => {
            begin_name(out);
            write_identifier(out, identifier);
            end_style(out);
        }
    }
}

/// Writes the declaration of an item of an index space in the style of names: its identifier with its annotation as
/// [`write_id_and_name`] does and a space, if it has an identifier, then a comment `(;n;)` with its index, which has no
/// style after an annotation. `outer` is the function of a local or label or the type of a field; it is ignored for
/// items of other spaces. The identifier is that of [`Identifiers::item`]; it is not checked that the module has such
/// an item. For labels see [`write_index_of`].
pub fn write_declaration_of<O: Output>(
    out: &mut O,
    identifiers: &Identifiers<'_, '_>,
    space: Space,
    outer: u64,
    number: u64,
)
    ensures { O.wrote out.old out.new
        (declaration_pieces (item_of identifiers.now space outer number) number) }
{
    write_declaration(out, identifiers.item(space, outer, number), number);
}

/// Writes an index into an index space in the style of names: the identifier of the item ([`Identifiers::item`]) or, if
/// it has none, the number in decimal. `outer` is the function of a local or label or the type of a field; it is
/// ignored for other spaces. The index may refer to nothing: it is not checked that the module has such an item. The
/// number of a label counts the blocks of the function as they open, also in a synthesized identifier. The labels in
/// operators are written by other functions; synthesized, they have the number of blocks around theirs.
pub fn write_index_of<O: Output>(
    out: &mut O,
    identifiers: &Identifiers<'_, '_>,
    space: Space,
    outer: u64,
    number: u64,
)
    ensures { O.wrote out.old out.new
        (index_pieces (item_of identifiers.now space outer number) number) }
{
    write_index(out, identifiers.item(space, outer, number), number);
}

/// Writes a group of a keyword, a space and an index into an index space of the module, on the current line. The index
/// is written as [`write_index_of`] does, with 0 for `outer`.
#[tactic(auto, unfolding(wasmprinter_spec::specs::Layout::Groups::line_group_space))]
pub fn write_index_group<O: Output>(
    out: &mut O,
    identifiers: &Identifiers<'_, '_>,
    keyword: &str,
    space: Space,
    index: u32,
)
    ensures { O.wrote out.old out.new
        (line_group_space keyword.now (index_pieces (item_of identifiers.now space 0 index) index)) }
{
    open_group_space(out, keyword);
    write_index_of(out, identifiers, space, 0, u64::from(index));
    write_close_paren(out);
}
