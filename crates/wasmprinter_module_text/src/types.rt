//! Types (section 6.6 of the WebAssembly Core Specification, "Types"), in their recursion groups.
ghost use Rattle.std.specs.Prelude.{◌≡◌, ◌+◌, ◌<◌, ◌^◌, true, codes, length};
ghost use Rattle.wasmprinter_spec.specs.Types.{all_types};
ghost use Rattle.wasmprinter_spec.specs.Module.{groups_of};
ghost use Rattle.wasmprinter_spec.specs.Layout.Groups.{group as group_pieces, numbered_pieces};
ghost use Rattle.wasmprinter_spec.specs.Layout.Types.{member_pieces, group_pieces_by, type_group_pieces, type_section_pieces};
ghost use Rattle.wasmprinter_flat.specs.OpenLabels.LabelState.{names_of};
ghost use Rattle.wasmprinter_module_text.specs.TypeLines.{listed_pieces};

use crate::printing_scope::{FIELD_NESTING, Scope, write_type_in};
use wasmprinter_decoder::TypeGroup;
use wasmprinter_ops::composite_types::SubType;
use wasmprinter_print::Output;
use wasmprinter_text::lines::{close_group, write_break};
use wasmprinter_text::parens_and_words::open_group;

/// The nesting depth of the types of a `rec` group.
const MEMBER_NESTING: u64 = 2;

/// Writes a type of a `rec` group on a line of its own.
#[tactic(auto, unfolding(wasmprinter_spec::specs::Layout::Types::member_pieces))]
fn write_member<O: Output>(
    out: &mut O,
    scope: &Scope<'_, '_>,
    group: &TypeGroup<'_>,
    number: u64,
    sub_type: &SubType<'_>,
)
    requires { group.now.value.explicit ≡ true }
    ensures { O.wrote out.old out.new
        (member_pieces (names_of scope.now.labels) group.now.place number sub_type.now) }
{
    write_break(out, Some(group.types_place()), MEMBER_NESTING);
    write_type_in(out, scope, number, sub_type);
}

/// Writes a type of a group, on a line of its own if the group is a `rec` group.
fn write_listed<O: Output>(
    out: &mut O,
    scope: &Scope<'_, '_>,
    group: &TypeGroup<'_>,
    number: u64,
    sub_type: &SubType<'_>,
)
    ensures { O.wrote out.old out.new
        (listed_pieces (names_of scope.now.labels) group.now.value.explicit group.now.place number sub_type.now) }
{
    if group.is_explicit() {
        write_member(out, scope, group, number, sub_type);
    } else {
        write_type_in(out, scope, number, sub_type);
    }
}

/// Writes the types of a group. The first of them has the index `first`.
fn write_types<O: Output>(out: &mut O, scope: &Scope<'_, '_>, group: &TypeGroup<'_>, first: u64)
    requires { first + length group.now.value.types < 2 ^ 64 }
    ensures { O.wrote out.old out.new
        (numbered_pieces (listed_pieces (names_of scope.now.labels) group.now.value.explicit group.now.place) first group.now.value.types) }
{
    let mut number = first;
    for sub_type in group.types() {
        if out.has_failed() {
            return;
        }
        write_listed(out, scope, group, number, &sub_type);
        number += 1;
    }
}

/// Writes types as a `rec` group, each on a line of its own.
#[tactic(auto, unfolding(wasmprinter_spec::specs::Layout::Groups::group))]
fn write_rec<O: Output>(out: &mut O, scope: &Scope<'_, '_>, group: &TypeGroup<'_>, first: u64)
    requires { first + length group.now.value.types < 2 ^ 64 }
    ensures { O.wrote out.old out.new
        (group_pieces 1 (codes "rec")
        (numbered_pieces (listed_pieces (names_of scope.now.labels) group.now.value.explicit group.now.place) first group.now.value.types)) }
{
    open_group(out, "rec");
    let outer_begun = out.enter_group();
    write_types(out, scope, group, first);
    close_group(out, FIELD_NESTING, outer_begun);
}

/// Writes a group after the start of its line.
fn write_group_after<O: Output>(
    out: &mut O,
    scope: &Scope<'_, '_>,
    group: &TypeGroup<'_>,
    first: u64,
)
    requires { first + length group.now.value.types < 2 ^ 64 }
    ensures { O.wrote out.old out.new
        (group_pieces_by (names_of scope.now.labels) group.now.value.explicit group.now.place first group.now.value.types) }
{
    if group.is_explicit() {
        write_rec(out, scope, group, first);
    } else {
        write_types(out, scope, group, first);
    }
}

/// Writes a group of types. The first of them has the index `first`.
#[tactic(auto, unfolding(wasmprinter_spec::specs::Layout::Types::type_group_pieces))]
fn write_group<O: Output>(out: &mut O, scope: &Scope<'_, '_>, group: &TypeGroup<'_>, first: u64)
    requires { first + length group.now.value.types < 2 ^ 64 }
    ensures { O.wrote out.old out.new (type_group_pieces (names_of scope.now.labels) first group.now) }
{
    write_break(out, Some(group.place()), FIELD_NESTING);
    write_group_after(out, scope, group, first);
}

/// Writes groups of types, each on a new line. The types of all groups are indexed consecutively, from 0, and must be
/// fewer than 2^64. Each type of an explicit `(rec ..)` is on a line of its own.
pub fn write_type_groups<O: Output>(out: &mut O, scope: &Scope<'_, '_>, groups: &[TypeGroup<'_>])
    requires { length (all_types (groups_of groups.now)) < 2 ^ 64 }
    ensures { O.wrote out.old out.new (type_section_pieces (names_of scope.now.labels) 0 groups.now) }
{
    let mut number = 0;
    for group in groups {
        if out.has_failed() {
            return;
        }
        write_group(out, scope, group, number);
        number += u64::from(group.types().len());
    }
}
