//! Findings in the data of name sections (appendix "Name Section" of the WebAssembly Core Specification, and the extended
//! name section proposal). Reading stops at the first error in the data, which is no error of the program: functions that
//! read return whether they stopped. The cursor is then at the item that the bytes do not encode.
ghost use Rattle.std.specs.Prelude.{◌≡◌, ◌++◌, ◌<◌, ℕ, List, [], IfOk, OnOk, MatchOption, None, Some, true, false, length};
ghost use Rattle.wasmprinter_spec.specs.Grammar.{Placed, input};
ghost use Rattle.wasmprinter_custom.specs.Spaces.{id_of, outer_of};
ghost use Rattle.wasmprinter_hidden.specs.Lengths.{unsigned_len};
ghost use Rattle.wasmprinter_hidden.specs.Findings.{if_longer};
ghost use Rattle.wasmprinter_hidden.specs.HiddenNames.{in_given, in_name, item_name, name_map, after_no_names, owned_names, inner_map, read_list};
ghost use Rattle.wasmprinter_hidden.specs.HiddenNames.{module_name, content, at_end_of, is_empty_list, gives_no_names, subsection, stop, after_stop, in_names};
ghost use Rattle.wasmprinter_hidden.specs.NamedItems.{inner_id, kind_id};
ghost use Rattle.wasmprinter_hidden.specs.NameReadings.{IsRead, IsNumberRead, unread_up_to};
ghost use Rattle.wasmprinter_hidden.specs.declared.finding.Part.TheVariants.{NameSubsectionSize};

use crate::excess::{Shortest, unsigned_len};
use crate::finding::Part;
use crate::findings::{Findings, OpenPart};
use crate::name_entries::{Association, ModuleName, Subsection};
use crate::name_subsections::{InnerSpace, MODULE, NamedKind, inner_space, kind_of_subsection};
use crate::named_items::NamedItems;
use std::alloc::AllocError;
use wasmprinter_bytes::cursor::Cursor;
use wasmprinter_custom::Space;

/// Reads a number that encodes this part, and appends the finding in it. Returns `None` if reading stopped.
fn read_number(
    findings: &mut Findings,
    part: Part,
    cursor: &mut Cursor<'_>,
) -> Result<Option<u32>, AllocError>
    ensures { IfOk result (λ number. IsNumberRead part cursor.old findings.old number cursor.new findings.new) }
{
    let place = cursor.place();
    let mut next = cursor.fork();
    let Ok(number) = next.u32() else {
        return Ok(None);
    };
    let encoded = OpenPart {
        part,
        place,
        len: unsigned_len(u64::from(number)),
    };
    findings.close(encoded, next.place())?;
    *cursor = next;
    Ok(Some(number))
}

/// The items of an index space of the module, or of one function or type.
#[derive(Clone, Copy)]
struct SpaceItems {
    space: Space,
    /// The function or type. It is ignored if the space is one of the module.
    outer: u32,
    /// The number of items.
    count: u64,
}

/// Appends the finding in a name. `item` consists of the name, and of its index if it has one.
fn add_given<T: Shortest>(
    findings: &mut Findings,
    replaced: bool,
    place: u64,
    item: &T,
    end: u64,
) -> Result<(), AllocError>
    ensures { OnOk result (findings.new ≡ findings.old ++ in_given replaced place (T.len item.now) end) }
{
    if replaced {
        findings.push(place, Part::ReplacedName, end.saturating_sub(place))
    } else {
        findings.close(OpenPart::of_item(Part::Name, place, item), end)
    }
}

/// Appends the finding in a name with its index. `items` are those that it can name.
fn add_association(
    findings: &mut Findings,
    named: &NamedItems<'_, '_>,
    items: SpaceItems,
    place: u64,
    association: &Association<'_>,
    end: u64,
) -> Result<(), AllocError>
    ensures { OnOk result (findings.new ≡ findings.old
        ++ in_name named.now (id_of items.space) (outer_of items.space items.outer) items.count place association.now end) }
{
    if u64::from(association.index) < items.count {
        let replaced = named.is_replaced(
            items.space,
            items.outer,
            association.index,
            association.name,
        );
        add_given(findings, replaced, place, association, end)
    } else {
        findings.push(place, Part::NameOfNothing, end.saturating_sub(place))
    }
}

/// Reads a name with its index, and appends the finding in it. `items` are those that it can name.
fn read_name(
    findings: &mut Findings,
    named: &NamedItems<'_, '_>,
    items: SpaceItems,
    cursor: &mut Cursor<'_>,
) -> Result<bool, AllocError>
    ensures { IfOk result (IsRead (item_name named.now (id_of items.space) (outer_of items.space items.outer) items.count cursor.old)
        findings.old cursor.new findings.new) }
{
    let place = cursor.place();
    let mut next = cursor.fork();
    let Ok(association) = Association::read(&mut next) else {
        return Ok(true);
    };
    add_association(findings, named, items, place, &association, next.place())?;
    *cursor = next;
    Ok(false)
}

/// Reads names of items, and appends the findings in them.
fn read_name_map(
    findings: &mut Findings,
    named: &NamedItems<'_, '_>,
    items: SpaceItems,
    cursor: &mut Cursor<'_>,
) -> Result<bool, AllocError>
    ensures { IfOk result (IsRead (name_map named.now (id_of items.space) (outer_of items.space items.outer) items.count cursor.old)
        findings.old cursor.new findings.new) }
{
    let Some(names) = read_number(findings, Part::NameCount, cursor)? else {
        return Ok(true);
    };
    for _ in 0..names {
        if read_name(findings, named, items, cursor)? {
            return Ok(true);
        }
    }
    Ok(false)
}

/// Returns a cursor after the next function or type if that has no names. Returns `None` if it has names or is malformed.
fn after_no_names<'a>(cursor: &Cursor<'a>) -> Option<Cursor<'a>>
    ensures { MatchOption result (after_no_names cursor.now ≡ None) (λ after. after_no_names cursor.now ≡ Some after) }
{
    let mut next = cursor.fork();
    let Ok(_) = next.u32() else {
        return None;
    };
    match next.u32() {
        Ok(0) => Some(next),
        _ => None,
    }
}

/// Reads the index of a function or type with names, and these names, and appends the findings in them.
fn read_owned_names(
    findings: &mut Findings,
    named: &NamedItems<'_, '_>,
    space: InnerSpace,
    cursor: &mut Cursor<'_>,
) -> Result<bool, AllocError>
    ensures { IfOk result (IsRead (owned_names named.now (inner_id space) cursor.old) findings.old cursor.new findings.new) }
{
    let Some(outer) = read_number(findings, Part::NameOwner, cursor)? else {
        return Ok(true);
    };
    let items = SpaceItems {
        space: space.space(),
        outer,
        count: named.counts().inner_items(space, outer),
    };
    read_name_map(findings, named, items, cursor)
}

/// Reads a function or type with the names of its items, and appends the findings in them. If it has no names, it is a
/// finding as a whole.
fn read_inner_map<'a>(
    findings: &mut Findings,
    named: &NamedItems<'_, '_>,
    space: InnerSpace,
    cursor: &mut Cursor<'a>,
) -> Result<bool, AllocError>
    ensures { IfOk result (IsRead (inner_map named.now (inner_id space) cursor.old) findings.old cursor.new findings.new) }
{
    let Some(after) = after_no_names(cursor) else {
        return read_owned_names(findings, named, space, cursor);
    };
    let place = cursor.place();
    let bytes = after.place().saturating_sub(place);
    findings.push(place, Part::OwnerWithoutNames, bytes)?;
    *cursor = after;
    Ok(false)
}

/// Reads functions or types with the names of their items, and appends the findings in them.
fn read_indirect_map(
    findings: &mut Findings,
    named: &NamedItems<'_, '_>,
    space: InnerSpace,
    cursor: &mut Cursor<'_>,
) -> Result<bool, AllocError>
    ensures { IfOk result (IsRead (read_list (inner_map named.now (inner_id space)) cursor.old) findings.old cursor.new findings.new) }
{
    let Some(maps) = read_number(findings, Part::NameCount, cursor)? else {
        return Ok(true);
    };
    for _ in 0..maps {
        if read_inner_map(findings, named, space, cursor)? {
            return Ok(true);
        }
    }
    Ok(false)
}

/// Reads the name of the module, and appends the finding in it.
fn read_module_name(
    findings: &mut Findings,
    named: &NamedItems<'_, '_>,
    cursor: &mut Cursor<'_>,
) -> Result<bool, AllocError>
    ensures { IfOk result (IsRead (module_name named.now cursor.old) findings.old cursor.new findings.new) }
{
    let place = cursor.place();
    let mut next = cursor.fork();
    let Ok(name) = ModuleName::read(&mut next) else {
        return Ok(true);
    };
    let replaced = named.is_module_replaced(name.name);
    add_given(findings, replaced, place, &name, next.place())?;
    *cursor = next;
    Ok(false)
}

/// Reads the names of items of this space, and appends the findings in them.
fn read_items(
    findings: &mut Findings,
    named: &NamedItems<'_, '_>,
    space: Space,
    cursor: &mut Cursor<'_>,
) -> Result<bool, AllocError>
    ensures { IfOk result (IsRead (content named.now (id_of space) cursor.old) findings.old cursor.new findings.new) }
{
    if let Some(inner) = inner_space(space) {
        return read_indirect_map(findings, named, inner, cursor);
    }
    let items = SpaceItems {
        space,
        outer: 0,
        count: named.counts().items(space),
    };
    read_name_map(findings, named, items, cursor)
}

/// Reads the content of a subsection with a known id, and appends the findings in it.
fn read_content(
    findings: &mut Findings,
    named: &NamedItems<'_, '_>,
    kind: NamedKind,
    cursor: &mut Cursor<'_>,
) -> Result<bool, AllocError>
    ensures { IfOk result (IsRead (content named.now (kind_id kind) cursor.old) findings.old cursor.new findings.new) }
{
    match kind {
        NamedKind::Module => read_module_name(findings, named, cursor),
        NamedKind::Items(space) => read_items(findings, named, space, cursor),
    }
}

/// Appends the finding that the bytes from a place up to `end` are not read, if there are any.
fn add_unread(findings: &mut Findings, place: u64, end: u64) -> Result<(), AllocError>
    ensures { OnOk result (findings.new ≡ findings.old ++ unread_up_to place end) }
{
    if place < end {
        findings.push(place, Part::UnreadNames, end - place)
    } else {
        Ok(())
    }
}

/// Reads the content of a subsection with a known id, and appends the findings in it. The cursor must be after the
/// subsection. If reading stopped, it is moved to where reading stopped in the content.
fn read_to_end<'a>(
    findings: &mut Findings,
    named: &NamedItems<'_, '_>,
    kind: NamedKind,
    part: Cursor<'a>,
    cursor: &mut Cursor<'a>,
) -> Result<bool, AllocError>
    ensures reads { IfOk result (IsRead (at_end_of cursor.old (content named.now (kind_id kind) part.entry))
        findings.old cursor.new findings.new) }
    ensures stays { IfOk result (λ stopped. stopped ≡ false → cursor.new ≡ cursor.old) }
{
    let mut part = part;
    if read_content(findings, named, kind, &mut part)? {
        *cursor = part;
        return Ok(true);
    }
    add_unread(findings, part.place(), part.end())?;
    Ok(false)
}

/// Reports whether the content of a subsection starts with the count 0.
fn is_empty_list(content: &Cursor<'_>) -> bool
    ensures { result ≡ is_empty_list (record { place = content.now.place; value = content.now.bytes }) }
{
    let mut next = content.fork();
    matches!(next.u32(), Ok(0))
}

/// Returns what a subsection names, or `None` if it gives no names.
fn named_in(subsection: &Subsection<'_>) -> Option<NamedKind>
    ensures { let given : Placed (List ℕ) = record { place = subsection.now.content.place; value = subsection.now.content.bytes } in
        MatchOption result (gives_no_names subsection.now.id given ≡ true)
        (λ kind. (kind_id kind ≡ subsection.now.id) × (gives_no_names subsection.now.id given ≡ false)) }
{
    let Some(kind) = kind_of_subsection(subsection.id) else {
        return None;
    };
    if subsection.id != MODULE && is_empty_list(&subsection.content) {
        return None;
    }
    Some(kind)
}

/// Appends the finding in the number that encodes the size of a subsection.
fn add_subsection_size(
    findings: &mut Findings,
    subsection: &Subsection<'_>,
) -> Result<(), AllocError>
    ensures { OnOk result (findings.new ≡ findings.old
        ++ if_longer (NameSubsectionSize subsection.now.id) subsection.now.size_place subsection.now.content.place
        (unsigned_len (length subsection.now.content.bytes))) }
{
    let size = OpenPart {
        part: Part::NameSubsectionSize(subsection.id),
        place: subsection.size_place,
        len: unsigned_len(subsection.content.len() as u64),
    };
    findings.close(size, subsection.content.place())
}

/// Reads a subsection, and appends the findings in it. A subsection that gives no names is a finding as a whole.
fn read_subsection(
    findings: &mut Findings,
    named: &NamedItems<'_, '_>,
    cursor: &mut Cursor<'_>,
) -> Result<bool, AllocError>
    ensures reads { IfOk result (IsRead (subsection named.now cursor.old) findings.old cursor.new findings.new) }
    ensures advances { IfOk result (λ stopped. stopped ≡ false → length cursor.new.bytes < length cursor.old.bytes) }
{
    let place = cursor.place();
    let mut next = cursor.fork();
    let Ok(subsection) = Subsection::read(&mut next) else {
        return Ok(true);
    };
    *cursor = next;
    let Some(kind) = named_in(&subsection) else {
        let bytes = cursor.place().saturating_sub(place);
        findings.push(place, Part::NameSubsection(subsection.id), bytes)?;
        return Ok(false);
    };
    add_subsection_size(findings, &subsection)?;
    read_to_end(findings, named, kind, subsection.content, cursor)
}

/// Appends the finding at the place where reading stopped: bytes up to `end` that are not read, or missing names.
fn add_stop(findings: &mut Findings, place: u64, end: u64) -> Result<(), AllocError>
    ensures { OnOk result (findings.new ≡ findings.old ++ after_stop (stop (input place [])) end) }
{
    if place < end {
        findings.push(place, Part::UnreadNames, end - place)
    } else {
        findings.push(end, Part::MissingNames, 0)
    }
}

/// Appends the findings in the data of a name section of the module.
///
/// Each item that is read takes at least one byte, and reading stops at the first item that the bytes do not encode, whatever
/// the count before the items is. So the time is linear in the number of bytes, except that looking up the names of items
/// takes logarithmic time each. (The contract does not say so.)
pub(crate) fn add_names(
    findings: &mut Findings,
    named: &NamedItems<'_, '_>,
    section: Cursor<'_>,
) -> Result<(), AllocError>
    ensures { OnOk result (findings.new ≡ findings.old
        ++ in_names named.now (record { place = section.entry.place; value = section.entry.bytes })) }
{
    let mut cursor = section;
    let end = cursor.end();
    'subsections: while !cursor.is_empty() {
        if read_subsection(findings, named, &mut cursor)? {
            return add_stop(findings, cursor.place(), end);
        }
    }
    Ok(())
}
