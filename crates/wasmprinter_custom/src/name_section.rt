//! Reads the data of a name section. Reading stops at the first error; the names before it count.
ghost use Rattle.std.specs.Prelude.{◌≡◌, ◌++◌, List, [], OnOk, IfErr, IsOk};
ghost use Rattle.wasmprinter_bytes.specs.declared.library_error.Error.TheVariants.{Memory};
ghost use Rattle.wasmprinter_spec.specs.Names.Section.{Entry, entry, module_name, name_map, inner_map, indirect_map, content};
ghost use Rattle.wasmprinter_spec.specs.Names.Section.{subsection, GivesNames};
ghost use Rattle.wasmprinter_custom.specs.HoldsEntries.{HoldsEntries};
ghost use Rattle.wasmprinter_custom.specs.Adds.{Adds, AddsNames};

use crate::name_subsection_ids::{FIELD, LABEL, LOCAL, MODULE, TAG};
use crate::names::NamesBuilder;
use std::alloc::Global;
use wasmprinter_bytes::Error;
use wasmprinter_bytes::cursor::Cursor;

/// Adds the name of one index.
fn read_entry<'a>(
    alloc: Global,
    builder: &mut NamesBuilder<'a>,
    subsection: u8,
    outer: u32,
    cursor: &mut Cursor<'a>,
) -> Result<(), Error>
    ensures { Adds (entry subsection outer) cursor.old builder.old result cursor.new builder.new }
{
    let index = cursor.u32()?;
    let name = cursor.name()?;
    builder.add(alloc, subsection, u64::from(outer), u64::from(index), name)?;
    Ok(())
}

/// Adds the names of a name map.
fn read_map<'a>(
    alloc: Global,
    builder: &mut NamesBuilder<'a>,
    subsection: u8,
    outer: u32,
    cursor: &mut Cursor<'a>,
) -> Result<(), Error>
    ensures { Adds (name_map subsection outer) cursor.old builder.old result cursor.new builder.new }
{
    let count = cursor.u32()?;
    for _ in 0..count {
        read_entry(alloc, builder, subsection, outer, cursor)?;
    }
    Ok(())
}

/// Adds the names of one function or type in an indirect name map.
fn read_inner_map<'a>(
    alloc: Global,
    builder: &mut NamesBuilder<'a>,
    subsection: u8,
    cursor: &mut Cursor<'a>,
) -> Result<(), Error>
    ensures { Adds (inner_map subsection) cursor.old builder.old result cursor.new builder.new }
{
    let outer = cursor.u32()?;
    read_map(alloc, builder, subsection, outer, cursor)
}

/// Adds the names of an indirect name map.
fn read_indirect_map<'a>(
    alloc: Global,
    builder: &mut NamesBuilder<'a>,
    subsection: u8,
    cursor: &mut Cursor<'a>,
) -> Result<(), Error>
    ensures { Adds (indirect_map subsection) cursor.old builder.old result cursor.new builder.new }
{
    let count = cursor.u32()?;
    for _ in 0..count {
        read_inner_map(alloc, builder, subsection, cursor)?;
    }
    Ok(())
}

/// Adds the name of the module.
fn read_module_name<'a>(
    alloc: Global,
    builder: &mut NamesBuilder<'a>,
    cursor: &mut Cursor<'a>,
) -> Result<(), Error>
    ensures { Adds module_name cursor.old builder.old result cursor.new builder.new }
{
    let name = cursor.name()?;
    builder.add(alloc, MODULE, 0, 0, name)?;
    Ok(())
}

/// Adds the names of a subsection.
fn read_content<'a>(
    alloc: Global,
    builder: &mut NamesBuilder<'a>,
    subsection: u8,
    cursor: &mut Cursor<'a>,
) -> Result<(), Error>
    ensures { Adds (content subsection) cursor.old builder.old result cursor.new builder.new }
{
    match subsection {
        MODULE => read_module_name(alloc, builder, cursor),
        LOCAL | LABEL | FIELD => read_indirect_map(alloc, builder, subsection, cursor),
        ..=TAG => read_map(alloc, builder, subsection, 0, cursor),
        _ => Ok(()),
    }
}

/// Adds the names of the next subsection.
fn read_subsection<'a>(
    alloc: Global,
    builder: &mut NamesBuilder<'a>,
    cursor: &mut Cursor<'a>,
) -> Result<(), Error>
    ensures { Adds subsection cursor.old builder.old result cursor.new builder.new }
{
    let subsection = cursor.u8()?;
    let size = cursor.u32()?;
    let mut part = cursor.part(size as usize)?;
    read_content(alloc, builder, subsection, &mut part)
}

/// Adds the names of all subsections.
fn read_subsections<'a>(
    alloc: Global,
    builder: &mut NamesBuilder<'a>,
    cursor: &mut Cursor<'a>,
) -> Result<(), Error>
    ensures { AddsNames cursor.old builder.old result builder.new }
{
    'subsections: while !cursor.is_empty() {
        read_subsection(alloc, builder, cursor)?;
    }
    Ok(())
}

/// Adds the names that the data of a name section gives, up to the first error in it. That error is not reported.
/// `section` is at the first byte after the section's name, and ends with the section.
/// Several sections are added in order: on `Ok`, the builder holds its old entries and then those of this section.
///
/// # Errors
///
/// `Memory` if an allocation fails. The contract then says nothing of the builder. No other error is returned
/// (`memory`). If the section gives no entries, there is no error (`succeeds`).
pub fn read_names<'a>(
    alloc: Global,
    builder: &mut NamesBuilder<'a>,
    section: Cursor<'a>,
) -> Result<(), Error>
    ensures names { OnOk result ((entries gives : List Entry) → GivesNames section.entry gives → HoldsEntries entries builder.old
        → HoldsEntries (entries ++ gives) builder.new) }
    ensures memory { IfErr result (λ e. e ≡ Memory) }

    // Only entries need memory.
    ensures succeeds { GivesNames section.entry [] → IsOk result }
{
    let mut cursor = section;
    match read_subsections(alloc, builder, &mut cursor) {
        Ok(()) => Ok(()),
        Err(Error::Malformed { .. }) => Ok(()),
        Err(error) => Err(error),
    }
}
