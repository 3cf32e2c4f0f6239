//! The lines of a `dylink.0` section (tool conventions, "Dynamic Linking").
ghost use Rattle.std.specs.Prelude.{[], ◌∷◌, codes, Some};
ghost use Rattle.wasmprinter_spec.specs.Piece.{Break};
ghost use Rattle.wasmprinter_spec.specs.Layout.Customs.{note, sizes_group, sizes_pieces, names_pieces, exports_pieces, import_infos_pieces};
ghost use Rattle.wasmprinter_spec.specs.Layout.Customs.{content_pieces, subsections_pieces, space_quoted, space_quoted_list};
ghost use Rattle.wasmprinter_custom.specs.Contents.{content_view};

use crate::nesting_constants::{LINE_NESTING, SECTION_NESTING};
use crate::symbol_flag_printing::write_flags;
use wasmprinter_custom::{Content, Dylink, DylinkNames, ExportInfo, ImportInfo, ItemsIn, MemInfo};
use wasmprinter_print::Output;
use wasmprinter_text::annotations::open_annotation;
use wasmprinter_text::integers::write_number_word;
use wasmprinter_text::lines::{close_group, write_break};
use wasmprinter_text::parens_and_words::{
    open_group, open_group_space, open_plain, write_close_paren, write_space,
};
use wasmprinter_text::strings::write_string;

/// Writes a space and a quoted string.
fn write_space_string<O: Output>(out: &mut O, s: &str)
    ensures { O.wrote out.old out.new (space_quoted s.now) }
{
    write_space(out);
    write_string(out, s);
}

/// Writes names as quoted strings, with a space before each.
pub(crate) fn write_space_strings<O: Output>(out: &mut O, names: &DylinkNames<'_>)
    ensures { O.wrote out.old out.new (space_quoted_list names.now) }
{
    for name in names.iter() {
        if out.has_failed() {
            return;
        }
        write_space_string(out, name);
    }
}

/// Writes a space and a group of a word, a size and an alignment. Writes nothing if both numbers are 0.
#[tactic(auto, unfolding(wasmprinter_spec::specs::Layout::Customs::sizes_group))]
fn write_sizes_group<O: Output>(out: &mut O, word: &str, size: u32, alignment: u32)
    ensures { O.wrote out.old out.new (sizes_group word.now size alignment) }
{
    if size == 0 && alignment == 0 {
        return;
    }
    write_space(out);
    open_plain(out, word);
    write_space(out);
    write_number_word(out, u64::from(size));
    write_space(out);
    write_number_word(out, u64::from(alignment));
    write_close_paren(out);
}

/// Writes the sizes and alignments of memory and table space that a module needs.
fn write_sizes<O: Output>(out: &mut O, place: u64, sizes: &MemInfo)
    ensures { O.wrote out.old out.new (sizes_pieces place sizes.now) }
{
    write_break(out, Some(place), LINE_NESTING);
    open_group(out, "mem-info");
    write_sizes_group(out, "memory", sizes.memory_size(), sizes.memory_alignment());
    write_sizes_group(out, "table", sizes.table_size(), sizes.table_alignment());
    write_close_paren(out);
}

/// Writes a line with a keyword and names.
#[tactic(auto, unfolding(wasmprinter_spec::specs::Layout::Customs::names_pieces))]
fn write_names<O: Output>(out: &mut O, keyword: &str, place: u64, names: &DylinkNames<'_>)
    ensures { O.wrote out.old out.new (names_pieces keyword.now place names.now) }
{
    write_break(out, Some(place), LINE_NESTING);
    open_group(out, keyword);
    write_space_strings(out, names);
    write_close_paren(out);
}

/// Writes a line with an export and its flags.
fn write_export<O: Output>(out: &mut O, place: u64, export: &ExportInfo<'_>)
    ensures { O.wrote out.old out.new (exports_pieces place (export.now ∷ [])) }
{
    write_break(out, Some(place), LINE_NESTING);
    open_group_space(out, "export-info");
    write_string(out, export.name());
    write_flags(out, export.flags());
    write_close_paren(out);
}

/// Writes exports, each on a line of its own.
fn write_exports<O: Output>(out: &mut O, place: u64, exports: &ItemsIn<ExportInfo<'_>>)
    ensures { O.wrote out.old out.new (exports_pieces place exports.now) }
{
    for export in exports.iter() {
        if out.has_failed() {
            return;
        }
        write_export(out, place, &export);
    }
}

/// Writes a line with an import and its flags.
fn write_import<O: Output>(out: &mut O, place: u64, import: &ImportInfo<'_>)
    ensures { O.wrote out.old out.new (import_infos_pieces place (import.now ∷ [])) }
{
    write_break(out, Some(place), LINE_NESTING);
    open_group_space(out, "import-info");
    write_string(out, import.source());
    write_space(out);
    write_string(out, import.name());
    write_flags(out, import.flags());
    write_close_paren(out);
}

/// Writes imports, each on a line of its own.
fn write_imports<O: Output>(out: &mut O, place: u64, imports: &ItemsIn<ImportInfo<'_>>)
    ensures { O.wrote out.old out.new (import_infos_pieces place imports.now) }
{
    for import in imports.iter() {
        if out.has_failed() {
            return;
        }
        write_import(out, place, &import);
    }
}

/// Writes the lines of a subsection. `place` is the place of its id.
fn write_content<O: Output>(out: &mut O, place: u64, content: &Content<'_>)
    ensures { O.wrote out.old out.new (content_pieces place (content_view content.now)) }
{
    match content {
        Content::MemInfo(sizes) => write_sizes(out, place, sizes),
        Content::Needed(names) => write_names(out, "needed", place, names),
        Content::Exports(exports) => write_exports(out, place, exports),
        Content::Imports(imports) => write_imports(out, place, imports),
        Content::RuntimePath(names) => write_names(out, "runtime-path", place, names),
    }
}

/// Writes the lines of all subsections.
fn write_subsections<O: Output>(out: &mut O, subsections: &Dylink<'_>)
    ensures { O.wrote out.old out.new (subsections_pieces subsections.now) }
{
    for subsection in subsections.iter() {
        if out.has_failed() {
            return;
        }
        write_content(out, subsection.place(), subsection.content());
    }
}

/// Writes the section that starts at `place`.
pub(crate) fn write_dylink<O: Output>(out: &mut O, place: u64, subsections: &Dylink<'_>)
    ensures { O.wrote out.old out.new
        (Break (Some place) 1 ∷ note (codes "dylink.0") (subsections_pieces subsections.now)) }
{
    write_break(out, Some(place), SECTION_NESTING);
    open_annotation(out, "dylink.0");
    let outer_begun = out.enter_group();
    write_subsections(out, subsections);
    close_group(out, SECTION_NESTING, outer_begun);
}
