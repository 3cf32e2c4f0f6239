//! Raw custom sections (appendix "Custom Annotations" of the WebAssembly Core Specification).
ghost use Rattle.std.specs.Prelude.{◌≡◌};
ghost use Rattle.wasmprinter_spec.specs.Layout.Customs.{section_word as word_of_section, two_words, after_pieces, raw_pieces, malformed_pieces};
ghost use Rattle.wasmprinter_decoder.specs.Places.{section_kind_view, after_view};

use crate::nesting_constants::SECTION_NESTING;
use wasmprinter_decoder::custom_section_positions::{CustomEntry, SectionKind};
use wasmprinter_print::Output;
use wasmprinter_text::annotations::{open_annotation_space, write_plain_line_comment};
use wasmprinter_text::bytes_or_ellipsis::write_shown_bytes;
use wasmprinter_text::lines::write_break;
use wasmprinter_text::parens_and_words::{open_plain, write_close_paren, write_space, write_word};
use wasmprinter_text::strings::write_string;

/// Returns the word for the kind of section that a custom section follows.
fn section_word(kind: SectionKind) -> &'static str
    ensures { result.now ≡ word_of_section (section_kind_view kind) }
{
    match kind {
        SectionKind::Type => "type",
        SectionKind::Import => "import",
        SectionKind::Function => "func",
        SectionKind::Table => "table",
        SectionKind::Memory => "memory",
        SectionKind::Tag => "tag",
        SectionKind::Global => "global",
        SectionKind::Export => "export",
        SectionKind::Start => "start",
        SectionKind::Element => "elem",
        SectionKind::Code => "code",
        SectionKind::Data => "data",
    }
}

/// Writes two words as a group.
fn write_two_words<O: Output>(out: &mut O, first: &str, second: &str)
    ensures { O.wrote out.old out.new (two_words first.now second.now) }
{
    open_plain(out, first);
    write_space(out);
    write_word(out, second);
    write_close_paren(out);
}

/// Writes after which kind of section a section occurs.
#[tactic(auto, unfolding(wasmprinter_spec::specs::Layout::Customs::after_pieces))]
fn write_after<O: Output>(out: &mut O, after: Option<SectionKind>)
    ensures { O.wrote out.old out.new (after_pieces (after_view after)) }
{
    match after {
        None => write_two_words(out, "before", "first"),
        Some(kind) => write_two_words(out, "after", section_word(kind)),
    }
}

/// Writes a section as a raw annotation `(@custom ..)`.
pub(crate) fn write_raw<O: Output>(out: &mut O, entry: &CustomEntry<'_>)
    ensures { O.wrote out.old out.new (raw_pieces O.chosen.skeleton entry.now) }
{
    write_break(out, Some(entry.section.place()), SECTION_NESTING);
    open_annotation_space(out, "custom");
    write_string(out, entry.section.name());
    write_space(out);
    write_after(out, entry.after);
    write_space(out);
    write_shown_bytes(out, entry.section.bytes());
    write_close_paren(out);
}

/// Writes a line that says that the section is malformed, and then the section as a raw annotation.
pub(crate) fn write_malformed<O: Output>(out: &mut O, entry: &CustomEntry<'_>)
    ensures { O.wrote out.old out.new (malformed_pieces O.chosen.skeleton entry.now) }
{
    let section = &entry.section;
    write_break(out, Some(section.bytes_place()), SECTION_NESTING);
    write_plain_line_comment(out, "failed to parse custom section `", section.name(), "`");
    write_raw(out, entry);
}
