//! The tag section (section 5.5, "Tag Section").
ghost use Rattle.std.specs.Prelude.{◌≡◌};
ghost use Rattle.wasmprinter_spec.specs.Grammar.{value_with_place};
ghost use Rattle.wasmprinter_spec.specs.Binary.Tags.{tag as tag_grammar};
ghost use Rattle.wasmprinter_spec.specs.Sections.{TagSection};
ghost use Rattle.wasmprinter_bytes.specs.Reads.{Decodes};
ghost use Rattle.wasmprinter_decoder.specs.Contents.{DecodesContent};

use crate::byte_checks::{expect_end, read_only};
use std::alloc::Global;
use std::marker::Model;
use wasmprinter_bytes::cursor::Cursor;
use wasmprinter_bytes::decode_traits::{DecodeIn, read_list};
use wasmprinter_bytes::{Error, Malformed};

/// The byte before the type index of a tag: the tag is that of an exception.
const EXCEPTION: u8 = 0x00;

/// A tag that the module defines, with the place of its entry (section 2.5, "Tags").
#[derive(Drop)]
pub struct Tag {
    place: u64,
    type_index: u32,
}

impl Model for Tag {
    ghost use Rattle.std.specs.Prelude.{ℕ};
    ghost use Rattle.wasmprinter_spec.specs.Grammar.{Placed};

    ghost Value = { Placed ℕ };

    ghost view = { λ t. record { place = t.place; value = t.type_index } };
}

/// Reads the byte of exceptions and a type index.
pub(crate) fn read_tag_type(cursor: &mut Cursor) -> Result<u32, Malformed>
    ensures { Decodes (λ n. n) tag_grammar.parse cursor.old result cursor.new }
{
    read_only(cursor, EXCEPTION)?;
    cursor.u32()
}

impl<'a> DecodeIn<'a> for Tag {
    ghost parse = { (value_with_place tag_grammar).parse };

    fn read(cursor: &mut Cursor<'a>) -> Result<Tag, Malformed> {
        let place = cursor.place();
        let type_index = read_tag_type(cursor)?;
        Ok(Tag { place, type_index })
    }
}

impl Tag {
    /// Returns the place of the entry's first byte: a byte offset from the start of the module.
    pub fn place(&self) -> u64
        ensures { result ≡ self.now.place }
    {
        self.place
    }

    /// Returns the index of the tag's type. It may refer to no type, or to a type that is not a function type.
    pub fn type_index(&self) -> u32
        ensures { result ≡ self.now.value }
    {
        self.type_index
    }
}

/// Reads the content of a tag section. On `Ok`, the result is the value that the grammar gives for all
/// remaining bytes.
///
/// # Errors
///
/// - `Malformed` if the bytes do not encode a list of tags and nothing after it, with a place as
///   [`Error::Malformed`](wasmprinter_bytes::Error::Malformed) describes it.
/// - `Memory` if an allocation fails, which happens only if the bytes begin with a count above zero.
pub fn read_tags(alloc: Global, cursor: &mut Cursor) -> Result<Vec<Tag>, Error>
    ensures { DecodesContent TagSection (λ v. v.items) cursor.old result }
{
    let tags = read_list(alloc, cursor)?;
    expect_end(cursor)?;
    Ok(tags)
}
