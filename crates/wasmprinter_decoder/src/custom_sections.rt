//! Custom sections (section 5.5, "Custom Section").
ghost use Rattle.std.specs.Prelude.{◌≡◌, bytes_eq};
ghost use Rattle.wasmprinter_spec.specs.Binary.Customs.{custom_section};
ghost use Rattle.wasmprinter_spec.specs.Customs.{name_section};
ghost use Rattle.wasmprinter_decoder.specs.Contents.{ReadsAll};

use std::marker::Model;
use wasmprinter_bytes::Malformed;
use wasmprinter_bytes::cursor::Cursor;

/// The name of name sections.
const NAME_SECTION: &str = "name";

/// A custom section: a name, and bytes to which the standard gives no meaning, with the place
/// of the section's content.
#[derive(Drop)]
pub struct Custom<'a> {
    place: u64,
    name: &'a str,
    content: Cursor<'a>,
}

impl<'a> Model for Custom<'a> {
    ghost use Rattle.wasmprinter_spec.specs.Grammar.{Placed};
    ghost use Rattle.wasmprinter_spec.specs.Placed.{Custom as CustomValue, custom_of};

    ghost Value = { Placed CustomValue };

    ghost view = { λ c. record {
      place = c.place;
      value = custom_of c.name.now (record { place = c.content.place; value = c.content.bytes });
    } };
}

impl<'a> Custom<'a> {
    /// Reads the content of a custom section from all remaining bytes: a name, then any bytes. The contract does not
    /// say where the cursor is after the call.
    ///
    /// # Errors
    ///
    /// `Malformed` if the content does not begin with a name, with a place as
    /// [`Error::Malformed`](wasmprinter_bytes::Error::Malformed) describes it.
    pub fn read(cursor: &mut Cursor<'a>) -> Result<Self, Malformed>
        ensures { ReadsAll (λ c. c) custom_section.parse cursor.old result }
    {
        let place = cursor.place();
        let name = cursor.name()?;
        Ok(Custom {
            place,
            name,
            content: cursor.fork(),
        })
    }

    /// Returns the place of the first byte of the section's content, where the length of the name starts: a byte offset
    /// from the start of the module.
    pub fn place(&self) -> u64
        ensures { result ≡ self.now.place }
    {
        self.place
    }

    /// Returns the section's name.
    pub fn name(&self) -> &'a str
        ensures { result.now ≡ self.now.value.name }
    {
        self.name
    }

    /// Returns the place of the first byte after the name: a byte offset from the start of the module.
    pub fn bytes_place(&self) -> u64
        ensures { result ≡ self.now.value.bytes.place }
    {
        self.content.place()
    }

    /// Returns the bytes after the name.
    pub fn bytes(&self) -> &'a [u8]
        ensures { result.now ≡ self.now.value.bytes.value }
    {
        self.content.rest()
    }

    /// Returns a cursor over the bytes after the name.
    pub fn cursor(&self) -> Cursor<'a>
        ensures { result ≡ record { place = self.now.value.bytes.place; bytes = self.now.value.bytes.value } }
    {
        self.content.fork()
    }

    /// Reports whether this is a name section: whether its name is `name`.
    pub fn is_name_section(&self) -> bool
        ensures { result ≡ bytes_eq self.now.value.name name_section }
    {
        self.name == NAME_SECTION
    }
}
