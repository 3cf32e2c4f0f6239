//! The `producers` section (tool conventions, "Producers Section"): fields, each with the names
//! and versions of its values.
ghost use Rattle.std.specs.Prelude.{◌≡◌};
ghost use Rattle.wasmprinter_spec.specs.Grammar.{value_with_place};
ghost use Rattle.wasmprinter_spec.specs.Customs.Producers.{value as value_grammar, field as field_grammar, producers, have_id_names};

use crate::identifier_chars::is_id;
use crate::lazy_borrowing_items::{ItemsIn, ReadFrom};
use std::marker::Model;
use wasmprinter_bytes::Malformed;
use wasmprinter_bytes::cursor::Cursor;

/// A value of a field: its place, its name and its version.
#[derive(Drop)]
pub struct Value<'a> {
    place: u64,
    name: &'a str,
    version: &'a str,
}

impl<'a> Model for Value<'a> {
    ghost use Rattle.wasmprinter_spec.specs.Grammar.{Placed};
    ghost use Rattle.wasmprinter_spec.specs.Customs.Producers.{Value as ProducerValue};

    ghost Value = { Placed ProducerValue };

    ghost view = { λ v. record { place = v.place; value = record { name = v.name.now; version = v.version.now } } };
}

impl<'a> ReadFrom for Value<'a> {
    type Source = Cursor<'a>;

    ghost parse = { (value_with_place value_grammar).parse };

    fn read(cursor: &mut Cursor<'a>) -> Result<Value<'a>, Malformed> {
        let place = cursor.place();
        let name = cursor.name()?;
        let version = cursor.name()?;
        Ok(Value {
            place,
            name,
            version,
        })
    }
}

impl<'a> Value<'a> {
    /// Returns the place of the value's first byte: a byte offset from the start of the module.
    pub fn place(&self) -> u64
        ensures { result ≡ self.now.place }
    {
        self.place
    }

    /// Returns the name of the value, such as the name of a tool.
    pub fn name(&self) -> &'a str
        ensures { result.now ≡ self.now.value.name }
    {
        self.name
    }

    /// Returns the version, which may be empty.
    pub fn version(&self) -> &'a str
        ensures { result.now ≡ self.now.value.version }
    {
        self.version
    }
}

/// The values of a field.
pub type Values<'a> = ItemsIn<Value<'a>>;

/// A field: a name and values.
#[derive(Drop)]
pub struct ProducersField<'a> {
    name: &'a str,
    values: Values<'a>,
}

impl<'a> Model for ProducersField<'a> {
    ghost use Rattle.wasmprinter_spec.specs.Customs.Producers.{Field as FieldValue};

    ghost Value = { FieldValue };

    ghost view = { λ f. record { name = f.name.now; values = f.values } };
}

impl<'a> ReadFrom for ProducersField<'a> {
    type Source = Cursor<'a>;

    ghost parse = { field_grammar.parse };

    fn read(cursor: &mut Cursor<'a>) -> Result<ProducersField<'a>, Malformed> {
        let name = cursor.name()?;
        let values = Values::read(cursor)?;
        Ok(ProducersField { name, values })
    }
}

impl<'a> ProducersField<'a> {
    /// Returns the name of the field.
    pub fn name(&self) -> &'a str
        ensures { result.now ≡ self.now.name }
    {
        self.name
    }

    /// Returns the values of the field in order.
    pub fn values(&self) -> Values<'a>
        ensures { result ≡ self.now.values }
    {
        self.values.iter()
    }
}

/// The fields of a section.
pub type Producers<'a> = ItemsIn<ProducersField<'a>>;

/// Reads the fields of a section, or returns `None` if its bytes do not encode fields and nothing after them.
pub(crate) fn read_producers<'a>(section: Cursor<'a>) -> Option<Producers<'a>>
    ensures { result ≡ producers.parse section.entry }
{
    let mut cursor = section;
    match Producers::read(&mut cursor) {
        Ok(fields) if cursor.is_empty() => Some(fields),
        _ => None,
    }
}

/// Reports whether the name of each field can be the first word of a group.
pub(crate) fn have_id_names(fields: Producers) -> bool
    ensures { result ≡ have_id_names fields.entry }
{
    for field in fields {
        if !is_id(field.name()) {
            return false;
        }
    }
    true
}
