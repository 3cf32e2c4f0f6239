//! Functions that a module defines.
ghost use Rattle.std.specs.Prelude.{◌≡◌};

use crate::code::Body;
use std::marker::Model;

/// A defined function.
#[derive(Drop)]
pub struct Function<'a> {
    pub(crate) type_index: u32,
    pub(crate) body: Body<'a>,
}

impl<'a> Model for Function<'a> {
    ghost use Rattle.wasmprinter_spec.specs.Placed.{PlacedFunction};

    ghost Value = { PlacedFunction };

    ghost view = { λ f. record { type_index = f.type_index; body = f.body } };
}

impl<'a> Function<'a> {
    /// Returns the index of the function's type. The module is not validated: the index may refer to no type, or to a
    /// type that is not a function type.
    pub fn type_index(&self) -> u32
        ensures { result ≡ self.now.type_index }
    {
        self.type_index
    }

    /// Returns the function's body, with the place of its first byte.
    pub fn body(&self) -> &Body<'a>
        ensures { result.now ≡ self.now.body }
    {
        &self.body
    }
}
