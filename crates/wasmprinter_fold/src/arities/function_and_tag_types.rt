//! The functions, tags and types that operators refer to by index, and their types (section 2.5 of the WebAssembly
//! Core Specification, "Indices").
ghost use Rattle.std.specs.Prelude.{◌≡◌, ◌<◌, length, IfOk, OnErr, slice_get, option_map};
ghost use Rattle.wasmprinter_spec.specs.Types.{signature_at, fields_at};
ghost use Rattle.wasmprinter_fold.specs.Gathering.{ImportsFunctionOrTag};
ghost use Rattle.wasmprinter_spec.specs.Folding.Arities.{types_of, functions_of, tags_of, function_type, tag_type};

use std::alloc::{AllocError, Global};
use std::marker::Model;
use wasmprinter_decoder::{ExternType, Fields, Module};
use wasmprinter_ops::composite_types::FuncType;

/// The types of the items that a module's operators refer to. Contracts see them as the module.
#[derive(Drop)]
pub struct FunctionAndTagTypes<'m, 'a> {
    module: &'m Module<'a>,
    /// The type indices of imported functions.
    functions: Vec<u32>,
    /// The type indices of imported tags.
    tags: Vec<u32>,
}

impl<'m, 'a> Model for FunctionAndTagTypes<'m, 'a> {
    ghost use Rattle.std.specs.Prelude.{◌≡◌};
    ghost use Rattle.wasmprinter_spec.specs.Placed.{PlacedModule};
    ghost use Rattle.wasmprinter_spec.specs.Module.{without_places, imported_types, func_import, tag_import};

    ghost Value = { PlacedModule };

    ghost view = { λ c. c.module.now };

    ghost invariant = { λ c.
        (c.functions.items ≡ imported_types func_import (without_places c.module.now.imports))
        × (c.tags.items ≡ imported_types tag_import (without_places c.module.now.imports)) };
}

impl<'m, 'a> FunctionAndTagTypes<'m, 'a> {
    /// Gathers the type indices of imported functions and tags, so that each look-up takes constant time (which is not
    /// part of the contract). Contracts see the result as the module (`ok`).
    ///
    /// # Errors
    ///
    /// If an allocation fails. There is an error only if the module imports a function or a tag (`memory`).
    pub fn new(alloc: Global, module: &'m Module<'a>) -> Result<Self, AllocError>
        ensures ok { IfOk result (λ c. c ≡ «module».now) }
        ensures memory { OnErr result (ImportsFunctionOrTag «module».now) }
    {
        let mut functions = Vec::new(alloc);
        let mut tags = Vec::new(alloc);
        for import in module.imports() {
            match import.ty() {
                ExternType::Func(type_index) => functions.push(type_index)?,
                ExternType::Tag(type_index) => tags.push(type_index)?,
                ExternType::Table(_) | ExternType::Memory(_) | ExternType::Global(_) => {}
            }
        }
        Ok(FunctionAndTagTypes {
            module,
            functions,
            tags,
        })
    }

    /// Returns the type index of a function, if there is such a function.
    fn type_of_function(&self, index: u32) -> Option<u32>
        ensures { result ≡ slice_get (functions_of self.now) index }
    {
        match self.functions.get(index as usize) {
            Some(type_index) => Some(*type_index),
            None => {
                let number = index - self.functions.len() as u32;
                if number < self.module.function_count() {
                    Some(self.module.function(number).type_index())
                } else {
                    None
                }
            }
        }
    }

    /// Returns the type index of a tag, if there is such a tag.
    fn type_of_tag(&self, index: u32) -> Option<u32>
        ensures { result ≡ slice_get (tags_of self.now) index }
    {
        match self.tags.get(index as usize) {
            Some(type_index) => Some(*type_index),
            None => {
                let number = index as usize - self.tags.len();
                match self.module.tags().get(number) {
                    Some(tag) => Some(tag.type_index()),
                    None => None,
                }
            }
        }
    }

    /// Returns the function type with the index, or `None` if there is no such function type.
    pub(crate) fn signature(&self, index: u32) -> Option<FuncType<'a>>
        ensures { result ≡ signature_at (types_of self.now) index }
    {
        self.module.signature(index)
    }

    /// Returns the type of the function with the index, or `None` if there is no such function or it has no function
    /// type.
    pub(crate) fn function_type(&self, index: u32) -> Option<FuncType<'a>>
        ensures { result ≡ function_type self.now index }
    {
        self.signature(self.type_of_function(index)?)
    }

    /// Returns the type of the tag with the index, or `None` if there is no such tag or it has no function type.
    pub(crate) fn tag_type(&self, index: u32) -> Option<FuncType<'a>>
        ensures { result ≡ tag_type self.now index }
    {
        self.signature(self.type_of_tag(index)?)
    }

    /// Returns the number of fields of the structure type with the index, or `None` if there is no such structure type.
    pub(crate) fn field_count(&self, index: u32) -> Option<u32>
        ensures { result ≡ option_map length (fields_at (types_of self.now) index) }
    {
        self.module.field_count(index)
    }
}
