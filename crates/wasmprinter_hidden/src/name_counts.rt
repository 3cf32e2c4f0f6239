//! The numbers of items that a name section can name (appendix "Name Section" of the WebAssembly Core Specification, and
//! the extended name section proposal).
ghost use Rattle.std.specs.Prelude.{◌≡◌, ◌-◌, ◌++◌, ◌≤◌, ◌^◌, IfOk, OnOk, length};
ghost use Rattle.wasmprinter_spec.specs.Types.{all_types};
ghost use Rattle.wasmprinter_spec.specs.Module.{groups_of};
ghost use Rattle.wasmprinter_ops.specs.Shapes.{role_view};
ghost use Rattle.wasmprinter_custom.specs.Spaces.{id_of};
ghost use Rattle.wasmprinter_hidden.specs.HiddenNames.{item_count, inner_count, field_count, local_count, block_count, opens};
ghost use Rattle.wasmprinter_hidden.specs.NameCounts.{params_of, declared_in, blocks_in, of_imported, of_defined, function_counts};
ghost use Rattle.wasmprinter_hidden.specs.NamedItems.{inner_id};

use crate::name_subsections::InnerSpace;
use std::alloc::{AllocError, Global};
use std::marker::Model;
use wasmprinter_custom::Space;
use wasmprinter_decoder::{Body, BodyParts, ExternKind, ExternType, Fields, Module};
use wasmprinter_ops::opcode_shapes_arities_and_roles::{Listed, Role};

/// The numbers of what a function has that can have names.
#[derive(Clone, Copy)]
pub(crate) struct FunctionCounts {
    /// The number of parameters and locals.
    locals: u64,
    /// The number of blocks in the body. Each of them has a label.
    labels: u64,
}

/// The numbers of a module's items. Contracts see them as the module.
///
/// A name section can name locals of the same function in many inner name maps. To read it in linear time, nothing is
/// counted when names are read: [`NameCounts::new`] goes through the imports, the types and the bodies a constant number of
/// times, and every other method takes constant time. (The contracts do not say so.)
#[derive(Drop)]
pub(crate) struct NameCounts<'m, 'a> {
    module: &'m Module<'a>,
    types: u64,
    tables: u64,
    memories: u64,
    globals: u64,
    tags: u64,
    /// The counts of each function. Imported functions come first.
    functions: Vec<FunctionCounts>,
}

impl<'m, 'a> Model for NameCounts<'m, 'a> {
    ghost use Rattle.wasmprinter_spec.specs.Placed.{PlacedModule};
    ghost use Rattle.wasmprinter_hidden.specs.NameCounts.{AreCounts};

    ghost Value = { PlacedModule };

    ghost view = { λ c. c.module.now };

    ghost invariant = { λ c. AreCounts c.module.now c.types c.tables c.memories c.globals c.tags c.functions.items };
}

/// Returns the number of parameters of the function type with this index, or 0 if there is no such type.
fn param_count(module: &Module<'_>, type_index: u32) -> u32
    ensures { result ≡ params_of «module».now type_index }
{
    match module.signature(type_index) {
        Some(signature) => signature.params().len(),
        None => 0,
    }
}

/// Returns the number of locals that a body declares.
fn declared_count(body: &Body<'_>) -> u64
    ensures all { result ≡ declared_in body.now }
    ensures few { result ≤ 2 ^ 64 - 2 ^ 32 }
{
    let groups = body.locals();
    prove!(groups.len() <= u32::MAX);
    let mut count = 0;
    for entry in groups.iter() {
        count += u64::from(entry.count());
    }
    count
}

/// Reports whether an operator with this role opens a block.
fn opens_block(role: Role) -> bool
    ensures { result ≡ opens (role_view role) }
{
    matches!(role, Role::Opens | Role::OpensIf | Role::OpensTry)
}

/// Returns the number of blocks in a body.
fn block_count(body: &Body<'_>) -> u64
    ensures { result ≡ blocks_in body.now }
{
    let mut count = 0;
    for (_, operator) in body.expression().operators() {
        if opens_block(operator.opcode.role()) {
            count += 1;
        }
    }
    count
}

/// Appends the counts of the imported functions.
fn add_imported(counts: &mut Vec<FunctionCounts>, module: &Module<'_>) -> Result<(), AllocError>
    ensures { OnOk result (counts.new.items ≡ counts.old.items ++ of_imported «module».now) }
{
    for import in module.imports() {
        if let ExternType::Func(type_index) = import.ty() {
            let locals = u64::from(param_count(module, type_index));
            counts.push(FunctionCounts { locals, labels: 0 })?;
        }
    }
    Ok(())
}

/// Appends the counts of the functions that the module defines.
fn add_defined(counts: &mut Vec<FunctionCounts>, module: &Module<'_>) -> Result<(), AllocError>
    ensures { OnOk result (counts.new.items ≡ counts.old.items ++ of_defined «module».now) }
{
    for number in 0..module.function_count() {
        let function = module.function(number);
        let params = u64::from(param_count(module, function.type_index()));
        counts.push(FunctionCounts {
            locals: params + declared_count(function.body()),
            labels: block_count(function.body()),
        })?;
    }
    Ok(())
}

/// Returns the counts of all functions of the module. Imported functions come first.
fn count_functions(alloc: Global, module: &Module<'_>) -> Result<Vec<FunctionCounts>, AllocError>
    ensures { IfOk result (λ v. v.items ≡ function_counts «module».now) }
{
    let mut counts = Vec::new(alloc);
    add_imported(&mut counts, module)?;
    add_defined(&mut counts, module)?;
    Ok(counts)
}

/// Returns the number of types of the module.
fn type_count(module: &Module<'_>) -> u64
    ensures { result ≡ length (all_types (groups_of «module».now.types)) }
{
    let mut count = 0;
    for group in module.types() {
        count += u64::from(group.types().len());
    }
    count
}

impl<'m, 'a> NameCounts<'m, 'a> {
    /// Counts the items of the module.
    pub(crate) fn new(alloc: Global, module: &'m Module<'a>) -> Result<Self, AllocError>
        ensures { IfOk result (λ c. c ≡ «module».now) }
    {
        Ok(NameCounts {
            module,
            types: type_count(module),
            tables: module.imported_count(ExternKind::Table) + module.tables().len() as u64,
            memories: module.imported_count(ExternKind::Memory) + module.memories().len() as u64,
            globals: module.imported_count(ExternKind::Global) + module.globals().len() as u64,
            tags: module.imported_count(ExternKind::Tag) + module.tags().len() as u64,
            functions: count_functions(alloc, module)?,
        })
    }

    /// Returns the counted module.
    pub(crate) fn module(&self) -> &'m Module<'a>
        ensures { result.now ≡ self.now }
    {
        self.module
    }

    /// Returns the number of items of the space, or 0 for locals, labels and fields.
    pub(crate) fn items(&self, space: Space) -> u64
        ensures { result ≡ item_count self.now (id_of space) }
    {
        match space {
            Space::Func => self.functions.len() as u64,
            Space::Types => self.types,
            Space::Table => self.tables,
            Space::Memory => self.memories,
            Space::Global => self.globals,
            Space::Elem => self.module.elements().len() as u64,
            Space::Data => self.module.data_segments().len() as u64,
            Space::Tag => self.tags,
            Space::Local | Space::Label | Space::Field => 0,
        }
    }

    /// Returns the counts of the function with this index, or zeros if there is no such function.
    fn function(&self, index: u32) -> FunctionCounts
        ensures locals { result.locals ≡ local_count self.now index }
        ensures labels { result.labels ≡ block_count self.now index }
    {
        match self.functions.get(index as usize) {
            Some(counts) => *counts,
            None => FunctionCounts {
                locals: 0,
                labels: 0,
            },
        }
    }

    /// Returns the number of fields of the structure type with this index, or 0 if there is no such type.
    fn fields(&self, index: u32) -> u64
        ensures { result ≡ field_count self.now index }
    {
        match self.module.field_count(index) {
            Some(count) => u64::from(count),
            None => 0,
        }
    }

    /// Returns the number of locals or labels of a function, or of fields of a type.
    pub(crate) fn inner_items(&self, space: InnerSpace, outer: u32) -> u64
        ensures { result ≡ inner_count self.now (inner_id space) outer }
    {
        match space {
            InnerSpace::Local => self.function(outer).locals,
            InnerSpace::Label => self.function(outer).labels,
            InnerSpace::Field => self.fields(outer),
        }
    }
}
