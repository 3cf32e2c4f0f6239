//! Locals (section 6.6 of the WebAssembly Core Specification, "Functions").
ghost use Rattle.std.specs.Prelude.{◌≡◌, ◌+◌, ◌<◌, ◌^◌, false, codes, replicate};
ghost use Rattle.wasmprinter_spec.specs.Module.{locals_of};
ghost use Rattle.wasmprinter_spec.specs.Layout.Functions.{locals_place, local_pieces};
ghost use Rattle.wasmprinter_ops.specs.ValTypes.{val_type_view};
ghost use Rattle.wasmprinter_flat.specs.OpenLabels.LabelState.{names_of};
ghost use Rattle.wasmprinter_text.specs.Variables.{walk_pieces};
ghost use Rattle.wasmprinter_text.specs.declared.types.params_and_locals.Before.TheVariants.{Line};
ghost use Rattle.wasmprinter_module_text.specs.LocalWalk.{after_one, after_all, local_parts, locals_parts};

use crate::printing_scope::Scope;
use wasmprinter_decoder::{LocalEntry, Locals};
use wasmprinter_ops::ValType;
use wasmprinter_print::Output;
use wasmprinter_text::lines::write_break;
use wasmprinter_text::types::params_and_locals::{Before, close_variables, write_variable};

/// The nesting depth of the locals of a function.
const LOCALS_NESTING: u64 = 2;

/// The position before a local: the state of the text, and the number of the local.
#[derive(Clone, Copy)]
struct Position {
    before: Before,
    number: u64,
}

/// Returns the place of the first entry that declares a local, if there is one.
fn locals_place(locals: &Locals<'_>) -> Option<u64>
    ensures { result ≡ locals_place locals.now }
{
    for entry in locals.iter() {
        if entry.count() != 0 {
            return Some(entry.place());
        }
    }
    None
}

/// Writes a local of the function and returns the position after it.
fn write_local<O: Output>(
    out: &mut O,
    scope: &Scope<'_, '_>,
    function: u64,
    position: Position,
    value_type: ValType,
) -> Position
    requires { position.number + 1 < 2 ^ 64 }
    ensures pieces { O.wrote out.old out.new
        (local_parts (names_of scope.now.labels) function position (val_type_view value_type)) }
    ensures after { result ≡ after_one ((names_of scope.now.labels).locals function) position }
{
    let Position { before, number } = position;
    let before = write_variable(
        out,
        &scope.identifiers(),
        Some(function),
        "local",
        before,
        number,
        value_type,
    );
    Position {
        before,
        number: number + 1,
    }
}

/// Writes the locals of an entry and returns the position after them. After an error the position has no meaning.
fn write_entry<O: Output>(
    out: &mut O,
    scope: &Scope<'_, '_>,
    function: u64,
    start: Position,
    entry: &LocalEntry,
) -> Position
    requires { start.number + entry.now.value.count < 2 ^ 64 }
    ensures pieces { O.wrote out.old out.new
        (locals_parts (names_of scope.now.labels) function start (replicate entry.now.value.count entry.now.value.type)) }
    ensures after { O.failed out.new ≡ false → result ≡ after_all ((names_of scope.now.labels).locals function) start
        (replicate entry.now.value.count entry.now.value.type) }
{
    let mut position = start;
    for _ in 0..entry.count() {
        if out.has_failed() {
            return position;
        }
        position = write_local(out, scope, function, position, entry.val_type());
    }
    position
}

/// Writes all locals in their groups, at the start of a line. They are numbered after `parameters` parameters.
fn write_entries<O: Output>(
    out: &mut O,
    scope: &Scope<'_, '_>,
    function: u64,
    parameters: u32,
    locals: &Locals<'_>,
)
    ensures { O.wrote out.old out.new
        (walk_pieces (names_of scope.now.labels) (codes "local") ((names_of scope.now.labels).locals function) Line parameters
        (locals_of locals.now)) }
{
    prove!(locals.len() <= u32::MAX);
    let mut position = Position {
        before: Before::Line,
        number: u64::from(parameters),
    };
    for entry in locals.iter() {
        prove!(entry.count() <= u32::MAX);
        position = write_entry(out, scope, function, position, &entry);
        if out.has_failed() {
            return;
        }
    }
    close_variables(out, position.before);
}

/// Writes all locals of the function on one line, numbered after `parameters` parameters. Writes nothing if there
/// are no locals.
pub(crate) fn write_locals<O: Output>(
    out: &mut O,
    scope: &Scope<'_, '_>,
    function: u64,
    parameters: u32,
    locals: &Locals<'_>,
)
    ensures { O.wrote out.old out.new
        (local_pieces (names_of scope.now.labels) function parameters locals.now) }
{
    if let Some(place) = locals_place(locals) {
        write_break(out, Some(place), LOCALS_NESTING);
        write_entries(out, scope, function, parameters, locals);
    }
}
