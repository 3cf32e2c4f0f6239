//! The lists of operators in a module's definitions (section 2.5 of the WebAssembly Core Specification, "Modules").
ghost use Rattle.std.specs.Prelude.{◌≡◌, ◌∷◌, [], map};
ghost use Rattle.std.specs.List.{flat_map};
ghost use Rattle.wasmprinter_bytes.specs.declared.library_error.Error.TheVariants.{FoldLegacy};
ghost use Rattle.wasmprinter_spec.specs.Folding.Refusals.{legacy_places_in, init_list, element_lists, offset_list, item_lists, data_lists};
ghost use Rattle.wasmprinter_decoder.specs.Segments.{element_mode_view, element_items_view};
ghost use Rattle.wasmprinter_fold.specs.Refused.{error_of_first};

use crate::fold_refusals::legacy_operator_checks::check_expression;
use wasmprinter_bytes::Error;
use wasmprinter_decoder::{
    BodyParts, Data, DataMode, Element, ElementItems, ElementMode, Fields, Global, Module, Table,
};
use wasmprinter_ops::expression::Expression;

/// An item that contains lists of operators.
pub(crate) trait HasExpressions {
    ghost use Rattle.std.specs.Prelude.{List, Bool};
    ghost use Rattle.wasmprinter_spec.specs.Folding.Refusals.{Operators};

    /// The lists that are printed, in a skeleton or in the full text.
    ghost lists: { Bool → Self → List Operators };

    /// Returns an error for the first legacy operator in these lists.
    fn check_legacy(&self, skeleton: bool) -> Result<(), Error>
        ensures { result ≡ error_of_first FoldLegacy (flat_map legacy_places_in (lists skeleton self.now)) };
}

impl<'a> HasExpressions for Expression<'a> {
    ghost lists = { λ skeleton e. e.items ∷ [] };

    fn check_legacy(&self, _skeleton: bool) -> Result<(), Error> {
        check_expression(self)
    }
}

impl<'a> HasExpressions for Table<'a> {
    ghost lists = { λ skeleton t. init_list t };

    fn check_legacy(&self, _skeleton: bool) -> Result<(), Error> {
        match self.init() {
            Some(init) => check_expression(init),
            None => Ok(()),
        }
    }
}

impl<'a> HasExpressions for Global<'a> {
    ghost lists = { λ skeleton g. g.value.init ∷ [] };

    fn check_legacy(&self, _skeleton: bool) -> Result<(), Error> {
        check_expression(self.init())
    }
}

impl<'a> HasExpressions for Data<'a> {
    ghost lists = { λ skeleton d. data_lists d };

    fn check_legacy(&self, _skeleton: bool) -> Result<(), Error> {
        match self.mode() {
            DataMode::Passive => Ok(()),
            DataMode::Active { memory: _, offset } => check_expression(offset),
        }
    }
}

/// Returns an error for the first legacy operator in the offset of an element segment.
fn check_offset(mode: &ElementMode<'_>) -> Result<(), Error>
    ensures { result ≡ error_of_first FoldLegacy (flat_map legacy_places_in (offset_list (element_mode_view mode.now))) }
{
    match mode {
        ElementMode::Passive | ElementMode::Declared => Ok(()),
        ElementMode::Active { table: _, offset } => check_expression(offset),
    }
}

/// Returns an error for the first legacy operator in items that are expressions.
#[tactic(auto, using(crate::proofs::Steps::items_single))]
fn check_items(items: &ElementItems<'_>) -> Result<(), Error>
    ensures { result ≡ error_of_first FoldLegacy (flat_map legacy_places_in (item_lists (element_items_view items.now))) }
{
    match items {
        ElementItems::Functions(_) => Ok(()),
        ElementItems::Expressions(_, expressions) => check_each(expressions, false),
    }
}

impl<'a> HasExpressions for Element<'a> {
    ghost lists = { λ skeleton e. element_lists skeleton e };

    fn check_legacy(&self, skeleton: bool) -> Result<(), Error> {
        check_offset(self.mode())?;
        if skeleton {
            return Ok(());
        }
        check_items(self.items())
    }
}

/// Returns `FoldLegacy`, with its place, for the first legacy operator in the printed lists of the items.
pub(crate) fn check_each<T: HasExpressions>(items: &[T], skeleton: bool) -> Result<(), Error>
    ensures { result ≡ error_of_first FoldLegacy (flat_map legacy_places_in (flat_map (T.lists skeleton) items.now)) }
{
    for item in items {
        item.check_legacy(skeleton)?;
    }
    Ok(())
}

/// Returns `FoldLegacy`, with its place, for the first legacy operator in the bodies of functions.
pub(crate) fn check_bodies(module: &Module<'_>) -> Result<(), Error>
    ensures { result ≡ error_of_first FoldLegacy (flat_map legacy_places_in (map (λ f. f.body.value.operators) module.now.functions)) }
{
    for index in 0..module.function_count() {
        check_expression(module.function(index).body().expression())?;
    }
    Ok(())
}
