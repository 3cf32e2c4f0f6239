//! The tree of a list of operators, which grows with each operator.
ghost use Rattle.std.specs.Prelude.{◌≡◌, ◌+◌, ◌-◌, ◌<◌, ◌^◌, [], length, option_map, codes, IfOk, OnOk};
ghost use Rattle.wasmprinter_spec.specs.Table.{role_of};
ghost use Rattle.wasmprinter_spec.specs.Customs.Hints.{next_hint, hints_after};
ghost use Rattle.wasmprinter_spec.specs.Labels.{labels_after};
ghost use Rattle.wasmprinter_spec.specs.Folding.Arities.{signatures_within, counts_of, label_of_block};
ghost use Rattle.wasmprinter_spec.specs.Folding.Code.{nested_code_of};
ghost use Rattle.wasmprinter_spec.specs.Layout.Folded.{items};
ghost use Rattle.wasmprinter_fold.specs.Building.{StateOf, Plain, Opens, OpensIf, Else, Ends, start};
ghost use Rattle.wasmprinter_ops.specs.Shapes.{role_view};
ghost use Rattle.wasmprinter_flat.specs.Settings.{setting_with_names};
ghost use Rattle.wasmprinter_fold.specs.Counted.{counts_view};
ghost use Rattle.wasmprinter_fold.specs.Shown.{ShownNode};
ghost use Rattle.wasmprinter_fold.specs.Growing.{Shows, GrowsByStep, operator_step, shown_operator, shown_keyword, IsGrown};

use crate::arities::counts::Counts;
use crate::arities::counts_of;
use crate::arities::function_and_tag_types::FunctionAndTagTypes;
use crate::arities::label_arities::{LabelCounts, label_of_block};
use crate::node_text::text_buffer::{HintedOperator, Texts};
use crate::nodes::Builder;
use std::alloc::{AllocError, Global};
use wasmprinter_custom::FunctionHints;
use wasmprinter_flat::open_labels::OpenLabels;
use wasmprinter_flat::operators::Setting;
use wasmprinter_ops::expression::Expression;
use wasmprinter_ops::opcode_shapes_arities_and_roles::{Listed, Role};
use wasmprinter_text::type_use::Signatures;

/// The nodes of the operators so far, their texts, and the number of values that the labels of the open blocks
/// expect.
#[derive(Drop)]
pub struct GrowingTree {
    /// The texts of the nodes, in one buffer.
    pub texts: Texts,
    /// The nodes and the open blocks.
    pub builder: Builder,
    /// The number of values that the label of each open block expects.
    pub labels: LabelCounts,
}

/// Removes the next hint if it is for the operator at `offset` bytes from the body's first byte. Returns whether
/// that operator's branch is hinted as taken.
fn take_hint(hints: &mut FunctionHints<'_>, offset: u64) -> Option<bool>
    ensures results { result ≡ option_map (λ h. h.value.taken) (next_hint offset hints.old) }
    ensures after { hints.new ≡ hints_after offset hints.old }
{
    match hints.next_at(offset) {
        Some(hint) => Some(hint.is_taken()),
        None => None,
    }
}

impl GrowingTree {
    /// Creates a tree without nodes. `color` says whether its texts have ANSI escape sequences. This allocates no
    /// memory.
    pub fn new(alloc: Global, color: bool) -> GrowingTree
        ensures { result.texts.color ≡ color }
    {
        GrowingTree {
            texts: Texts::new(alloc, color),
            builder: Builder::new(alloc),
            labels: LabelCounts::new(alloc),
        }
    }

    /// Removes all nodes and keeps the capacity.
    fn clear(&mut self)
        ensures shows { Shows self.new start }
        ensures texts { self.new.texts.bytes ≡ [] }
        ensures color { self.new.texts.color ≡ self.old.texts.color }
        ensures labels { self.new.labels ≡ [] }
    {
        self.texts.clear();
        self.builder.clear();
        self.labels.clear();
    }

    /// Adds a plain operator.
    fn plain<S: Signatures>(
        &mut self,
        setting: &Setting<'_, S>,
        labels: &OpenLabels<'_, '_>,
        next: HintedOperator<'_, '_>,
        counts: Counts,
    ) -> Result<(), AllocError>
        requires room { length labels.now.labels + 1 < 2 ^ 64 }
        requires shows { (s : StateOf ShownNode) × Shows self.old s }
        ensures color { self.new.texts.color ≡ self.old.texts.color }
        ensures labels { self.new.labels ≡ self.old.labels }
        ensures steps { OnOk result (GrowsByStep self.old self.new (Plain
            (shown_operator self.old.texts.color (setting_with_names S.signature_at setting.now labels.now) labels.now next.entry.place next.entry.hint next.entry.operator.now)
            counts.operands counts.results)) }
    {
        let head = self.texts.write_operator(setting, labels, next)?;
        self.builder.plain(head, counts.operands, counts.results)
    }

    /// Opens a block.
    fn open<S: Signatures>(
        &mut self,
        setting: &Setting<'_, S>,
        labels: &OpenLabels<'_, '_>,
        next: HintedOperator<'_, '_>,
        counts: Counts,
    ) -> Result<(), AllocError>
        requires room { length labels.now.labels + 1 < 2 ^ 64 }
        requires shows { (s : StateOf ShownNode) × Shows self.old s }
        ensures color { self.new.texts.color ≡ self.old.texts.color }
        ensures labels { self.new.labels ≡ self.old.labels }
        ensures steps { OnOk result (GrowsByStep self.old self.new (Opens
            (shown_operator self.old.texts.color (setting_with_names S.signature_at setting.now labels.now) labels.now next.entry.place next.entry.hint next.entry.operator.now)
            counts.results)) }
    {
        let head = self.texts.write_operator(setting, labels, next)?;
        self.builder.open(head, counts.results)
    }

    /// Opens an `if` and its first case.
    fn open_if<S: Signatures>(
        &mut self,
        setting: &Setting<'_, S>,
        labels: &OpenLabels<'_, '_>,
        next: HintedOperator<'_, '_>,
        counts: Counts,
    ) -> Result<(), AllocError>
        requires room { length labels.now.labels + 1 < 2 ^ 64 }
        requires shows { (s : StateOf ShownNode) × Shows self.old s }
        ensures color { self.new.texts.color ≡ self.old.texts.color }
        ensures labels { self.new.labels ≡ self.old.labels }
        ensures steps { OnOk result (GrowsByStep self.old self.new (OpensIf
            (shown_operator self.old.texts.color (setting_with_names S.signature_at setting.now labels.now) labels.now next.entry.place next.entry.hint next.entry.operator.now)
            (shown_keyword self.old.texts.color next.entry.place (codes "then")) counts.results)) }
    {
        let head = self.texts.write_operator(setting, labels, next)?;
        let then = self.texts.write_keyword("then", next.place)?;
        self.builder.open_if(head, then, counts.results)
    }

    /// Opens the second case of the innermost `if`, at an `else`.
    fn turn(&mut self, place: u64) -> Result<(), AllocError>
        requires { (s : StateOf ShownNode) × Shows self.old s }
        ensures color { self.new.texts.color ≡ self.old.texts.color }
        ensures labels { self.new.labels ≡ self.old.labels }
        ensures steps { OnOk result (GrowsByStep self.old self.new (Else
            (shown_keyword self.old.texts.color place (codes "else")))) }
    {
        let head = self.texts.write_keyword("else", place)?;
        self.builder.turn(head)
    }

    /// Closes the innermost block, at an `end`.
    fn end(&mut self) -> Result<(), AllocError>
        requires { (s : StateOf ShownNode) × Shows self.old s }
        ensures color { self.new.texts.color ≡ self.old.texts.color }
        ensures labels { self.new.labels ≡ self.old.labels }
        ensures steps { OnOk result (GrowsByStep self.old self.new Ends) }
    {
        self.builder.end()
    }

    /// Adds an operator with this role and these numbers of operands and results. `fold` stops at the first `try`, `catch`,
    /// `catch_all` or `delegate`, so this function never gets one; its `match` treats them like `end`. A hint before an
    /// `else` or an `end` is dropped: a module with such a hint is refused before anything is printed.
    fn add<S: Signatures>(
        &mut self,
        setting: &Setting<'_, S>,
        labels: &OpenLabels<'_, '_>,
        next: HintedOperator<'_, '_>,
        role: Role,
        counts: Counts,
    ) -> Result<(), AllocError>
        requires room { length labels.now.labels + 1 < 2 ^ 64 }
        requires role { role_view role ≡ role_of next.operator.now.opcode }
        requires shows { (s : StateOf ShownNode) × Shows self.old s }
        ensures color { self.new.texts.color ≡ self.old.texts.color }
        ensures labels { self.new.labels ≡ self.old.labels }
        ensures steps { OnOk result (GrowsByStep self.old self.new (operator_step self.old.texts.color
            (setting_with_names S.signature_at setting.now labels.now) labels.now next.entry.place next.entry.hint next.entry.operator.now (counts_view counts))) }
    {
        match role {
            Role::Plain => self.plain(setting, labels, next, counts),
            Role::Opens => self.open(setting, labels, next, counts),
            Role::OpensIf => self.open_if(setting, labels, next, counts),
            Role::Else => self.turn(next.place),
            Role::OpensTry | Role::Catches | Role::CatchesAll | Role::Delegates | Role::Ends => {
                self.end()
            }
        }
    }

    /// Adds the next operator, whose role is `role`. `labels` are those that are open before it.
    fn fold_next<S: Signatures>(
        &mut self,
        callees: &FunctionAndTagTypes<'_, '_>,
        setting: &Setting<'_, S>,
        labels: &OpenLabels<'_, '_>,
        own: Option<u32>,
        next: HintedOperator<'_, '_>,
        role: Role,
    ) -> Result<(), AllocError>
        requires room { length labels.now.labels + 1 < 2 ^ 64 }
        requires role { role_view role ≡ role_of next.operator.now.opcode }
        requires shows { (s : StateOf ShownNode) × Shows self.old s }
        ensures color { self.new.texts.color ≡ self.old.texts.color }
        ensures labels { OnOk result (self.new.labels ≡ labels_after (role_of next.entry.operator.now.opcode)
            (label_of_block (signatures_within callees.now own) next.entry.operator.now) self.old.labels) }
        ensures steps { OnOk result (GrowsByStep self.old self.new (operator_step self.old.texts.color
            (setting_with_names S.signature_at setting.now labels.now) labels.now next.entry.place next.entry.hint next.entry.operator.now
            (counts_of (signatures_within callees.now own) self.old.labels next.entry.operator.now))) }
    {
        let operator = next.operator;
        let counts = counts_of(callees, own, &self.labels, operator);
        self.add(setting, labels, next, role, counts)?;
        match role {
            Role::Plain => Ok(()),
            role => self.labels.advance(role, label_of_block(callees, operator)),
        }
    }

    /// Folds the operators of an expression. `own` is the number of results of the enclosing function: 0 in a constant
    /// expression, `None` if the function's type is unknown. Returns whether the operators are folded: they are not if
    /// one of them is `try`, `catch`, `catch_all` or `delegate`. On `Ok(true)`, the tree has the nodes of the operators
    /// and no others (`grown`); before the first operator no block was opened (the bare `0`), and no label is open
    /// (`[] []`). The color and the identifiers of `labels` stay, also after an error.
    ///
    /// # Errors
    ///
    /// Returns an error if an allocation fails. The nodes are then unusable until the next list is folded.
    pub fn fold<S: Signatures>(
        &mut self,
        callees: &FunctionAndTagTypes<'_, '_>,
        setting: &Setting<'_, S>,
        labels: &mut OpenLabels<'_, '_>,
        own: Option<u32>,
        hints: FunctionHints<'_>,
        expression: &Expression<'_>,
    ) -> Result<bool, AllocError>
        ensures color { self.new.texts.color ≡ self.old.texts.color }
        ensures item_names { labels.new.item_names ≡ labels.old.item_names }
        ensures synthesizes { labels.new.synthesizes ≡ labels.old.synthesizes }
        ensures grown { IfOk result (λ folded. IsGrown self.old.texts.color self.new folded (nested_code_of
            (items (setting_with_names S.signature_at setting.now labels.old) (signatures_within callees.now own) hints.entry 0 [] []
            expression.now.items))) }
    {
        self.clear();
        labels.begin(setting.function);
        let mut hints = hints;
        // The operator is not moved out of the item, since its bytes would be copied.
        for item in expression.operators() {
            let place = item.0;
            let operator = &item.1;
            let role = operator.opcode.role();
            if role.is_of_try() {
                return Ok(false);
            }
            let hint = take_hint(&mut hints, place.saturating_sub(setting.body));
            let next = HintedOperator {
                operator,
                place,
                hint,
            };
            self.fold_next(callees, setting, labels, own, next, role)?;
            labels.advance(role);
        }
        Ok(true)
    }
}
