//! The labels of open blocks, and which of them an operator may refer to by name (section 6.5 of the WebAssembly
//! Core Specification, "Labels").
ghost use Rattle.std.specs.Prelude.{◌≡◌, ℕ, ◌+◌, ◌<◌, ◌^◌, [], length, None, option_map, IsOk, IfOk};
ghost use Rattle.wasmprinter_spec.specs.Names.Section.{label_subsection};
ghost use Rattle.wasmprinter_ops.specs.Shapes.{role_view};
ghost use Rattle.wasmprinter_custom.specs.Views.{name_at};
ghost use Rattle.wasmprinter_custom.specs.Shown.{identifier_view};
ghost use Rattle.wasmprinter_flat.specs.OpenLabels.Found.{found_among};
ghost use Rattle.wasmprinter_flat.specs.OpenLabels.LabelState.{own_label, at_start, at_start_again, found_at};
ghost use Rattle.wasmprinter_flat.specs.OpenLabels.LabelState.{after_opening, after_closing, after_operator};
ghost use Rattle.wasmprinter_flat.specs.OpenLabels.Stack.{unnamed_label};
ghost use Rattle.wasmprinter_flat.specs.OpenLabels.Inside.{label_of};
ghost use Rattle.wasmprinter_flat.specs.OpenLabels.Views.{found_view};

mod label_numbering;
mod label_shadowing;

use crate::open_labels::label_numbering::{NumberedLabel, numbered_labels};
use crate::open_labels::label_shadowing::{NameAt, NamedBlocks};
use std::alloc::{AllocError, Global};
use std::marker::Model;
use wasmprinter_custom::{Identifier, Identifiers, NameEntries, Space};
use wasmprinter_ops::opcode_shapes_arities_and_roles::Role;

/// The meaning of a label index to a printer.
#[derive(Clone, Copy, Debug, PartialEq, Eq)]
pub enum LabelRef<'n> {
    /// An enclosing block that this identifier refers to.
    ByName(Identifier<'n>),
    /// An enclosing block whose identifier an inner block shadows, or the body.
    ByNumber,
    /// An enclosing block without an identifier, by its number. Enclosing blocks are counted from 1, outermost first.
    ToBlock(u64),
    /// No block.
    ToNothing,
}

/// The labels of the blocks that are open between two operators of an expression.
#[derive(Drop)]
pub struct OpenLabels<'n, 'a> {
    identifiers: Identifiers<'n, 'a>,
    /// The labels that have names, sorted by function and number.
    labels: Vec<NumberedLabel<'n>>,
    /// The number of those labels that belong to blocks before the next one.
    next: usize,
    function: u64,
    /// The number of blocks opened so far.
    opened: u64,
    /// The number of open blocks.
    depth: u64,
    /// The open blocks whose labels have names.
    named: NamedBlocks<'n>,
}

impl<'n, 'a> Model for OpenLabels<'n, 'a> {
    ghost use Rattle.wasmprinter_flat.specs.OpenLabels.LabelState.{LabelState};
    ghost use Rattle.wasmprinter_flat.specs.OpenLabels.Stack.{labels_from};
    ghost use Rattle.wasmprinter_flat.specs.OpenLabels.Inside.{IsKept};

    ghost Value = { LabelState };

    ghost view = { λ x. record {
      item_names = x.identifiers.names.now;
      synthesizes = x.identifiers.synthesizes;
      function = x.function;
      count = x.opened;
      labels = labels_from x.identifiers.synthesizes x.named.blocks x.depth;
    } };

    ghost invariant = { λ x. IsKept x.identifiers.names.now x.labels.items x.next x.function x.opened x.depth x.named };
}

/// Returns the label with the index if it is that of the given block of the function.
fn label_of<'n>(
    labels: &[NumberedLabel<'n>],
    index: usize,
    function: u64,
    block: u64,
) -> Option<NumberedLabel<'n>>
    ensures { result ≡ label_of labels.now index function block }
{
    let label = *labels.get(index)?;
    (label.label.function == function && label.label.number == block).then_some(label)
}

/// Returns the synthesized identifier of a label without a name, from the number of blocks around its block, or
/// `None` if identifiers are not synthesized.
fn unnamed_identifier<'n>(synthesizes: bool, depth: u64) -> Option<Identifier<'n>>
    ensures { option_map identifier_view result ≡ unnamed_label synthesizes depth }
{
    synthesizes.then_some(Identifier::Synthesized {
        space: Space::Label,
        number: depth,
    })
}

impl<'n, 'a> OpenLabels<'n, 'a> {
    /// Creates the state at the start of an expression of function 0, with these identifiers. No block is open, and
    /// none was opened (`start`).
    ///
    /// # Errors
    ///
    /// If an allocation fails. If no label of any function has a name, there is no error (`succeeds`).
    pub fn new(alloc: Global, identifiers: Identifiers<'n, 'a>) -> Result<Self, AllocError>
        ensures start { IfOk result (λ labels. labels ≡ at_start identifiers.entry 0) }
        ensures succeeds { ((f n : ℕ) → name_at identifiers.entry.names.now label_subsection f n ≡ None) → IsOk result }
    {
        let labels = numbered_labels(alloc, &identifiers.names.labels(alloc)?)?;
        let named = NamedBlocks::new(alloc, labels.len())?;
        Ok(OpenLabels {
            identifiers,
            labels,
            next: 0,
            function: 0,
            opened: 0,
            depth: 0,
            named,
        })
    }

    /// Returns the identifiers that were passed to [`OpenLabels::new`]: the names (`item_names`), and whether
    /// identifiers are synthesized (`synthesizes`).
    pub fn identifiers(&self) -> Identifiers<'n, 'a>
        ensures item_names { result.names.now ≡ self.now.item_names }
        ensures synthesizes { result.synthesizes ≡ self.now.synthesizes }
    {
        self.identifiers
    }

    /// Moves to the start of an expression of the function: no block is open, and none was opened. The identifiers
    /// stay.
    pub fn begin(&mut self, function: u64)
        ensures { self.new ≡ at_start_again function self.old }
    {
        self.next = self
            .labels
            .partition_point(|label| label.label.function < function);
        self.function = function;
        self.opened = 0;
        self.depth = 0;
        self.named.clear();
    }

    /// Returns the number of open blocks.
    pub fn depth(&self) -> u64
        ensures { result ≡ length self.now.labels }
    {
        self.depth
    }

    /// Returns the identifier of the block that would be opened next, if it has one.
    ///
    /// Its name is that of its number: blocks count from 0, as they open. Without a name, the identifier is synthesized
    /// from the number of open blocks, or `None` if identifiers are not synthesized.
    pub fn own(&self) -> Option<Identifier<'n>>
        ensures { option_map identifier_view result ≡ own_label self.now }
    {
        match label_of(&self.labels, self.next, self.function, self.opened) {
            Some(next) => Some(Identifier::Given(next.label.name)),
            None => unnamed_identifier(self.identifiers.synthesizes, self.depth),
        }
    }

    /// Moves past an operator that opens a block.
    #[inline(never)]
    fn open(&mut self)
        requires { self.old.count + 1 < 2 ^ 64 }
        ensures { self.new ≡ after_opening self.old }
    {
        let label = label_of(&self.labels, self.next, self.function, self.opened);
        let depth = self.depth;
        self.opened += 1;
        self.depth += 1;
        let Some(label) = label else {
            return;
        };
        self.named.push(depth, label.label.name, label.name_number);
        self.next += 1;
    }

    /// Moves past an operator that closes a block.
    #[inline(never)]
    fn close(&mut self)
        ensures { self.new ≡ after_closing self.old }
    {
        if self.depth > 0 {
            self.depth -= 1;
            self.named.close(self.depth);
        }
    }

    /// Moves past an operator with the role. If it opens a block, that block is counted and becomes the innermost one,
    /// with the identifier that [`OpenLabels::own`] returned. If it is `end` or `delegate`, the innermost block, if
    /// any, is closed. Any other operator, also `else`, changes nothing. The identifiers and the function stay. Fewer
    /// than 2^64 - 1 blocks must have been opened.
    #[inline(always)]
    pub fn advance(&mut self, role: Role)
        requires { self.old.count + 1 < 2 ^ 64 }
        ensures { self.new ≡ after_operator (role_view role) self.old }
    {
        match role {
            Role::Opens | Role::OpensIf | Role::OpensTry => self.open(),
            Role::Delegates | Role::Ends => self.close(),
            Role::Plain | Role::Else | Role::Catches | Role::CatchesAll => {}
        }
    }

    /// Returns the meaning of a label index among all open blocks.
    fn meaning(&self, label: u64) -> LabelRef<'n>
        ensures { found_view result ≡ found_among [] self.now.labels label }
    {
        if label > self.depth {
            return LabelRef::ToNothing;
        }
        if label == self.depth {
            return LabelRef::ByNumber;
        }
        let depth = self.depth - 1 - label;
        match self.named.find(depth) {
            NameAt::Visible(name) => LabelRef::ByName(Identifier::Given(name)),
            NameAt::Hidden => LabelRef::ByNumber,
            NameAt::Unnamed => match unnamed_identifier(self.identifiers.synthesizes, depth) {
                Some(identifier) => LabelRef::ByName(identifier),
                None => LabelRef::ToBlock(self.depth - label),
            },
        }
    }

    /// Returns the meaning of a label index in an operator with the role, among the blocks that are open before it:
    /// `ByName` for a block with an identifier, `ByNumber` instead if a block inside it was given the same name,
    /// `ToBlock` for a block without an identifier, `ByNumber` also for the body, and `ToNothing` if the index is
    /// greater. For `delegate` the index does not count the innermost block, but the name of that block still shadows
    /// others.
    pub fn find(&self, role: Role, label: u32) -> LabelRef<'n>
        ensures { found_view result ≡ found_at (role_view role) self.now label }
    {
        let label = u64::from(label);
        match role {
            Role::Delegates if self.depth > 0 => self.meaning(label + 1),
            _ => self.meaning(label),
        }
    }
}
