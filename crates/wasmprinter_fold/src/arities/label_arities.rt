//! The number of values that the label of a block expects, and those of the open blocks (section 3.4 of the WebAssembly
//! Core Specification, "Control Instructions").
ghost use Rattle.std.specs.Prelude.{◌≡◌, [], ℕ, Option, OnOk, OnErr};
ghost use Rattle.wasmprinter_spec.specs.Labels.{labels_after};
ghost use Rattle.wasmprinter_spec.specs.Folding.Arities.{signatures_within, is_loop, label_of_type, label_of_block, label_count};
ghost use Rattle.wasmprinter_ops.specs.Blocks.{block_type_view};
ghost use Rattle.wasmprinter_ops.specs.Nesting.{OpensBlock};
ghost use Rattle.wasmprinter_ops.specs.Shapes.{role_view};
ghost use Rattle.wasmprinter_fold.specs.Named.{count_if_any};

use crate::arities::block_types::{block_operands, block_results};
use crate::arities::function_and_tag_types::FunctionAndTagTypes;
use std::alloc::{AllocError, Global};
use std::marker::Model;
use wasmprinter_ops::block_immediates::BlockType;
use wasmprinter_ops::opcode_shapes_arities_and_roles::{Opcode, Role};
use wasmprinter_ops::operator::{Immediates, Operator};

/// The opcode of `loop`.
const LOOP: u32 = 0x03;

/// Reports whether the opcode is that of `loop`.
fn is_loop(opcode: Opcode) -> bool
    ensures { result ≡ is_loop opcode }
{
    opcode.prefix == 0 && opcode.number == LOOP
}

/// Returns the number of values that the label of a block with the type expects. A branch to the label of a loop
/// goes to the start of the loop, so it passes the loop's parameters.
fn label_of_type(callees: &FunctionAndTagTypes, is_loop: bool, block_type: BlockType) -> Option<u32>
    // The enclosing function does not matter.
    ensures { (own : Option ℕ) → result
        ≡ label_of_type (signatures_within callees.now own) is_loop (block_type_view block_type) }
{
    if is_loop {
        block_operands(callees, block_type)
    } else {
        block_results(callees, block_type)
    }
}

/// Returns the number of values that the label of an operator's block expects: the parameters of a loop, the
/// results of any other block. Returns `None` if the block's type is unknown, and for an operator that opens no
/// block. Contracts see `callees` as the module.
pub fn label_of_block(callees: &FunctionAndTagTypes, operator: &Operator<'_>) -> Option<u32>
    // The enclosing function does not matter.
    ensures { (own : Option ℕ) →
        result ≡ label_of_block (signatures_within callees.now own) operator.now }
{
    match &operator.immediates {
        Immediates::Block(block_type) => {
            label_of_type(callees, is_loop(operator.opcode), *block_type)
        }
        Immediates::TryTable(block_type, _) => block_results(callees, *block_type),
        _ => None,
    }
}

/// The number of values that the label of each open block expects. Contracts see it as the list of these numbers, the
/// innermost block first.
#[derive(Drop)]
pub struct LabelCounts {
    /// The innermost block is the last. `None` if the block's type is unknown.
    counts: Vec<Option<u32>>,
}

impl Model for LabelCounts {
    ghost use Rattle.std.specs.Prelude.{ℕ, List, Option, reverse};

    ghost Value = { List (Option ℕ) };

    ghost view = { λ l. reverse l.counts.items };
}

impl LabelCounts {
    /// Creates the state without open blocks.
    pub fn new(alloc: Global) -> Self
        ensures { result ≡ [] }
    {
        LabelCounts {
            counts: Vec::new(alloc),
        }
    }

    /// Closes all blocks.
    pub fn clear(&mut self)
        ensures { self.new ≡ [] }
    {
        self.counts.clear();
    }

    /// Moves past an operator with the role. If it opens a block, the block's label, which expects `opened` values,
    /// becomes the innermost. A `delegate` or an `end` removes the innermost label, if there is one.
    ///
    /// # Errors
    ///
    /// Returns an error if an allocation fails, which is possible only for an operator that opens a block. Nothing has
    /// changed then.
    pub fn advance(&mut self, role: Role, opened: Option<u32>) -> Result<(), AllocError>
        ensures ok { OnOk result (self.new ≡ labels_after (role_view role) opened self.old) }
        ensures memory { OnErr result (OpensBlock (role_view role)) }
        ensures unchanged { OnErr result (self.new ≡ self.old) }
    {
        match role {
            Role::Opens | Role::OpensIf | Role::OpensTry => self.counts.push(opened)?,
            Role::Delegates | Role::Ends => {
                self.counts.pop();
            }
            Role::Plain | Role::Else | Role::Catches | Role::CatchesAll => {}
        }
        Ok(())
    }

    /// Returns the number of values that a label expects. Label 0 is that of the innermost block. The label after those
    /// of all open blocks is that of the body, which expects `own` values. Returns `None` if the block's type is
    /// unknown or there is no such label.
    pub fn find(&self, own: Option<u32>, label: u32) -> Option<u32>
        ensures { result ≡ label_count self.now own label }
    {
        let depth = self.counts.len();
        let label = label as usize;
        if label < depth {
            self.counts[depth - 1 - label]
        } else if label == depth {
            own
        } else {
            None
        }
    }

    /// Returns the number of values that a label expects, or `None` if there is no label.
    pub(crate) fn find_if_any(&self, own: Option<u32>, label: Option<u32>) -> Option<u32>
        ensures { result ≡ count_if_any self.now own label }
    {
        self.find(own, label?)
    }
}
