//! Open blocks whose labels have names, and which of those names an inner block shadows.
ghost use Rattle.std.specs.Prelude.{◌≡◌, ◌<◌, ◌∷◌, [], length, IfOk, IsOk, replicate, None};
ghost use Rattle.wasmprinter_custom.specs.Views.{name_view};
ghost use Rattle.wasmprinter_flat.specs.OpenLabels.Stack.{depths, AreBelow, Descend, Pops, without_block_at};

use std::alloc::{AllocError, Global};
use std::marker::Model;
use wasmprinter_custom::Name;

/// An open block whose label has a name.
#[derive(Clone, Copy)]
pub(crate) struct NamedBlock<'n> {
    /// The number of blocks around it.
    depth: u64,
    name: Name<'n>,
    /// A number that is the same for labels with equal given names.
    name_number: usize,
    /// The position in `NamedBlocks::blocks` of the innermost enclosing block with the same number.
    hides: Option<usize>,
}

/// The label of the block at a depth.
#[derive(Clone, Copy)]
pub(crate) enum NameAt<'n> {
    /// The label has a name that means this block.
    Visible(Name<'n>),
    /// The label has a name that an inner block shadows.
    Hidden,
    /// The label has no name.
    Unnamed,
}

/// The open blocks whose labels have names.
#[derive(Drop)]
pub(crate) struct NamedBlocks<'n> {
    /// The blocks, outermost first.
    blocks: Vec<NamedBlock<'n>>,
    /// The position in `blocks` of the innermost block with each number.
    innermost: Vec<Option<usize>>,
}

impl<'n> Model for NamedBlocks<'n> {
    ghost use Rattle.std.specs.Prelude.{length, reverse};
    ghost use Rattle.std.specs.Vec.{vec_capacity};
    ghost use Rattle.wasmprinter_flat.specs.OpenLabels.Stack.{Stack};
    ghost use Rattle.wasmprinter_flat.specs.OpenLabels.Blocks.{blocks_view, AreKept};

    ghost Value = { Stack };

    ghost view = { λ s. record { blocks = blocks_view s.blocks.items; limit = length s.innermost.items } };

    ghost invariant = { λ s. AreKept (reverse s.blocks.items) s.innermost.items (vec_capacity s.blocks) };
}

/// Returns a table without a block for each number below `limit`.
fn no_blocks(alloc: Global, limit: usize) -> Result<Vec<Option<usize>>, AllocError>
    ensures none { IfOk result (λ v. v.items ≡ replicate limit None) }
    ensures succeeds { limit ≡ 0 → IsOk result }
{
    let mut none = Vec::with_capacity(alloc, limit)?;
    for _ in 0..limit {
        none.push(None)?;
    }
    Ok(none)
}

impl<'n> NamedBlocks<'n> {
    ghost use Rattle.wasmprinter_flat.specs.OpenLabels.Blocks.{IsNameAt};

    /// Creates an empty stack with room for `limit` blocks, whose numbers must be below `limit`.
    pub(crate) fn new(alloc: Global, limit: usize) -> Result<Self, AllocError>
        ensures none { IfOk result (λ s. s ≡ record { blocks = []; limit = limit }) }
        ensures succeeds { limit ≡ 0 → IsOk result }
    {
        Ok(NamedBlocks {
            blocks: Vec::with_capacity(alloc, limit)?,
            innermost: no_blocks(alloc, limit)?,
        })
    }

    /// Adds a block as the innermost.
    pub(crate) fn push(&mut self, depth: u64, name: Name<'n>, name_number: usize)
        requires room { length self.old.blocks < self.old.limit }
        requires number { name_number < self.old.limit }
        requires inside { AreBelow depth (depths self.old.blocks) }
        ensures { self.new ≡ record {
          blocks = record { depth = depth; name_number = name_number; name = name_view name.entry } ∷ self.old.blocks;
          limit = self.old.limit;
        } }
    {
        let block = NamedBlock {
            depth,
            name,
            name_number,
            hides: self.innermost[name_number],
        };
        self.innermost[name_number] = Some(self.blocks.len());
        match self.blocks.push(block) {
            Ok(()) => {}
            Err(_) => unreachable!(),
        }
    }

    /// Removes the innermost block. Returns whether there was one.
    fn pop(&mut self) -> bool
        ensures { Pops self.old result self.new }
    {
        match self.blocks.pop() {
            Some(block) => {
                self.innermost[block.name_number] = block.hides;
                true
            }
            None => false,
        }
    }

    /// Removes all blocks.
    pub(crate) fn clear(&mut self)
        ensures { self.new ≡ record { blocks = []; limit = self.old.limit } }
    {
        'pops: while self.pop() {}
    }

    /// Removes the innermost block if it is at this depth.
    pub(crate) fn close(&mut self, depth: u64)
        ensures closed { self.new ≡ record { blocks = without_block_at depth self.old.blocks; limit = self.old.limit } }
        ensures descend { Descend (depths self.old.blocks) }
    {
        if self.blocks.last().is_some_and(|block| block.depth == depth) {
            self.pop();
        }
    }

    /// Returns the label of the block at a depth.
    pub(crate) fn find(&self, depth: u64) -> NameAt<'n>
        ensures name { IsNameAt self.now.blocks depth result }
        ensures descend { Descend (depths self.now.blocks) }
    {
        let Ok(position) = self
            .blocks
            .binary_search_by_key(&depth, |block| block.depth)
        else {
            return NameAt::Unnamed;
        };
        let block = self.blocks[position];
        if self.innermost[block.name_number] == Some(position) {
            NameAt::Visible(block.name)
        } else {
            NameAt::Hidden
        }
    }
}
