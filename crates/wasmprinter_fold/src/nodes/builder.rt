//! The builder, which folds one operator after another.
ghost use Rattle.std.specs.Prelude.{◌≡◌, ◌≤◌, length, OnOk};
ghost use Rattle.wasmprinter_fold.specs.Building.{OpenNodes};
ghost use Rattle.wasmprinter_fold.specs.Postorder.{IsPostorder, forest_of};
ghost use Rattle.wasmprinter_fold.specs.Frames.{with_node, with_case, with_block, frames, base_candidates};
ghost use Rattle.wasmprinter_fold.specs.declared.nodes.NodeText.{NodeText};

use crate::nodes::candidates::{Candidate, end_of, operands_cut, predicate_of, push_candidate};
use crate::nodes::{Node, NodeText};
use std::alloc::{AllocError, Global};

/// The part of a block that is open.
#[derive(Clone, Copy, Debug)]
pub enum Arm {
    /// The content of a block without cases.
    Block,
    /// The first case of an `if`, with the head of its node.
    Then(NodeText),
    /// The second case of an `if`, with the head of its node.
    Else(NodeText),
}

/// An open block.
#[derive(Clone, Copy, Debug)]
pub struct Frame {
    /// The part that is open.
    pub arm: Arm,
    /// The text of its node.
    pub head: NodeText,
    /// The number of its results.
    pub results: u32,
    /// The index of the first node that the block will hold.
    pub operands_start: usize,
    /// The index of the first node of its open part.
    pub start: usize,
    /// The index of the first candidate of its open part.
    pub candidates_start: usize,
}

/// Builds the nodes of a list of operators, one operator after another.
///
/// All nodes are in one list, and no node is ever moved: an operator is added after its operands, and its size
/// counts them. Operands are searched in a second list, which has an entry for each node that a later operator may take.
/// After an error the nodes are unusable until the list is cleared.
#[derive(Drop)]
pub struct Builder {
    nodes: Vec<Node>,
    candidates: Vec<Candidate>,
    frames: Vec<Frame>,
}

/// Adds a node that holds the nodes from index `from` on.
fn wrap(nodes: &mut Vec<Node>, head: NodeText, results: u32, from: usize) -> Result<(), AllocError>
    requires { from ≤ length nodes.old.items }
    ensures { OnOk result (nodes.new.items ≡ with_node nodes.old.items head results from) }
{
    let size = nodes.len() - from + 1;
    nodes.push(Node {
        head,
        results,
        size,
    })?;
    Ok(())
}

/// Adds the node of the open case of an `if`. A block without cases has none.
fn wrap_case(nodes: &mut Vec<Node>, frame: Frame) -> Result<(), AllocError>
    requires { frame.start ≤ length nodes.old.items }
    ensures { OnOk result (nodes.new.items ≡ with_case nodes.old.items frame.arm frame.start) }
{
    match frame.arm {
        Arm::Block => Ok(()),
        Arm::Then(case) | Arm::Else(case) => wrap(nodes, case, 0, frame.start),
    }
}

/// Adds the node of a block, after that of its open case.
fn wrap_block(nodes: &mut Vec<Node>, frame: Frame) -> Result<(), AllocError>
    requires case { frame.start ≤ length nodes.old.items }
    requires whole { frame.operands_start ≤ frame.start }
    ensures { OnOk result (nodes.new.items ≡ with_block nodes.old.items frame) }
{
    wrap_case(nodes, frame)?;
    wrap(nodes, frame.head, frame.results, frame.operands_start)
}

/// Returns the index of the first candidate of the open part.
fn open_candidates_start(blocks: &[Frame]) -> usize
    requires { (o : OpenNodes NodeText) × (blocks.now ≡ frames o) }
    ensures { (o : OpenNodes NodeText) → blocks.now ≡ frames o → result ≡ length (base_candidates o) }
{
    match blocks.split_last() {
        Some((frame, _)) => frame.candidates_start,
        None => 0,
    }
}

impl Builder {
    ghost use Rattle.wasmprinter_fold.specs.Building.{start, step, Top, Plain, Opens, OpensIf, Else, Ends};
    ghost use Rattle.wasmprinter_fold.specs.Frames.{State, Represents};

    /// Creates a builder without nodes. It represents the first state: no nodes and no open block. This allocates no
    /// memory.
    pub fn new(alloc: Global) -> Builder
        ensures { Represents result start }
    {
        Builder {
            nodes: Vec::new(alloc),
            candidates: Vec::new(alloc),
            frames: Vec::new(alloc),
        }
    }

    /// Removes all nodes and keeps the capacity. The builder then represents the first state: no nodes and no open
    /// block.
    pub fn clear(&mut self)
        ensures { Represents self.new start }
    {
        self.nodes.clear();
        self.candidates.clear();
        self.frames.clear();
    }

    /// Returns the nodes of the operators so far. The open parts of blocks form one row: each part follows the nodes
    /// before its block. Each node follows those that it holds (`whole`). If no block is open, the nodes are those of
    /// the state that the builder represents (`closed`).
    pub fn nodes(&self) -> &[Node]
        ensures whole { (s : State) → Represents self.now s → IsPostorder result.now }
        ensures closed { (s : State) → Represents self.now s → s.outer ≡ Top → forest_of result.now ≡ s.groups }
    {
        &self.nodes
    }

    /// Adds a plain operator. Its operands are the shortest run of last nodes of the open part whose results sum up to
    /// exactly `operands`, if there is one. Otherwise it has none; if they would begin inside the results of one node,
    /// it counts for 2^32 - 1 results. On `Ok`, the builder represents the state after that step (`step`).
    ///
    /// # Errors
    ///
    /// Returns an error if an allocation fails. The nodes are then unusable until the list is cleared.
    pub fn plain(&mut self, head: NodeText, operands: u32, results: u32) -> Result<(), AllocError>
        requires { (s : State) × Represents self.old s }
        ensures { OnOk result ((s : State) → Represents self.old s → Represents self.new (step s (Plain head operands results))) }
    {
        let part = open_candidates_start(&self.frames);
        let end = self.nodes.len();
        let (cut, counted) = operands_cut(&self.candidates[part..], end, operands, results);
        wrap(&mut self.nodes, head, counted, cut.start)?;
        self.candidates.truncate(part + cut.kept);
        push_candidate(&mut self.candidates, cut, counted)
    }

    /// Opens a block. On `Ok`, the builder represents the state after that step (`step`): the block is the innermost
    /// one.
    ///
    /// # Errors
    ///
    /// Returns an error if an allocation fails. The nodes are then unusable until the list is cleared.
    pub fn open(&mut self, head: NodeText, results: u32) -> Result<(), AllocError>
        requires { (s : State) × Represents self.old s }
        ensures { OnOk result ((s : State) → Represents self.old s → Represents self.new (step s (Opens head results))) }
    {
        let start = self.nodes.len();
        self.frames.push(Frame {
            arm: Arm::Block,
            head,
            results,
            operands_start: start,
            start,
            candidates_start: self.candidates.len(),
        })?;
        Ok(())
    }

    /// Opens an `if` and its first case, whose node gets the head `then`. The last node of the open part, if there is
    /// one, becomes the predicate. On `Ok`, the builder represents the state after that step (`step`).
    ///
    /// # Errors
    ///
    /// Returns an error if an allocation fails. The nodes are then unusable until the list is cleared.
    pub fn open_if(
        &mut self,
        head: NodeText,
        then: NodeText,
        results: u32,
    ) -> Result<(), AllocError>
        requires { (s : State) × Represents self.old s }
        ensures { OnOk result ((s : State) → Represents self.old s → Represents self.new (step s (OpensIf head then results))) }
    {
        let outer = open_candidates_start(&self.frames);
        let start = self.nodes.len();
        let predicate = predicate_of(&self.candidates[outer..], start);
        let candidates_start = outer + predicate.kept;
        self.candidates.truncate(candidates_start);
        self.frames.push(Frame {
            arm: Arm::Then(then),
            head,
            results,
            operands_start: predicate.start,
            start,
            candidates_start,
        })?;
        Ok(())
    }

    /// Closes the first case of the innermost `if` and opens the second, whose node gets the head `otherwise`.
    ///
    /// If the open part is not the first case of an `if`, nothing changes. On `Ok`, the builder represents the state
    /// after that step (`step`).
    ///
    /// # Errors
    ///
    /// Returns an error if an allocation fails. The nodes are then unusable until the list is cleared.
    pub fn turn(&mut self, otherwise: NodeText) -> Result<(), AllocError>
        requires { (s : State) × Represents self.old s }
        ensures { OnOk result ((s : State) → Represents self.old s → Represents self.new (step s (Else otherwise))) }
    {
        if let Some(frame) = self.frames.pop() {
            match frame.arm {
                Arm::Then(then) => {
                    wrap(&mut self.nodes, then, 0, frame.start)?;
                    self.candidates.truncate(frame.candidates_start);
                    let start = self.nodes.len();
                    self.frames.push(Frame {
                        arm: Arm::Else(otherwise),
                        start,
                        ..frame
                    })?;
                }
                Arm::Block | Arm::Else(_) => self.frames.push(frame)?,
            }
        }
        Ok(())
    }

    /// Closes the innermost open block and adds its node, for an `if` after the node of its open case. If no block is
    /// open, nothing changes. On `Ok`, the builder represents the state after that step (`step`).
    ///
    /// # Errors
    ///
    /// Returns an error if an allocation fails. The nodes are then unusable until the list is cleared.
    pub fn end(&mut self) -> Result<(), AllocError>
        requires { (s : State) × Represents self.old s }
        ensures { OnOk result ((s : State) → Represents self.old s → Represents self.new (step s Ends)) }
    {
        if let Some(frame) = self.frames.pop() {
            wrap_block(&mut self.nodes, frame)?;
            self.candidates.truncate(frame.candidates_start);
            let part = open_candidates_start(&self.frames);
            let cut = end_of(&self.candidates[part..], frame.operands_start);
            push_candidate(&mut self.candidates, cut, frame.results)?;
        }
        Ok(())
    }
}
