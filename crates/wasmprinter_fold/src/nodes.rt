//! The nodes that operators fold into, as one list in postorder: each node comes after those that it holds.

mod builder;
mod candidates;
mod split_last_subtree;

pub use builder::Builder;
pub use split_last_subtree::{Last, split_last_node};

/// The text of a node before the nodes that it holds.
#[derive(Clone, Copy, Debug, PartialEq, Eq)]
pub struct NodeText {
    /// The place of the node's operator: a byte offset from the start of the module.
    pub place: u64,
    /// Whether the branch hint says that the branch is taken, if there is a hint.
    pub hint: Option<bool>,
    /// The byte offset at which its text starts in the buffer of texts.
    pub start: usize,
    /// The byte offset after the last byte of its text in that buffer.
    pub stop: usize,
    /// Whether the text contains two consecutive semicolons, which may begin a line comment.
    pub comment: bool,
}

/// A node in a list in postorder.
#[derive(Clone, Copy, Debug, PartialEq, Eq)]
pub struct Node {
    /// The text of the node.
    pub head: NodeText,
    /// The number of results that the node counts for.
    pub results: u32,
    /// The number of nodes that it holds, at every depth, plus 1 for itself.
    pub size: usize,
}
