//! The last node of a row.
ghost use Rattle.std.specs.Prelude.{◌≡◌, [], MatchOption};
ghost use Rattle.wasmprinter_fold.specs.Postorder.{IsPostorder};
ghost use Rattle.wasmprinter_fold.specs.Rows.{IsLast};

use crate::nodes::Node;

/// The last node of a row, the nodes before it, and those that it holds.
#[derive(Clone, Copy, Debug)]
pub struct Last<'a> {
    /// The nodes before the last node and those that it holds.
    pub before: &'a [Node],
    /// The last node.
    pub node: Node,
    /// The nodes that the last node holds, at every depth.
    pub parts: &'a [Node],
}

/// Returns the last node of a row, with the nodes before it and the nodes that it holds, which are rows too, or `None`
/// if the row is empty. In a row each node follows those that it holds.
pub fn split_last_node(row: &[Node]) -> Option<Last<'_>>
    requires { IsPostorder row.now }
    ensures { MatchOption result (row.now ≡ []) (λ l. IsLast row.now l.before.now l.node l.parts.now) }
{
    let (node, rest) = row.split_last()?;
    let (before, parts) = rest.split_at(rest.len() - (node.size - 1));
    Some(Last {
        before,
        node: *node,
        parts,
    })
}
