//! The stack of tasks: the parts of nodes that are still to be written.
ghost use Rattle.std.specs.Prelude.{◌≡◌, ℕ, ◌+◌, ◌*◌, ◌≤◌, ◌<◌, ◌^◌, ◌&&◌, ◌==◌, List, length, IsOk, OnOk, OnErr, false};
ghost use Rattle.std.specs.Vec.{vec_len, vec_capacity};
ghost use Rattle.wasmprinter_fold.specs.Postorder.{IsPostorder};
ghost use Rattle.wasmprinter_fold.specs.Tasks.{StacksRow, StacksRest, KeepsSoundRow, KeepsSound, IsSound, steps_left, steps_of, rest_of};

use crate::nodes::{Node, NodeText, split_last_node};
use std::alloc::AllocError;

/// A part of nodes that is still to be written.
#[derive(Clone, Copy, Debug, Drop)]
pub enum Task<'a> {
    /// A row of nodes, whether it is the first of its line, and the number of nodes around it.
    Nodes(&'a [Node], bool, u64),
    /// One node by its head and the nodes that it holds, whether it is the first of its line, and the number of nodes
    /// around it.
    One(NodeText, &'a [Node], bool, u64),
    /// The parenthesis that closes a node.
    Close,
}

/// Reports whether a node after `before` is the first of its line.
fn leads(first: bool, before: &[Node]) -> bool
    ensures { result ≡ (first && (length before.now == 0)) }
{
    first && before.is_empty()
}

/// Pushes the tasks of a row of nodes: one for each node that is not inside another node of the row.
///
/// # Errors
///
/// Returns an error if an allocation fails. No memory is allocated if the stack has room for all nodes of the row.
fn put_row<'a>(
    tasks: &mut Vec<Task<'a>>,
    nodes: &'a [Node],
    first: bool,
    depth: u64,
) -> Result<(), AllocError>
    requires row { IsPostorder nodes.now }
    ensures pieces { OnOk result (StacksRow nodes.now first depth tasks.old.items tasks.new.items) }
    ensures steps { OnOk result (steps_left tasks.new.items ≤ 4 * length nodes.now + steps_left tasks.old.items) }
    ensures sound { OnOk result (KeepsSoundRow nodes.now depth tasks.old.items tasks.new.items) }
    ensures room { vec_len tasks.old + length nodes.now ≤ vec_capacity tasks.old → IsOk result }
{
    let mut rest = nodes;
    while let Some(last) = split_last_node(rest) {
        let leads = leads(first, last.before);
        tasks.push(Task::One(last.node.head, last.parts, leads, depth))?;
        rest = last.before;
    }
    Ok(())
}

/// Pushes the tasks of the nodes that a node holds. If the stack has room for all of them, pushes one task for
/// each; otherwise pushes one task for their row, so that memory is allocated only when that task is processed.
///
/// # Errors
///
/// Returns an error if an allocation fails. Memory is allocated only if the stack is full and the node holds any
/// nodes.
fn put_held<'a>(tasks: &mut Vec<Task<'a>>, held: &'a [Node], depth: u64) -> Result<(), AllocError>
    requires row { IsPostorder held.now }
    ensures pieces { OnOk result (StacksRow held.now false depth tasks.old.items tasks.new.items) }
    ensures steps { OnOk result (steps_left tasks.new.items ≤ 4 * length held.now + 1 + steps_left tasks.old.items) }
    ensures sound { OnOk result (KeepsSoundRow held.now depth tasks.old.items tasks.new.items) }
    ensures full { OnErr result (vec_len tasks.old ≡ vec_capacity tasks.old) }
    ensures room { vec_len tasks.old + length held.now ≤ vec_capacity tasks.old → IsOk result }
{
    if tasks.capacity() - tasks.len() < held.len() {
        tasks.push(Task::Nodes(held, false, depth))?;
        Ok(())
    } else {
        put_row(tasks, held, false, depth)
    }
}

/// Pushes the tasks for the rest of a task whose front is written. The stack then stands for the rest of the task,
/// followed by the tasks below it (`pieces`), and takes fewer steps than with the whole task (`steps`). A task is sound
/// if its texts are in the buffer and its nodes are well formed. The given task must be sound, with the sum of depth
/// and number of its nodes below 2^64. If all tasks on the stack are sound, they are so afterwards (`sound`).
///
/// # Errors
///
/// Returns an error if an allocation fails; some of the tasks may then have been pushed. Memory is allocated only
/// if the stack has no room for all of them; if it has room, there is no error (`room`).
pub fn put_rest<'a>(tasks: &mut Vec<Task<'a>>, task: &Task<'a>) -> Result<(), AllocError>
    requires sound { (buffer : List ℕ) × (bound : ℕ) × IsSound buffer bound task.now × (bound < 2 ^ 64) }
    ensures pieces { OnOk result (StacksRest task.now tasks.old.items tasks.new.items) }
    ensures steps { OnOk result (steps_left tasks.new.items < steps_of task.now + steps_left tasks.old.items) }
    ensures sound { OnOk result (KeepsSound task.now tasks.old.items tasks.new.items) }
    ensures room { vec_len tasks.old + rest_of task.now ≤ vec_capacity tasks.old → IsOk result }
{
    match *task {
        Task::Nodes(nodes, first, depth) => put_row(tasks, nodes, first, depth),
        Task::One(_, held, _, depth) => {
            tasks.push(Task::Close)?;
            put_held(tasks, held, depth + 1)
        }
        Task::Close => Ok(()),
    }
}
