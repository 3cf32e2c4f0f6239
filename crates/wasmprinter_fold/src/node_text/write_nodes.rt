//! Writes the nodes of a list to any output, with a stack of tasks instead of recursion.
ghost use Rattle.std.specs.Prelude.{◌≡◌, ◌+◌, ◌&&◌, [], ◌∷◌, ℕ, true, Some};
ghost use Rattle.std.specs.Option.{is_none};
ghost use Rattle.wasmprinter_spec.specs.Options.{defaults};
ghost use Rattle.wasmprinter_spec.specs.Piece.{Word, HintAnnotation, OpenPlain, text as text_by};
ghost use Rattle.wasmprinter_spec.specs.Layout.Operators.{before_word};
ghost use Rattle.wasmprinter_flat.specs.Settings.{form_view};
ghost use Rattle.wasmprinter_fold.specs.Mapping.{map_nodes};
ghost use Rattle.wasmprinter_fold.specs.Postorder.{IsPostorder, forest_of};
ghost use Rattle.wasmprinter_fold.specs.Shown.{shown_of_head, IsIn, AreIn, row_pieces, node_front, shown_hint, comment_break};
ghost use Rattle.wasmprinter_fold.specs.Tasks.{task_front, IsSound};

use crate::node_text::write_tasks::{Task, put_rest};
use crate::nodes::{Node, NodeText};
use std::alloc::Global;
use wasmprinter_flat::operators::{Form, start_operator};
use wasmprinter_print::{FoldingOutput, Output};
use wasmprinter_text::hints::hint_text;
use wasmprinter_text::lines::write_break_inside;
use wasmprinter_text::parens_and_words::{open_plain, write_close_paren, write_word};

/// Returns the text of a head.
fn text_of_head<'t>(text: &'t str, head: &NodeText) -> &'t str
    requires { IsIn text.now head.now }
    ensures { result.now ≡ (shown_of_head text.now head.now).text }
{
    &text[head.start..head.stop]
}

/// The position of a node in the text.
#[derive(Clone, Copy)]
struct Spot {
    /// Whether nodes are written over lines or in one line.
    form: Form,
    /// The place of the node: a byte offset from the start of the module.
    place: u64,
    /// The nesting depth of the list of nodes.
    nesting: u64,
    /// The number of nodes of the list around this one.
    depth: u64,
}

/// Writes the line break or space before a node or its hint.
fn write_before_node<O: Output>(out: &mut O, spot: Spot, first: bool)
    ensures { O.wrote out.old out.new (before_word (form_view spot.form) first spot.place (spot.nesting + spot.depth)) }
{
    start_operator(out, spot.form, first, spot.place, spot.nesting, spot.depth);
}

/// Writes the annotation of a hint, without a style.
fn write_plain_annotation<O: Output>(out: &mut O, taken: bool)
    ensures { O.wrote out.old out.new (Word (text_by defaults (HintAnnotation taken)) ∷ []) }
{
    write_word(out, hint_text(taken));
}

/// Writes the hint of a node, if there is one.
fn write_hint<O: Output>(out: &mut O, spot: Spot, leads: bool, hint: Option<bool>)
    ensures { O.wrote out.old out.new
        (shown_hint (form_view spot.form) leads spot.place (spot.nesting + spot.depth) hint) }
{
    if let Some(taken) = hint {
        write_before_node(out, spot, leads);
        write_plain_annotation(out, taken);
    }
}

/// Writes the opening parenthesis and the text of a node.
fn write_node_text<O: Output>(out: &mut O, text: &str, head: &NodeText)
    requires { IsIn text.now head.now }
    ensures { O.wrote out.old out.new (OpenPlain (shown_of_head text.now head.now).text ∷ []) }
{
    open_plain(out, text_of_head(text, head));
}

/// Ends the line after a text that may contain a line comment if the closing parenthesis would follow directly.
fn write_comment_end<O: Output>(out: &mut O, spot: Spot, leaf: bool, comment: bool)
    ensures { O.wrote out.old out.new (comment_break leaf comment spot.place (spot.nesting + spot.depth)) }
{
    if leaf && comment {
        write_break_inside(out, spot.place, spot.nesting, spot.depth);
    }
}

/// Reports whether a node comes first and has no hint before it.
fn leads_unhinted(leads: bool, hint: Option<bool>) -> bool
    ensures { result ≡ (leads && is_none hint) }
{
    leads && hint.is_none()
}

/// Writes a node up to the nodes that it holds.
fn write_node<O: Output>(
    out: &mut O,
    spot: Spot,
    leads: bool,
    leaf: bool,
    text: &str,
    head: &NodeText,
)
    requires inside { IsIn text.now head.now }
    requires place { spot.place ≡ head.now.place }
    ensures { O.wrote out.old out.new
        (node_front (form_view spot.form) leads leaf (spot.nesting + spot.depth) (shown_of_head text.now head.now)) }
{
    write_hint(out, spot, leads, head.hint);
    let first = leads_unhinted(leads, head.hint);
    write_before_node(out, spot, first);
    write_node_text(out, text, head);
    write_comment_end(out, spot, leaf, head.comment);
}

/// Writes the front of a task.
fn write_front<O: Output>(out: &mut O, form: Form, nesting: u64, text: &str, task: &Task<'_>)
    requires { (bound : ℕ) × IsSound text.now bound task.now }
    ensures { O.wrote out.old out.new (task_front (form_view form) nesting text.now task.now) }
{
    match task {
        Task::Nodes(_, _, _) => {}
        Task::One(head, held, leads, depth) => {
            let spot = Spot {
                form,
                place: head.place,
                nesting,
                depth: *depth,
            };
            write_node(out, spot, *leads, held.is_empty(), text, head);
        }
        Task::Close => write_close_paren(out),
    }
}

/// Writes nodes in order at nesting depth `nesting`, each as a group around those that it holds, with their texts from
/// `text`.
///
/// The first node is the first of its line (the bare `true`). In one line nothing comes before it, or before its hint
/// if it has one, and a space before all other nodes and hints. Over lines each node and each hint has a line break
/// before it.
///
/// Each node must follow those that it holds (`whole`), and its text must be a part of `text`, between whole characters
/// (`texts`). The options of `out` must ask for folding (`folds`). If an allocation fails, records in `out` that memory
/// ran out.
pub fn write_nodes<O: FoldingOutput>(
    alloc: Global,
    out: &mut O,
    form: Form,
    nesting: u64,
    nodes: &[Node],
    text: &str,
)
    requires whole { IsPostorder nodes.now }
    requires texts { AreIn text.now (forest_of nodes.now) }
    requires folds { O.chosen.folds ≡ true }
    ensures { O.wrote out.old out.new
        (row_pieces (form_view form) true nesting (map_nodes (shown_of_head text.now) (forest_of nodes.now))) }
{
    let mut tasks = Vec::new(alloc);
    let Ok(()) = tasks.push(Task::Nodes(nodes, true, 0)) else {
        out.run_out_of_memory();
        return;
    };
    while let Some(task) = tasks.pop() {
        let Ok(()) = put_rest(&mut tasks, &task) else {
            out.run_out_of_memory();
            return;
        };
        write_front(out, form, nesting, text, &task);
        if out.has_failed() {
            return;
        }
    }
}
