//! The folder, which folds and prints the operators of a module, list by list.
ghost use Rattle.std.specs.Prelude.{◌≡◌, true, IfOk, OnErr};
ghost use Rattle.wasmprinter_spec.specs.Layout.Folded.{folded_list};
ghost use Rattle.wasmprinter_flat.specs.Settings.{setting_with_names};
ghost use Rattle.wasmprinter_fold.specs.Gathering.{ImportsFunctionOrTag};
ghost use Rattle.wasmprinter_fold.specs.Views.{folding_view};

use crate::arities::function_and_tag_types::FunctionAndTagTypes;
use crate::growing_tree::GrowingTree;
use crate::node_text::write_nodes::write_nodes;
use std::alloc::{AllocError, Global};
use std::marker::Model;
use wasmprinter_custom::FunctionHints;
use wasmprinter_decoder::Module;
use wasmprinter_flat::open_labels::OpenLabels;
use wasmprinter_flat::operators::Setting;
use wasmprinter_ops::expression::Expression;
use wasmprinter_print::FoldingOutput;
use wasmprinter_text::type_use::Signatures;

/// Folds and prints the operators of a module, list by list. Nodes and texts reuse the memory of earlier lists.
#[derive(Drop)]
pub struct Folder<'m, 'a> {
    alloc: Global,
    callees: FunctionAndTagTypes<'m, 'a>,
    tree: GrowingTree,
}

impl<'m, 'a> Model for Folder<'m, 'a> {
    ghost use Rattle.wasmprinter_fold.specs.Views.{FolderView};

    ghost Value = { FolderView };

    ghost view = { λ f. record { color = f.tree.texts.color; operators_of = f.callees } };
}

impl<'m, 'a> Folder<'m, 'a> {
    /// Creates a folder for the operators of the module. `color` says whether texts of folded operators contain ANSI
    /// escape sequences. Contracts see the folder as this Boolean and the module (`ok`).
    ///
    /// # Errors
    ///
    /// If an allocation fails. There is an error only if the module imports a function or a tag (`memory`).
    pub fn new(alloc: Global, module: &'m Module<'a>, color: bool) -> Result<Self, AllocError>
        ensures ok { IfOk result (λ f. f ≡ record { color = color; operators_of = «module».now }) }
        ensures memory { OnErr result (ImportsFunctionOrTag «module».now) }
    {
        let callees = FunctionAndTagTypes::new(alloc, module)?;
        let tree = GrowingTree::new(alloc, color);
        Ok(Folder {
            alloc,
            callees,
            tree,
        })
    }

    /// Writes the operators of an expression, folded. `own` is the number of results of the enclosing function: 0 in
    /// a constant expression, `None` if the function's type is unknown. `labels` is first reset to the start of the
    /// function, so its earlier use does not matter. Its identifiers are those passed to `OpenLabels::new`.
    ///
    /// The options of `out` must ask for folding.
    ///
    /// Writes nothing if the list has a legacy operator (`try`, `catch`, `catch_all` or `delegate`), which cannot be
    /// folded. If an allocation fails, records in `out` that memory ran out (`writes`). Afterwards `self` means the
    /// same (`folder`), and `labels` has the same identifiers (`item_names`, `synthesizes`).
    pub fn write<O: FoldingOutput, S: Signatures>(
        &mut self,
        out: &mut O,
        setting: &Setting<'_, S>,
        labels: &mut OpenLabels<'_, '_>,
        own: Option<u32>,
        hints: FunctionHints<'_>,
        expression: &Expression<'_>,
    )
        requires { O.chosen.folds ≡ true }
        ensures writes { O.wrote out.old out.new
            (folded_list (folding_view self.old) own (setting_with_names S.signature_at setting.now labels.old) hints.entry
            expression.now.items) }
        ensures folder { self.new ≡ self.old }
        ensures item_names { labels.new.item_names ≡ labels.old.item_names }
        ensures synthesizes { labels.new.synthesizes ≡ labels.old.synthesizes }
    {
        if out.has_failed() {
            return;
        }
        let Ok(folded) = self
            .tree
            .fold(&self.callees, setting, labels, own, hints, expression)
        else {
            out.run_out_of_memory();
            return;
        };
        // A module with a legacy operator is refused before anything is printed, so every list that arrives here
        // is folded.
        if !folded {
            return;
        }
        let nodes = self.tree.builder.nodes();
        let texts = self.tree.texts.as_str();
        write_nodes(self.alloc, out, setting.form, setting.nesting, nodes, texts);
    }
}
