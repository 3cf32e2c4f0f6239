//! The operators of an expression, flat or folded (section 6.5 of the WebAssembly Core Specification).
ghost use Rattle.std.specs.Prelude.{◌≡◌};
ghost use Rattle.wasmprinter_spec.specs.Layout.Functions.{body_by};
ghost use Rattle.wasmprinter_flat.specs.Settings.{setting_with_names};
ghost use Rattle.wasmprinter_module_text.specs.Scopes.{folding_in};

use wasmprinter_custom::FunctionHints;
use wasmprinter_flat::open_labels::OpenLabels;
use wasmprinter_flat::operators::{Setting, write_operators};
use wasmprinter_fold::Folder;
use wasmprinter_ops::expression::Expression;
use wasmprinter_print::FoldingOutput;
use wasmprinter_text::type_use::Signatures;

/// Writes the operators of an expression, each after the next of `hints` if the offset of that hint from `setting.body`
/// is the operator's. They are folded if the options ask for it and there is a folder. Then nothing is written of a
/// list with a legacy operator (`try`, `catch`, `catch_all`, `delegate`), and no hint on an `else` or `end`. `results`
/// is the number of results of the enclosing function: 0 in a constant expression, `None` if the function's type is
/// unknown. The folder and the identifiers stay; the labels are working memory.
#[tactic(auto, unfolding(wasmprinter_spec::specs::Layout::Functions::body_by))]
pub fn write_flat_or_folded<O: FoldingOutput, S: Signatures>(
    out: &mut O,
    setting: &Setting<'_, S>,
    labels: &mut OpenLabels<'_, '_>,
    folder: &mut Option<Folder<'_, '_>>,
    results: Option<u32>,
    hints: FunctionHints<'_>,
    expression: &Expression<'_>,
)
    ensures pieces { O.wrote out.old out.new (body_by (folding_in O.chosen.folds folder.old) results
        (setting_with_names S.signature_at setting.now labels.old) hints.entry expression.now.items) }
    ensures folder { folder.new ≡ folder.old }
    ensures item_names { labels.new.item_names ≡ labels.old.item_names }
    ensures synthesizes { labels.new.synthesizes ≡ labels.old.synthesizes }
{
    if !out.folds() {
        write_operators(out, setting, labels, hints, expression);
        return;
    }
    match folder {
        Some(folder) => folder.write(out, setting, labels, results, hints, expression),
        None => write_operators(out, setting, labels, hints, expression),
    }
}
