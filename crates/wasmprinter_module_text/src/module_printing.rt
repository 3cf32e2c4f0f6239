//! Printing a module to a printer.
ghost use Rattle.std.specs.Prelude.{◌≡◌, true, IfOk, IfErr};
ghost use Rattle.wasmprinter_bytes.specs.declared.library_error.Error.TheVariants.{Memory};
ghost use Rattle.wasmprinter_spec.specs.Options.{Options, Answers, with_color};
ghost use Rattle.wasmprinter_print.specs.Change.{change};
ghost use Rattle.wasmprinter_flat.specs.OpenLabels.LabelState.{names_of};
ghost use Rattle.wasmprinter_module_text.specs.Endings.{PrintsLaid};
ghost use Rattle.wasmprinter_module_text.specs.Sections.{module_laid, Folds};

use crate::whole_module::write_module;
use std::alloc::Global;
use std::marker::Brand;
use wasmprinter_bytes::Error;
use wasmprinter_decoder::Module;
use wasmprinter_flat::open_labels::OpenLabels;
use wasmprinter_fold::Folder;
use wasmprinter_print::{LayoutOptions, Print, PrintOptions, Printer};

/// Returns the folder of a module's operators, or `None` if operators are not folded. It writes ANSI escape
/// sequences if the printer can write colors as text.
fn folder_of<'s, 'a>(
    alloc: Global,
    color: bool,
    options: &PrintOptions,
    module: &'s Module<'a>,
) -> Result<Option<Folder<'s, 'a>>, Error>
    ensures folds { IfOk result (λ folder. Folds (with_color options.now color) folder module.now) }
    ensures memory { IfErr result (λ e. (e ≡ Memory) × (options.now.folds ≡ true)) }
{
    if !options.folds {
        return Ok(None);
    }
    Ok(Some(Folder::new(alloc, module, color)?))
}

/// Prints a module with the options that `K` stands for.
fn print_by<'s, 'a, P: Print, K: LayoutOptions>(
    p: &mut P,
    options: &PrintOptions,
    module: &'s Module<'a>,
    labels: OpenLabels<'s, 'a>,
    folder: Option<Folder<'s, 'a>>,
) -> Result<(), Error>
    requires options { with_color options.now K.options.color ≡ K.options }
    requires folder { Folds K.options folder module.now }
    ensures { (answers : Answers) × PrintsLaid (change P.meaning p.old p.new) K.options result
        (module_laid K.options answers (names_of labels.entry) module.now) }
{
    let mut out: Printer<'_, '_, P, K> = Printer::new(p, options);
    write_module(&mut out, module, labels, folder);
    out.finish()
}

/// Prints a module. `labels` also holds the identifiers of the module. If operators are folded, a list with a legacy
/// operator (`try`, `catch`, `catch_all`, `delegate`) is left out, and so is a hint on an `else` or `end`.
/// `check_folding` refuses both, and also a hint on a `block`, `loop` or `try_table`, which is written before its node.
///
/// On `Ok`, the calls of the module's layout were made, up to how text is split into calls, and no `dylink.0` section
/// is refused. `answers` in the contract are the printer's answers whether it claims each custom section. The text of
/// folded operators has ANSI escape sequences if the printer can write colors as text (`supports_async_color`). After
/// an error, the calls that were made are a prefix of the layout in the same way, as follows.
///
/// # Errors
///
/// - `DylinkSubsection`: a custom section `dylink.0` that the printer does not claim has an unknown subsection. It
///   holds the id of the first one. All calls before that section were made, and the question whether it is claimed.
/// - `Printer`: a call on the printer failed. It holds the error of that call, which was the last call.
/// - `Memory`, only if operators are folded: an allocation failed. All calls that were made succeeded.
///
/// No other error is returned.
pub fn print_module<'s, 'a, P: Print>(
    alloc: Global,
    p: &mut P,
    options: &PrintOptions,
    module: &'s Module<'a>,
    labels: OpenLabels<'s, 'a>,
) -> Result<(), Error>
    ensures { let chosen : Options = with_color options.now (P.colors p.old) in
        (answers : Answers) × PrintsLaid (change P.meaning p.old p.new) chosen result
        (module_laid chosen answers (names_of labels.entry) module.now) }
{
    let color = p.supports_async_color();
    let folder = folder_of(alloc, color, options, module)?;
    print_by::<P, Brand>(p, options, module, labels, folder)
}
