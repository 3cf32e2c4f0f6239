//! Laws that follow from several promises of the library together. A law is a theorem: the contract of a function with
//! an empty body, which the toolchain proves.

ghost use Rattle.std.specs.Prelude.{ℕ, List};
ghost use Rattle.wasmprinter_spec.specs.Options.{IsBlank};
ghost use Rattle.wasmprinter_print.specs.Change.{change};
ghost use Rattle.wasmprinter_print.specs.TextOnly.{Grows};
ghost use Rattle.wasmprinter.specs.Printed.{Printed};
ghost use Rattle.wasmprinter.specs.Gained.{GainAlike, GainsText};

use crate::print::{Ansi, NoColor, Print, PrintTermcolor, PrintText};
use std::io::Write;

/// If a module is printed with the same options through [`Ansi`] and through [`NoColor`], deleting the ANSI escape
/// sequences from what the first writer gains gives what the second writer gains. The indent consists of spaces and
/// tabs. The law says nothing of a writer that doesn't specify, before printing, the bytes that it holds. Operators may
/// be folded or flat.
///
/// In the clause, `o` are the options and `bytes` those of the module. The first printer has the state `s` before
/// printing and `t` after it, the second `x` and `y`. `.0.inner` is the writer in a state.
pub fn colors_add_sequences_alone<V: Write, W: Write>()
    ensures { (o : _) (bytes : List ℕ) → IsBlank o.indent → (s t : _) (x y : _)
        → Printed (change ⟦<PrintTermcolor<Ansi<V>> as Print>⟧.meaning s t) (⟦<PrintTermcolor<Ansi<V>> as Print>⟧.colors s) o bytes
        → Printed (change ⟦<PrintTermcolor<NoColor<W>> as Print>⟧.meaning x y) (⟦<PrintTermcolor<NoColor<W>> as Print>⟧.colors x) o bytes
        → GainAlike (V.contents s.0.inner) (V.contents t.0.inner) (W.contents x.0.inner) (W.contents y.0.inner) }
{}

/// For any function `view` from a `PrintText` to bytes: if each write that succeeds appends its bytes to the view, then
/// printing that succeeds appends the module's text to the view. In the clause, `o` are the options, `bytes` those of
/// the module, and `s` and `t` the states of the printer before and after printing.
pub fn text_printers_gain_the_text<T: PrintText>()
    ensures { (view : T → List ℕ) → Grows view T.writes → (o : _) (bytes : List ℕ) (s t : T)
        → Printed (change ⟦<T as Print>⟧.meaning s t) (⟦<T as Print>⟧.colors s) o bytes
        → GainsText o bytes (view s) (view t) }
{}
