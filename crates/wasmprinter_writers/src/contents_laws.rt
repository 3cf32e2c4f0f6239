//! Laws of the bytes that a writer has after a run of calls on the printers of this crate. Each law is the
//! contract of a function with an empty body.
ghost use Rattle.std.specs.Prelude.{List};
ghost use Rattle.std.specs.Io.KnownBytes.{Appends};
ghost use Rattle.wasmprinter_spec.specs.Call.{Call, text_of};
ghost use Rattle.wasmprinter_spec.specs.Meaning.{Run};
ghost use Rattle.wasmprinter_spec.specs.Colored.{colored_text};

use crate::{Ansi, NoColor, PrintIoWrite, PrintTermcolor};
use std::io::Write;
use wasmprinter_print::Print;

/// States that if all calls on a [`PrintIoWrite`] succeed (`Run`), from its state `s` to `t`, the contents of its byte
/// writer, if it reports them, grow by the text of the calls.
pub fn io_write_gains_text<W: Write>()
    ensures { (s t : _) (calls : List Call)
        → Run ⟦<PrintIoWrite<W> as Print>⟧.meaning s calls t
        → Appends (W.contents s.0) (W.contents t.0) (text_of calls) }
{}

/// States that if all calls on a [`PrintTermcolor`] over a [`NoColor`] succeed (`Run`), from its state `s` to `t`, the
/// contents of the wrapped writer, if it reports them, grow by the text of the calls.
pub fn no_color_gains_text<W: Write>()
    ensures { (s t : _) (calls : List Call)
        → Run ⟦<PrintTermcolor<NoColor<W>> as Print>⟧.meaning s calls t
        → Appends (W.contents s.0.inner) (W.contents t.0.inner) (text_of calls) }
{}

/// States that if all calls on a [`PrintTermcolor`] over an [`Ansi`] succeed (`Run`), from its state `s` to `t`, the
/// contents of the wrapped writer, if it reports them, grow by the text of the calls with the ANSI escape sequences of
/// their styles.
pub fn ansi_gains_colored_text<W: Write>()
    ensures { (s t : _) (calls : List Call)
        → Run ⟦<PrintTermcolor<Ansi<W>> as Print>⟧.meaning s calls t
        → Appends (W.contents s.0.inner) (W.contents t.0.inner) (colored_text calls) }
{}
