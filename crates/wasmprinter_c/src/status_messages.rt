//! The descriptions of statuses.
ghost use Rattle.std.specs.Prelude.{◌∷◌, []};
ghost use Rattle.wasmprinter_spec.specs.Call.{Text};
ghost use Rattle.wasmprinter_print.specs.MadeCalls.{MadeCalls, outcome};
ghost use Rattle.wasmprinter_c.specs.Copied.{copied_meaning};
ghost use Rattle.wasmprinter_c.specs.Messages.{message};

use crate::buffer_and_event_printer::Copier;
use crate::status_of_error::{BAD_INDENT, BAD_LIST, PRINTED, UNKNOWN_OPTION};
use wasmprinter::Error;
use wasmprinter_print::Output;
use wasmprinter_text::integers::{write_decimal_between, write_hexadecimal_between};
use wasmprinter_text::standalone_values::{Value, write_value};

/// A status with its detail.
#[derive(Drop)]
struct Description {
    status: u32,
    detail: u64,
}

impl Value for Description {
    ghost calls = { λ d. Text (message d.status d.detail) ∷ [] };

    fn write<O: Output>(&self, out: &mut O) {
        write_message(out, self.status, self.detail);
    }
}

/// Writes the description of a status with its detail.
fn write_message<O: Output>(out: &mut O, status: u32, detail: u64)
    ensures { O.called out.old out.new (Text (message status detail) ∷ []) }
{
    match status {
        PRINTED => out.write_str("success"),
        1 => write_hexadecimal_between(out, "malformed module at byte 0x", detail, ""),
        2 => out.write_str("components are not supported"),
        3 => write_hexadecimal_between(
            out,
            "function at byte 0x",
            detail,
            " has more than 50000 locals",
        ),
        4 => write_decimal_between(out, "module has ", detail, " functions, more than 1000000"),
        5 => write_hexadecimal_between(
            out,
            "table at byte 0x",
            detail,
            " has an empty initialiser",
        ),
        6 => write_hexadecimal_between(
            out,
            "legacy exception operator at byte 0x",
            detail,
            " can't be folded",
        ),
        7 => write_hexadecimal_between(out, "branch hint at byte 0x", detail, " can't be folded"),
        8 => write_decimal_between(out, "unknown dylink.0 subsection ", detail, ""),
        9 => out.write_str("the file can't be read"),
        10 => out.write_str("the text is too long"),
        11 => out.write_str("out of memory"),
        BAD_INDENT => out.write_str("the indent is not UTF-8"),
        UNKNOWN_OPTION => write_hexadecimal_between(out, "unknown options 0x", detail, ""),
        BAD_LIST => write_hexadecimal_between(
            out,
            "the list of names is cut off at byte 0x",
            detail,
            "",
        ),
        _ => out.write_str("unknown status"),
    }
}

/// Writes the description of a status with its detail to a buffer.
pub(crate) fn describe(copier: &mut Copier<'_>, status: u32, detail: u64) -> Result<(), Error>
    ensures { MadeCalls copied_meaning copier.old copier.new (outcome result) (Text (message status detail) ∷ []) }
{
    write_value(copier, &Description { status, detail })
}
