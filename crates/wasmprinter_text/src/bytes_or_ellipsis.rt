//! The bytes of data segments and custom sections.
ghost use Rattle.wasmprinter_spec.specs.Layout.DataSegments.{shown_bytes};

use crate::parens_and_words::write_word;
use crate::strings::write_byte_string;
use wasmprinter_print::Output;

/// Writes bytes as a quoted string in the style of literals. If the options ask for a skeleton, writes `...` without a
/// style in place of the string.
pub fn write_shown_bytes<O: Output>(out: &mut O, bytes: &[u8])
    ensures { O.wrote out.old out.new (shown_bytes O.chosen.skeleton bytes.now) }
{
    if out.skeleton() {
        write_word(out, "...");
    } else {
        write_byte_string(out, bytes);
    }
}
