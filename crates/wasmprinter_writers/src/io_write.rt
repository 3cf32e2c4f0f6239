//! A printer that writes to a byte writer.
use crate::WriteBytes;
use std::io;
use wasmprinter_print::PrintText;

/// A printer that writes the bytes of each piece and of each line feed to a byte writer. Styles and line starts
/// write nothing.
#[derive(Drop)]
pub struct PrintIoWrite<T>(pub T);

impl<T: WriteBytes> PrintText for PrintIoWrite<T> {
    ghost writes = { λ old bytes answer new. T.takes old.0 bytes answer new.0 };

    #[inline]
    fn write_str(&mut self, s: &str) -> io::Result<()> {
        self.0.write_bytes(s.as_bytes())
    }
}
