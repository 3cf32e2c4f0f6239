//! The writers of the program: any byte writer, and a file that is created when its first byte is written.
ghost use Rattle.std.specs.Prelude.{◌≡◌, ℕ, List, None, Option, Result, option_copied};
ghost use Rattle.std.specs.Io.KnownBytes.{Keeps};
ghost use Rattle.std.specs.declared.io.Error.{Error};
ghost use Rattle.wasmprinter_writers.specs.Writing.{Writing, TakesWhole};
ghost use Rattle.wasm2text.specs.OutputFiles.{WritesFile, FlushesFile, ClosesFile, uncreated_file};

use crate::system::Outputs;
use std::io;
use std::io::Write;
use wasmprinter::print::PrintText;

/// A writer that may hold bytes until it is flushed.
pub trait Output {
    // The possible results of writing bytes, with the states of the writer before and after.
    ghost takes: { Writing Self };

    // The possible results of flushing, with the states of the writer before and after.
    ghost flushes: { Self → Result (Unit {0}) Error → Self → Type 0 };

    // The name of the file that is not created yet, if the writer is one to a file.
    ghost uncreated: { Self → Option (List ℕ) };

    /// Writes all bytes, or returns the writer's error.
    fn write_bytes(&mut self, bytes: &[u8]) -> io::Result<()>
        ensures { takes self.old bytes.now result self.new };

    /// Passes on all bytes that the writer holds.
    fn finish(&mut self) -> io::Result<()>
        ensures { flushes self.old result self.new };

    /// Returns the name of the file that the first write is to create, or `None` if it was created. Returns `None` also
    /// for a writer that creates no file.
    fn uncreated_file(&self) -> Option<&str>
        ensures { option_copied result ≡ uncreated self.now };
}

impl<W: Write> Output for W {
    ghost takes = { TakesWhole W.contents };

    ghost flushes = { λ old result new. Keeps (W.contents old) (W.contents new) };

    ghost uncreated = { λ _. None };

    #[inline]
    fn write_bytes(&mut self, bytes: &[u8]) -> io::Result<()> {
        self.write_all(bytes)
    }

    fn finish(&mut self) -> io::Result<()> {
        self.flush()
    }

    fn uncreated_file(&self) -> Option<&str> {
        None
    }
}

/// A file that is created when its first byte is written.
#[derive(Drop)]
pub struct OutputFile<'a, C, F> {
    /// The creator of the file.
    pub outputs: C,
    /// The name of the file.
    pub path: &'a str,
    /// The writer to the file, once it is created.
    pub file: Option<F>,
}

impl<C: Outputs<F>, F> OutputFile<'_, C, F> {
    /// Closes the file if it was created. Returns the creator of files.
    pub fn close(self) -> C
        ensures { ClosesFile C.closes self.entry result }
    {
        let mut outputs = self.outputs;
        match self.file {
            Some(file) => {
                outputs.close(file);
                outputs
            }
            None => outputs,
        }
    }
}

impl<C: Outputs<F>, F: Output + Drop> Output for OutputFile<'_, C, F> {
    ghost takes = { WritesFile C.creates F.takes };

    ghost flushes = { FlushesFile F.flushes };

    ghost uncreated = { uncreated_file F.uncreated };

    fn write_bytes(&mut self, bytes: &[u8]) -> io::Result<()> {
        if let Some(file) = &mut self.file {
            return file.write_bytes(bytes);
        }
        if bytes.is_empty() {
            return Ok(());
        }
        match self.outputs.create(self.path) {
            Ok(mut file) => {
                let written = file.write_bytes(bytes);
                self.file = Some(file);
                written
            }
            Err(error) => Err(error),
        }
    }

    fn finish(&mut self) -> io::Result<()> {
        match &mut self.file {
            Some(file) => file.finish(),
            None => Ok(()),
        }
    }

    fn uncreated_file(&self) -> Option<&str> {
        match &self.file {
            Some(file) => file.uncreated_file(),
            None => Some(self.path),
        }
    }
}

/// A printer that writes the text to a writer.
#[derive(Drop)]
pub struct PrintOutput<O>(pub O);

impl<O: Output> PrintText for PrintOutput<O> {
    ghost writes = { λ old bytes answer new. O.takes old.0 bytes answer new.0 };

    #[inline]
    fn write_str(&mut self, s: &str) -> io::Result<()> {
        self.0.write_bytes(s.as_bytes())
    }
}
