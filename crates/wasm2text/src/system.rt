//! The files and writers of the program.
//!
//! The program is generic over [`Inputs`], [`Outputs`] and [`Output`]. In generic code the prover knows of a call only
//! what the relations of the traits say. So the contract of the program can say which calls were made, in which order,
//! and with which results.
ghost use Rattle.std.specs.Prelude.{ℕ, List, Result, Ok, Err, MatchResult, ⊤};
ghost use Rattle.std.specs.declared.io.Error.{Error};

use crate::program::BUFFER_LEN;
use std::fs::File;
use std::io::{BufWriter, Read};
use std::{fs, io};

/// A source of files and of standard input.
pub trait Inputs {
    // The possible results of reading the file at this path, with the states before and after.
    ghost reads: { Self → List ℕ → Result (List ℕ) Error → Self → Type 0 };

    // The possible results of reading standard input, with the states before and after.
    ghost reads_input: { Self → Result (List ℕ) Error → Self → Type 0 };

    /// Returns the bytes of a file.
    fn read_file(&mut self, path: &str) -> io::Result<Vec<u8>>
        ensures { MatchResult result (λ bytes. reads self.old path.now (Ok bytes.items) self.new) (λ e. reads self.old path.now (Err e) self.new) };

    /// Returns all bytes of standard input.
    fn read_input(&mut self) -> io::Result<Vec<u8>>
        ensures { MatchResult result (λ bytes. reads_input self.old (Ok bytes.items) self.new) (λ e. reads_input self.old (Err e) self.new) };
}

/// Creates files to write to.
pub trait Outputs<F> {
    // The possible results of creating the file at this path, with the states before and after.
    ghost creates: { Self → List ℕ → Result F Error → Self → Type 0 };

    // Closing this file, with the states before and after.
    ghost closes: { Self → F → Self → Type 0 };

    /// Creates a file, or empties it if it exists.
    fn create(&mut self, path: &str) -> io::Result<F>
        ensures { creates self.old path.now result self.new };

    /// Closes a file. What the writer still holds is written, if that is possible.
    fn close(&mut self, file: F)
        ensures { closes self.old file self.new };
}

/// The files and the standard input of the system.
#[derive(Clone, Copy)]
pub struct Host<'a>(pub &'a HostRuntime);

// No contract can say what a file contains.
impl Inputs for Host<'_> {
    ghost reads = { λ _ _ _ _. ⊤ };

    ghost reads_input = { λ _ _ _. ⊤ };

    fn read_file(&mut self, path: &str) -> io::Result<Vec<u8>> {
        fs::read(self.0, path)
    }

    fn read_input(&mut self) -> io::Result<Vec<u8>> {
        let mut bytes = Vec::new(self.0.alloc());
        self.0.stdin().read_to_end(&mut bytes)?;
        Ok(bytes)
    }
}

impl Outputs<BufWriter<File>> for Host<'_> {
    ghost creates = { λ _ _ _ _. ⊤ };

    ghost closes = { λ _ _ _. ⊤ };

    fn create(&mut self, path: &str) -> io::Result<BufWriter<File>> {
        BufWriter::with_capacity(self.0.alloc(), BUFFER_LEN, fs::create(self.0, path)?)
    }

    fn close(&mut self, _file: BufWriter<File>) {}
}
