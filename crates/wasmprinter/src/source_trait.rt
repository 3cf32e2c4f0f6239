//! Sources from which files are read.
//!
//! `print_file` is generic over [`Source`]. In generic code the prover knows of a read only what the relation `may_read`
//! says: the source returned these bytes for that path. So the contract can say which file was read.
ghost use Rattle.std.specs.Prelude.{ℕ, List, Option, Some, None, MatchResult, ⊤};
ghost use Rattle.std.specs.Path.{path_bytes};

use std::path::Path;
use std::rt::Files;
use std::{fs, io};

/// A source from which files are read. The files of the system are one, with `HostRuntime` as its handle.
pub trait Source {
    // `may_read source path content`: reading the file at this path (a list of bytes) may return the bytes in `content`,
    // or may fail if `content` is `None`.
    ghost may_read: { Self → List ℕ → Option (List ℕ) → Type 0 };

    /// Returns the bytes of the file at this path. `may_read` allows these bytes for the path or, if an error is
    /// returned, `None`.
    fn read(&self, path: Path<'_>) -> io::Result<Vec<u8>>
        ensures { MatchResult result
            (λ bytes. may_read self.now (path_bytes path.entry) (Some bytes.items))
            (λ _. may_read self.now (path_bytes path.entry) None) };
}

// The files of the system. No contract can say what a file contains.
impl<R: Files + AllocGlobal> Source for R {
    ghost may_read = { λ _ _ _. ⊤ };

    fn read(&self, path: Path<'_>) -> io::Result<Vec<u8>> {
        fs::read(self, path)
    }
}
