//! The causes for which a file is not printed, in words.
ghost use Rattle.std.specs.Prelude.{◌≡◌, Some};
ghost use Rattle.std.specs.IoError.{error_kind};
ghost use Rattle.wasm2text.specs.Messages.{kind_name, cause_text, is_closed_pipe};
ghost use Rattle.wasmprinter_bytes.specs.declared.library_error.Error.TheVariants.{Memory};
ghost use Rattle.wasm2text.specs.declared.cause.Cause.TheVariants.{Module};

use std::alloc::AllocError;
use std::io::ErrorKind;
use std::{fmt, io};
use wasmprinter::Error;

/// Why a file is not printed.
#[derive(Drop)]
pub enum Cause {
    /// A file can't be read or created.
    System(io::Error),
    /// The module can't be printed or decoded.
    Module(Error),
    /// The module has no byte at this offset.
    NoByte {
        /// The offset from the start of the module, or `u64::MAX` if it is greater.
        offset: u64,
        /// The number of bytes of the module.
        len: u64,
    },
    /// The module has no code section.
    NoCode,
    /// The module does not have the function.
    NoFunction,
    /// The text can't be written.
    Output(io::Error),
}

/// Returns the name of a kind of errors of the system.
fn kind_name(kind: ErrorKind) -> &'static str
    ensures { result.now ≡ kind_name kind }
{
    match kind {
        ErrorKind::NotFound => "no such file or directory",
        ErrorKind::PermissionDenied => "permission denied",
        ErrorKind::IsADirectory => "is a directory",
        ErrorKind::NotADirectory => "not a directory",
        ErrorKind::InvalidFilename => "file name too long",
        ErrorKind::FilesystemLoop => "too many symbolic links",
        ErrorKind::ReadOnlyFilesystem => "read-only file system",
        ErrorKind::StorageFull => "no space left on device",
        ErrorKind::QuotaExceeded => "disk quota exceeded",
        ErrorKind::FileTooLarge => "file too large",
        ErrorKind::BrokenPipe => "broken pipe",
        ErrorKind::OutOfMemory => "out of memory",
        _ => "unexpected system error",
    }
}

/// Returns whether the reader of the text closed the pipe.
pub fn is_closed_pipe(error: &io::Error) -> bool
    ensures { result ≡ is_closed_pipe (error_kind error.now) }
{
    matches!(error.kind(), ErrorKind::BrokenPipe)
}

impl fmt::Display for Cause {
    ghost output = { λ c. Some (cause_text c) };

    fn fmt<W: fmt::Write>(&self, f: &mut fmt::Formatter<W>) -> fmt::Result {
        match self {
            Cause::System(error) => f.write_str(kind_name(error.kind())),
            Cause::Module(error) => write!(f, "{error}"),
            Cause::NoByte { offset, len } => write!(
                f,
                "byte 0x{offset:x} is not in the module, which has 0x{len:x} bytes"
            ),
            Cause::NoCode => f.write_str("module has no code section"),
            Cause::NoFunction => f.write_str("no such function"),
            Cause::Output(error) => {
                let name = kind_name(error.kind());
                write!(f, "can't write the text: {name}")
            }
        }
    }
}

impl From<Error> for Cause {
    ghost from_gives = { λ error cause. cause ≡ Module error };

    fn from(error: Error) -> Cause {
        Cause::Module(error)
    }
}

impl From<AllocError> for Cause {
    ghost from_gives = { λ _ cause. cause ≡ Module Memory };

    fn from(_error: AllocError) -> Cause {
        Cause::Module(Error::Memory)
    }
}
