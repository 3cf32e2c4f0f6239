//! The exit statuses.

/// Everything that was requested was printed, or the reader of the output closed it.
pub const PRINTED: u8 = 0;

/// A file was not read or not printed, the output was not written, the arguments were not read, or an allocation failed.
pub const FAILED: u8 = 1;

/// The command line is wrong, and nothing was printed.
pub const MISUSED: u8 = 2;
