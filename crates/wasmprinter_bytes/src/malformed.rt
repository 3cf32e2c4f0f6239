//! The error of readers that allocate nothing.

/// The bytes are not in the binary format. Readers that allocate nothing return this error.
#[derive(Clone, Copy, Debug, PartialEq, Eq)]
pub struct Malformed {
    /// The offset of the error in bytes from the start of the module, as in [`Error::Malformed`](crate::Error::Malformed).
    pub place: u64,
}
