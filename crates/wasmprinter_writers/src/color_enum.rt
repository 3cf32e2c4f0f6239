//! Terminal colors.

/// The color of text. Each variant lists its number in the 256-color palette of a terminal, and that of its
/// intense shade.
#[derive(Debug, Clone, Copy, PartialEq, Eq)]
pub enum Color {
    /// 1, intense 9.
    Red,
    /// 2, intense 10.
    Green,
    /// 3, intense 11.
    Yellow,
    /// 5, intense 13.
    Magenta,
    /// 6, intense 14.
    Cyan,
}
