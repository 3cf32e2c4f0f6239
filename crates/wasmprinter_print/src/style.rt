//! Styles of text.

/// The style that a style call chooses. `reset_color` chooses none of them.
#[derive(Clone, Copy)]
pub enum Style {
    /// Numbers and strings.
    Literal,
    /// The name or the index of an item.
    Name,
    /// A keyword.
    Keyword,
    /// The word of a type.
    TypeName,
    /// A comment.
    Comment,
}
