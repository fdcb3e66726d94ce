//! A place in a text as people count.

/// A line and a column of a text, both counted from 1, columns in characters.
#[derive(Clone, Copy, PartialEq, Eq)]
pub struct Position {
    /// One more than the line terminators that end at or before the place.
    pub line: usize,
    /// One more than the characters of the line that end at or before the place.
    pub column: usize,
}
