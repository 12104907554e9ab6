//! Positions in a text.

/// A place of a text: line and column count from 1, columns in characters.
#[derive(Clone, Copy)]
pub struct Position {
    pub line: usize,
    pub column: usize,
}
