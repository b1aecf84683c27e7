//! Places in a source text.

/// Where a character stands. Lines and the characters of a line are counted from 1.
#[derive(Clone, Copy, Debug, PartialEq, Eq, PartialOrd, Ord, Hash)]
pub struct Place {
    pub line: u32,
    pub column: u32,
}

impl Place {
    /// The first character of a text.
    pub const START: Place = Place { line: 1, column: 1 };
}

/// Where a part of the source stands: the place of its first character, and its tokens, from number `first` up to but
/// not with number `end`.
#[derive(Clone, Copy, Debug, PartialEq, Eq, Hash)]
pub struct Span {
    pub place: Place,
    pub first: u32,
    pub end: u32,
}
