//! The words of a fundamental type.

/// Whether `signed` or `unsigned` stands.
#[derive(Clone, Copy, Debug, PartialEq, Eq)]
pub enum Sign {
    None,
    Signed,
    Unsigned,
}

/// The word that tells the width, where one stands.
#[derive(Clone, Copy, Debug, PartialEq, Eq)]
pub enum Width {
    None,
    Char,
    Short,
    Long,
    LongLong,
}

/// The words of a type of whole numbers ([dcl.type.simple]), in any order.
#[derive(Clone, Copy, Debug, PartialEq, Eq)]
pub struct TypeWords {
    pub sign: Sign,
    pub width: Width,
    pub has_int: bool,
}
