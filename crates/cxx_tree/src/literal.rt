//! Integer literals.

/// An integer literal ([lex.icon]): whether it is decimal, whether it has a suffix `u`, how often `l` stands in its
/// suffix, and its value.
#[derive(Clone, Copy, Debug, PartialEq, Eq)]
pub struct IntegerLiteral {
    pub decimal: bool,
    pub unsigned: bool,
    pub longs: u32,
    pub n: u64,
}
