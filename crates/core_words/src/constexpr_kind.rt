//! What of evaluation a declaration says.

/// Whether a variable or a function is declared `constexpr` or `consteval` ([dcl.constexpr]).
#[derive(Clone, Copy, Debug, PartialEq, Eq)]
pub enum ConstexprKind {
    Plain,
    Constexpr,
    Consteval,
}
