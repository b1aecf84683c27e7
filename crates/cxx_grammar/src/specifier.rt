//! The words before a declared type or name.

/// The specifiers of a declaration ([dcl.spec], [dcl.fct.spec]) as they stand: which of them, and whether one of `inline`,
/// `static`, `constexpr` and `consteval` stands twice.
#[derive(Clone, Copy, Debug, PartialEq, Eq)]
pub struct DeclWords {
    pub is_inline: bool,
    pub is_static: bool,
    pub is_constexpr: bool,
    pub is_consteval: bool,
    pub is_explicit: bool,
    pub is_twice: bool,
}
