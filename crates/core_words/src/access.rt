//! Access.

use cxx_base::ScopeNo;

/// Who may name a member or a base ([class.access]).
#[derive(Clone, Copy, Debug, PartialEq, Eq)]
pub enum AccessLevel {
    Public,
    Protected,
    Private,
}

/// From where members are named: a `std::meta::access_context` (P2996R13, [meta.reflection.access.context]).
#[derive(Clone, Copy, Debug, PartialEq, Eq)]
pub enum AccessContext {
    /// From nowhere: public members alone are accessible.
    Unprivileged,
    /// All members are accessible.
    Unchecked,
    /// From the scope in which `current()` is written.
    Current(ScopeNo),
}
