//! Identifiers and names.

use containers::Items;
use cxx_base::{Name, Span};

/// An identifier in the source ([lex.name]), with its token.
#[derive(Clone, Copy, Debug, PartialEq, Eq)]
pub struct Identifier {
    pub span: Span,
    pub name: Name,
}

/// A name ([expr.prim.id]): whether `::` begins it, its first part, and the parts behind `::`. Most names have no more than the first,
/// and then no list.
pub struct NameTree {
    pub span: Span,
    pub rooted: bool,
    pub first: Identifier,
    pub more: Items<Identifier>,
}

impl Drop for NameTree {
    fn drop(self) {
        let NameTree {
            span: _,
            rooted: _,
            first: _,
            more: _,
        } = self;
    }
}
