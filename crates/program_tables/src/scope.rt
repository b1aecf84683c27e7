//! Scopes.

ghost use Rattle.std.specs.Prelude.{◌≡◌, length, slice_get};
ghost use Rattle.std.specs.Option.{option_copied};

use containers::Items;
use cxx_base::{EntityNo, Name, PieceNo, ScopeNo};
use std::marker::Model;

/// What a scope is ([basic.scope]).
#[derive(Clone, Copy, Debug, PartialEq, Eq)]
pub enum ScopeKind {
    /// Of a namespace, the global one too.
    Namespace(EntityNo),
    /// Of a definition of a class: each text has one of its own.
    Class(EntityNo),
    Enumeration(EntityNo),
    /// Of the parameters of a function, with the piece of the body, or of the signature where it has none.
    Parameters(EntityNo, PieceNo),
    /// Of a consteval block.
    ConstevalBlock(PieceNo),
    /// Of statements in braces, of a statement within a statement, or of the head of a `for`.
    Statements,
}

/// What a name is that a body declares.
#[derive(Clone, Copy, Debug, PartialEq, Eq)]
pub enum LocalKind {
    Parameter,
    Variable,
    Alias,
}

/// A name that a scope of a body declares, and how many of the pieces within this body begin before it. So a piece within the body knows which
/// names come before it, by numbers of pieces alone.
#[derive(Clone, Copy, Debug, PartialEq, Eq)]
pub struct LocalName {
    pub name: Name,
    pub kind: LocalKind,
    pub inner_before: u32,
}

/// A scope. Scopes of statements are those in which a class or a block stands, at any depth.
pub struct Scope {
    pub kind: ScopeKind,
    /// The scope around it. None of the global one.
    pub parent: Option<ScopeNo>,
    /// The variables, parameters and aliases that a scope of parameters or of statements declares, in order.
    pub locals: Items<LocalName>,
}

impl Drop for Scope {
    fn drop(self) {
        let Scope {
            kind: _,
            parent: _,
            locals: _,
        } = self;
    }
}

/// The scopes of a program, each behind that around it. Contracts see the list.
pub struct ScopeList {
    scopes: Vec<Scope>,
}

impl Drop for ScopeList {
    fn drop(self) {
        let ScopeList { scopes: _ } = self;
    }
}

impl Model for ScopeList {
    ghost use Rattle.std.specs.Prelude.{List};
    ghost use Rattle.program_tables.specs.declared.scope.Scope.{Scope};

    ghost Value = { List Scope };

    ghost view = { λ s. s.scopes.items };
}

impl ScopeList {
    /// The scopes of a `Vec`, without a copy.
    pub fn from_vec(scopes: Vec<Scope>) -> ScopeList
        ensures { result ≡ scopes.items }
    {
        ScopeList { scopes }
    }

    /// The scope of a number, if there is one.
    pub fn get(&self, scope: ScopeNo) -> Option<&Scope>
        ensures { option_copied result ≡ slice_get self.now scope.0 }
    {
        self.scopes.get(scope.0 as usize)
    }

    /// How many there are.
    pub fn len(&self) -> usize
        ensures { result ≡ length self.now }
    {
        self.scopes.len()
    }
}

/// The scope in which a piece stands (a body in that of its parameters), and whether the piece is a consteval block.
#[derive(Clone, Copy, Debug, PartialEq, Eq)]
pub struct PieceScope {
    pub scope: ScopeNo,
    pub is_block: bool,
}

/// The scopes of all pieces, by number. Contracts see the list.
pub struct PieceScopes {
    pieces: Vec<PieceScope>,
}

impl Drop for PieceScopes {
    fn drop(self) {
        let PieceScopes { pieces: _ } = self;
    }
}

impl Model for PieceScopes {
    ghost use Rattle.std.specs.Prelude.{List};
    ghost use Rattle.program_tables.specs.declared.scope.PieceScope.{PieceScope};

    ghost Value = { List PieceScope };

    ghost view = { λ p. p.pieces.items };
}

impl PieceScopes {
    /// The scopes of a `Vec`, without a copy.
    pub fn from_vec(pieces: Vec<PieceScope>) -> PieceScopes
        ensures { result ≡ pieces.items }
    {
        PieceScopes { pieces }
    }

    /// The scope of a piece, if there is one of this number.
    pub fn get(&self, piece: PieceNo) -> Option<PieceScope>
        ensures { result ≡ slice_get self.now piece.0 }
    {
        match self.pieces.get(piece.0 as usize) {
            Some(scope) => Some(*scope),
            None => None,
        }
    }

    /// How many pieces there are.
    pub fn len(&self) -> usize
        ensures { result ≡ length self.now }
    {
        self.pieces.len()
    }
}

/// The tree of scopes, and where in it each piece stands.
pub struct Scopes {
    pub tree: ScopeList,
    pub pieces: PieceScopes,
}

impl Drop for Scopes {
    fn drop(self) {
        let Scopes { tree: _, pieces: _ } = self;
    }
}
