//! Pieces.

ghost use Rattle.std.specs.Prelude.{◌≡◌, length, slice_get};

use crate::scope::Scopes;
use containers::Items;
use cxx_base::{EntityNo, PieceNo};

/// What a piece is: a unit of translation.
#[derive(Clone, Copy, Debug, PartialEq, Eq)]
pub enum PieceKind {
    /// One name of the head of a namespace.
    Namespace,
    NamespaceAlias,
    Alias,
    /// A class without its definition.
    Class,
    /// The opening of the definition of a class, up to its bases.
    Opening,
    /// Its closing, with the piece of its opening.
    Closing(PieceNo),
    /// A data member that is not static.
    DataMember,
    /// The default initializer of a data member, with the piece that declares it.
    DefaultInit(PieceNo),
    Signature,
    /// The body of a function, with the piece of its own signature, and how many pieces of classes and blocks it encloses, which stand right
    /// before it.
    Body { signature: PieceNo, inner: u32 },
    Enumeration,
    /// A variable of a namespace, or a static data member.
    Variable,
    Assertion,
    Block,
}

/// Whether a piece declares again what may not be declared again.
#[derive(Clone, Copy, Debug, PartialEq, Eq)]
pub enum DeclaredTwice {
    No,
    /// Its own name.
    Name,
    /// A name within it: of the parameter or the enumerator of this place, the first such one.
    Part(u32),
}

/// Where the way from the unit to the tree of a piece stands: its first entry, and how many it has.
#[derive(Clone, Copy, Debug, PartialEq, Eq)]
pub struct WayAt {
    pub first: u32,
    pub count: u32,
}

/// A piece.
#[derive(Clone, Copy, Debug, PartialEq, Eq)]
pub struct Piece {
    pub kind: PieceKind,
    /// The entity that it declares or belongs to. None of an assertion and a block.
    pub entity: Option<EntityNo>,
    pub twice: DeclaredTwice,
    pub way: WayAt,
    /// How many string literals stand before it in the source.
    pub literals: u32,
}

/// The pieces of a program by number, and the ways from the unit to their trees, one after the other: at each form the number of the part that is
/// taken. So a piece is found without looking at those before it.
pub struct PieceList {
    pub pieces: Items<Piece>,
    pub ways: Items<u32>,
}

impl Drop for PieceList {
    fn drop(self) {
        let PieceList { pieces: _, ways: _ } = self;
    }
}

impl PieceList {
    /// The piece of a number, if there is one.
    pub fn get(&self, piece: PieceNo) -> Option<Piece>
        ensures { result ≡ slice_get self.now.pieces piece.0 }
    {
        match self.pieces.get(piece.0 as usize) {
            Some(piece) => Some(*piece),
            None => None,
        }
    }

    /// How many there are.
    pub fn len(&self) -> usize
        ensures { result ≡ length self.now.pieces }
    {
        self.pieces.len()
    }
}

/// The pieces of a unit, and its scopes.
pub struct Pieces {
    pub list: PieceList,
    pub scopes: Scopes,
}

impl Drop for Pieces {
    fn drop(self) {
        let Pieces { list: _, scopes: _ } = self;
    }
}
