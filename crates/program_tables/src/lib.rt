//! The tables of a program: its pieces, its scopes and its entities. They say of each what the translation of other pieces asks without
//! reading it, and nothing of where it stands in the text.
#![tactic(auto)]

mod entities;
mod entity;
mod laws;
mod piece;
mod scope;

pub use entities::Entities;
pub use entity::{
    ClassEntity, ClassText, Entity, EntityKind, EnumEntity, FunctionEntity, NamespaceEntity,
    VariableEntity,
};
pub use laws::tables_are_sent_and_shared;
pub use piece::{DeclaredTwice, Piece, PieceKind, PieceList, Pieces, WayAt};
pub use scope::{
    LocalKind, LocalName, PieceScope, PieceScopes, Scope, ScopeKind, ScopeList, Scopes,
};
