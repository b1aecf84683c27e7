//! Programs.

use cxx_base::Names;
use cxx_tokens::Tokens;
use cxx_tree::Unit;
use program_tables::{Entities, PieceList, Scopes};

/// A source that is translated: its names, its tokens, its tree, and the tables that follow from the tree. Of a program the translation of a piece
/// takes the names and the tables, and of the tree the item in which the piece stands. The tokens tell which items an edit changed, and number the
/// string literals.
pub struct Program {
    pub names: Names,
    pub tokens: Tokens,
    pub unit: Unit,
    pub scopes: Scopes,
    pub entities: Entities,
    pub pieces: PieceList,
}

impl Drop for Program {
    fn drop(self) {
        let Program {
            names: _,
            tokens: _,
            unit: _,
            scopes: _,
            entities: _,
            pieces: _,
        } = self;
    }
}
