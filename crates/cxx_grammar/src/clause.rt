//! Clauses of a braced list.

use containers::Items;
use cxx_tree::{ArgTree, Designator};

/// A clause, which has a designator or none.
#[derive(Drop)]
pub enum Clause {
    Plain(ArgTree),
    Designator(Designator),
}

/// The clauses of a list so far. Where some have a designator and some have none, the list is none of the language.
#[derive(Drop)]
pub enum Clauses {
    Plain(Items<ArgTree>),
    Designated(Items<Designator>),
    Mixed,
}
