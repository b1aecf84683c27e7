//! That a tree stands where it was read, its parts within it: laws of the grammar, for its rules and for whole units. And that each
//! name of a unit is that of one of its tokens.
#![tactic(auto)]

mod laws;

pub use laws::{
    declarations_stand_where_they_were_read, expressions_stand_where_they_were_read,
    names_are_of_tokens, names_have_texts, spans_are_of_tokens,
    statements_stand_where_they_were_read, units_stand_where_they_were_read,
};
