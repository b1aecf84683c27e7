//! The parser of expressions, types and names: each rule gives at each token and level exactly what the grammar says.
//!
//! A rule that nests calls its next level through functions that its reader is handed. The public calls hand each other
//! to the readers, and count the levels.
#![tactic(auto)]

mod choice;
mod made;
mod new;
mod operator;
mod sized;
mod top;
mod unary;

pub use cxx_reading::ExprFault;
pub use top::{
    args_at, braced_at, expression, expression_behind, name_at, splice_at, type_at, unary_at,
};
