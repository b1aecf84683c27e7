//! The parser of assignments, and of the expressions beside them: each rule gives at each token and level exactly what the grammar
//! says.
#![tactic(auto)]

mod assigning;
mod operators;

pub use assigning::{assign, closed};
