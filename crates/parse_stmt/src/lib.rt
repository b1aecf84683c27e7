//! The parser of statements: each rule gives at each token and level exactly what the grammar says. What nests is read by what a
//! parser is handed.
#![tactic(auto)]

mod braces;
mod branch;
mod choice;
mod look;
mod other;
mod repeat;

pub use choice::{stmt, sub};
