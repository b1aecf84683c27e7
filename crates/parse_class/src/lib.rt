//! The parser of declarations and classes, with their bodies: each rule gives at each token and level exactly what the grammar
//! says. What nests is read by what a parser is handed.
#![tactic(auto)]

mod bodies;
mod classes;
mod common;
mod declarator;
mod decls;
mod look;
mod members;
mod named;
mod plain;
mod special;

pub use bodies::{block, body};
pub use classes::class;
pub use decls::decl;
pub use members::member;
