//! The parser of statements in which neither a statement nor a class stands: each rule gives at each token and level exactly what
//! the grammar says.
#![tactic(auto)]

mod jumps;
mod plain;
mod wordless;

pub use jumps::{break_form, continue_form, return_form};
pub use plain::{alias_form, assert_form, empty_form};
pub use wordless::simple;
