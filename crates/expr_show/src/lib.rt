//! Trees of expressions, types, braced lists, names, splices and arguments as texts, which parts of two are the same, and where a part
//! stands. Plain types in words. It is for programs of rows.
#![tactic(auto)]

mod expr_forms;
mod list_forms;
mod parts;
mod piece;
mod print;
mod same;
mod shown;
mod spans;
mod symbols;

pub use parts::{Part, part_named};
pub use print::Show;
pub use shown::Shown;
