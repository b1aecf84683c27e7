//! The parser of the heads of `for`: what stands in their parentheses, exactly as the grammar says.
#![tactic(auto)]

mod first;
mod heads;
mod step;
mod tree;

pub use heads::head;
pub use tree::HeadTree;
