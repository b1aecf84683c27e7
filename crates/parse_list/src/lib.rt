//! Parsers of arguments and braced lists, each exactly as the grammar says.
//!
//! What stands in the brackets is read one level deeper, by functions that the reader is handed.
#![tactic(auto)]

mod arguments;
mod bracing;
mod clauses;

pub use arguments::args;
pub use bracing::braced_list;
