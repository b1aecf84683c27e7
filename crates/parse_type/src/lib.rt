//! Parsers of names, fundamental types, types and splices, each exactly as the grammar says.
//!
//! A rule that stands in brackets is read one level deeper, by a function that the reader is handed. So each function here
//! is one rule of the grammar, and none calls itself.
#![tactic(auto)]

mod fundamental;
mod names;
mod types;
mod words;

pub use fundamental::fund;
pub use names::{name, part, parts, vector_head};
pub use types::{basic_vector, pointers, splice, type_tree};
