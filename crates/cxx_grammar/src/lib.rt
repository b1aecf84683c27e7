//! The grammar of the language, as one definition that all parsers cite: what each rule gives at each token and level.
//!
//! It stands in `specs/`, a file for each group of lines of the grammar; `specs/Read` and `specs/Nesting` tie them into levels. Here
//! are only the small types of which it speaks, and a law of whole units.
#![tactic(auto)]

mod clause;
mod laws;
mod operator;
mod parts;
mod specifier;
mod within;
mod words;

pub use clause::{Clause, Clauses};
pub use laws::units_end_by_themselves;
pub use operator::Operator;
pub use parts::{Arms, SizedOperand};
pub use specifier::DeclWords;
pub use within::Within;
pub use words::{Sign, TypeWords, Width};
