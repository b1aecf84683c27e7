//! The parser of whole source texts, and the refusal that decides where one does not derive a unit. It ties the parsers of what
//! nests together, over the levels.
#![tactic(auto)]

mod levels;
mod syntax_fault;
mod units;

pub use levels::body;
pub use syntax_fault::SyntaxFault;
pub use units::{Taker, unit, unit_to};
