//! The climb over the lines of binary operators, exactly as the grammar says.
//!
//! The chains that are open are kept in a list, so that ten lines of operators take no ten calls, and an operand that no operator
//! follows costs one look.
#![tactic(auto)]

mod climb;
mod open_chain;
mod operator;

pub use climb::climbed;
pub use operator::operator_at;
