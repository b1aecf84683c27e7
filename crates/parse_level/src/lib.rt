//! What a parser of expressions asks of the next level of nesting.
//!
//! What stands in brackets, and the operand of a prefix operator, is one level further in. So each parser below the public calls
//! is handed functions that read there, and none calls itself.
#![tactic(auto)]

mod asked;
mod deeper;
mod levels;

pub use asked::{deep_braced, deep_expr, deep_sized, deep_type, deep_unary};
pub use deeper::Deeper;
pub use levels::Levels;
