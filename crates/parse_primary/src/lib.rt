//! Parsers of primary and postfix expressions, each exactly as the grammar says.
//!
//! Forms that share a beginning are read once: what stands behind a name, a fundamental type or a splice tells which form
//! it is.
#![tactic(auto)]

mod atoms;
mod brackets;
mod init;
mod made;
mod operands;
mod primaries;
mod suffixes;

pub use init::initializer;
pub use made::typename_made;
pub use operands::{begins_operand, operand};
pub use suffixes::{postfix, postfix_from};
