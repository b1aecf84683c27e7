//! Bodies and units as texts. Types, expressions and the like are told by their words: of the text whose trees they are, each word is
//! a token. It is for programs of rows.
#![tactic(auto)]

mod class_print;
mod decl_print;
mod printer;
mod stmt_print;

pub use decl_print::unit_text;
pub use stmt_print::body_text;
