//! The tokens of a source text ([lex]).
#![tactic(auto)]

mod character;
mod escape;
mod fault;
mod gap;
mod integer;
pub mod keyword;
mod laws;
mod lexing;
pub mod mark;
mod punctuator;
mod quoted;
mod recent;
mod run;
mod short_number;
mod text;
mod token;
mod value;
mod word;

pub use fault::LexFault;
pub use laws::{
    cuts_are_one, numbers_are_places, scan_is_the_cut, tokens_are_longest, tokens_are_usable,
};
pub use lexing::tokens;
pub use token::{Token, TokenKind, Tokens};
