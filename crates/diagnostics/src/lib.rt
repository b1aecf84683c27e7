//! The names and the texts of refusals.
#![tactic(auto)]

mod code_name;
mod texts;

pub use code_name::name;
pub use texts::text;
