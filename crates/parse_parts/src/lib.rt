//! Parsers of the parts of declarations in which no statement stands: specifiers, parameters, bases, member initializers,
//! enumerations and namespace aliases, each exactly as the grammar says.
#![tactic(auto)]

mod base;
mod enumerations;
mod member_init;
mod namespace;
mod parameter;
mod specifier;
mod word;

pub use base::bases;
pub use enumerations::enumeration;
pub use member_init::member_inits;
pub use namespace::namespace_alias;
pub use parameter::parameters;
pub use specifier::{access, constructor_words, key, specifiers};
pub use word::{fit_words, no_words, specifiers_of, stand_together};
