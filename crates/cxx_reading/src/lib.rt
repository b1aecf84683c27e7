//! How a grammar is written, and the steps over single tokens with which its parsers are. The crate knows no grammar.
#![tactic(auto)]

mod any;
mod fault;
mod laws;
mod list;
mod longest;
mod missing;
mod reader;
mod repetition;
mod seen;
mod step;

pub use any::{any_punctuator, any_word};
pub use fault::ExprFault;
pub use laws::{
    choices_take_the_longest, missing_parts_are_no_fault, repetitions_end_by_themselves,
};
pub use list::{push, single};
pub use longest::longer;
pub use missing::{if_any, optional};
pub use reader::Reader;
pub use repetition::repeat;
pub use seen::{Seen, kind_ahead, kind_at, sees, sees_ahead, sees_identifier, sees_word};
pub use step::{
    character, eat, eat_word, expect, expect_word, identifier, integer, left, span, text,
};
