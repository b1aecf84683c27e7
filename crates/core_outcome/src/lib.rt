//! What pieces come to.
#![tactic(auto)]

mod completions;
mod declared;
mod outcome;

pub use completions::{Completion, Completions};
pub use declared::{Constant, Declared, Enumeration, FunctionBody, OpenedBase, Signature};
pub use outcome::{Fact, Outcome, OutcomeParts};
