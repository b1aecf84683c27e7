//! Pointers: which object they point into, and the way to a part of it.
#![tactic(auto)]

mod laws;
mod origin;
mod path;
mod pointer;

pub use laws::pointers_are_sent_and_shared;
pub use origin::{Literal, Origin};
pub use path::{Path, PathStep};
pub use pointer::Pointer;
