//! Parsers of what bodies share with what stands around them, but for assignments: declarations of local variables and their
//! parts, aliases and assertions, and what tells that a statement declares a local variable. Each is exactly as the grammar says.
#![tactic(auto)]

mod aliases;
mod assertion;
mod begins;
mod dimensions;
mod fit;
mod initializer;
mod locals;
mod side_rule;

pub use aliases::alias;
pub use assertion::assert_at;
pub use begins::begins_local;
pub use dimensions::bounds;
pub use fit::fit_bounds;
pub use initializer::init_if_any;
pub use locals::{Declared, local, local_rest};
pub use side_rule::allowed;
