//! What nests: statements of bodies, statements within statements, and members of classes, one level deeper than where a parser
//! reads.
#![tactic(auto)]

mod inside;
mod level;
mod nested;

pub use inside::{InnerMember, InnerStmt};
pub use level::Level;
pub use nested::{Nest, Nested};
