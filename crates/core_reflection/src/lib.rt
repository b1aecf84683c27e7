//! Reflections: what `^^` gives, and what queries take and give.
#![tactic(auto)]

mod laws;
mod operand;
mod parts;
mod reflection;

pub use laws::reflections_are_sent_and_shared;
pub use operand::{ReflectedKind, TypedOperand};
pub use parts::{DataMember, Description, IntConstant};
pub use reflection::Reflection;
