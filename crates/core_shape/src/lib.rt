//! The shapes of objects, and complete classes.
#![tactic(auto)]

mod class;
mod making;
mod shape;

pub use class::{Base, Class, ClassHead, CompletedBy, Member, PartAt};
pub use making::{ImplicitMaking, PartsBefore, SpecialMembers};
pub use shape::Shape;
