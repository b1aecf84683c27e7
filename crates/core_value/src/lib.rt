//! Values, and the questions that an evaluation asks.
#![tactic(auto)]

mod info_list;
mod query;
mod scalar;
mod value;

pub use info_list::InfoList;
pub use query::{Query, QueryRow};
pub use scalar::Scalar;
pub use value::{ObjectValue, Value};
