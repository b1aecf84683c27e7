//! Small words that the tables of a program, its types, its evaluation and its report share.
#![tactic(auto)]

mod access;
mod constexpr_kind;
mod conversion;
mod stop;

pub use access::{AccessContext, AccessLevel};
pub use constexpr_kind::ConstexprKind;
pub use conversion::Conversion;
pub use stop::{CallStop, Cause, ReadStop};
