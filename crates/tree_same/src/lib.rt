//! Types and expressions that are the same, spans aside. Lists are walked by loops, so no recursion goes deeper than a tree nests.
#![tactic(auto)]

mod args;
mod braced;
mod laws;
mod leaf;
mod operation;
mod root;
mod suffix;
mod type_tree;

pub use args::{same_arg, same_args};
pub use braced::{same_braced, same_designator, same_new_init};
pub use laws::{parts_decide, same_is_an_equivalence};
pub use leaf::{same_identifier, same_identifiers, same_name};
pub use operation::same_operation;
pub use root::{same_expr, same_expr_if_any};
pub use suffix::same_suffix;
pub use type_tree::{same_basic, same_splice, same_type};
