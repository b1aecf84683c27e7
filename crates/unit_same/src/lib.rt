//! Statements, classes, declarations and units that are the same, spans aside. Lists are walked by loops, so no recursion goes deeper than
//! a tree nests.
#![tactic(auto)]

mod class;
mod class_parts;
mod heads;
mod parts;
mod stmt;
mod unit;
mod variable;

pub use class::{same_class, same_constructor, same_destructor, same_function, same_member};
pub use class_parts::{same_base, same_based, same_member_init, same_member_value};
pub use heads::{same_for_head, same_for_init, same_for_range, same_for_step, same_returned};
pub use parts::{
    same_alias, same_aliased, same_assert, same_assign, same_bound, same_init, same_local,
};
pub use stmt::{same_block, same_body, same_stmt};
pub use unit::{same_decl, same_item, same_namespace, same_namespace_alias, same_unit};
pub use variable::{same_enum, same_enumerator, same_parameter, same_variable};
