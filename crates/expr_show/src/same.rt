//! Whether parts of two trees are the same.

use crate::parts::{
    Part, base, first_argument, first_designator, first_operation, first_suffix, initializer,
};
use cxx_tree::{ArgTrees, BracedTree, Expr, NameTree, TypeTree};
use tree_same::{
    same_arg, same_args, same_basic, same_braced, same_designator, same_expr, same_identifier,
    same_name, same_new_init, same_operation, same_suffix, same_type,
};

fn suffixes_same(x: &Expr, y: &Expr) -> bool {
    match (first_suffix(x), first_suffix(y)) {
        (Some(x), Some(y)) => same_suffix(x, y),
        _ => false,
    }
}

fn operations_same(x: &Expr, y: &Expr) -> bool {
    match (first_operation(x), first_operation(y)) {
        (Some(x), Some(y)) => same_operation(x, y),
        _ => false,
    }
}

fn initializers_same(x: &Expr, y: &Expr) -> bool {
    match (initializer(x), initializer(y)) {
        (Some(x), Some(y)) => same_new_init(x, y),
        _ => false,
    }
}

fn designators_same(x: &BracedTree, y: &BracedTree) -> bool {
    match (first_designator(x), first_designator(y)) {
        (Some(x), Some(y)) => same_designator(x, y),
        _ => false,
    }
}

fn arguments_same(x: &ArgTrees, y: &ArgTrees) -> bool {
    match (first_argument(x), first_argument(y)) {
        (Some(x), Some(y)) => same_arg(x, y),
        _ => false,
    }
}

pub fn same_in_expressions(part: Part, x: &Expr, y: &Expr) -> bool {
    match part {
        Part::Suffix => suffixes_same(x, y),
        Part::Operation => operations_same(x, y),
        Part::Initializer => initializers_same(x, y),
        _ => same_expr(x, y),
    }
}

pub fn same_in_types(part: Part, x: &TypeTree, y: &TypeTree) -> bool {
    match part {
        Part::Base => same_basic(base(x), base(y)),
        _ => same_type(x, y),
    }
}

pub fn same_in_lists(part: Part, x: &BracedTree, y: &BracedTree) -> bool {
    match part {
        Part::Designator => designators_same(x, y),
        _ => same_braced(x, y),
    }
}

pub fn same_in_arguments(part: Part, x: &ArgTrees, y: &ArgTrees) -> bool {
    match part {
        Part::Argument => arguments_same(x, y),
        _ => same_args(x, y),
    }
}

pub fn same_in_names(part: Part, x: &NameTree, y: &NameTree) -> bool {
    match part {
        Part::Identifier => same_identifier(&x.first, &y.first),
        _ => same_name(x, y),
    }
}
