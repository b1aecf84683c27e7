//! The tokens of parts, as the parts tell them.

use crate::parts::{
    Part, base, first_argument, first_designator, first_operation, first_suffix, initializer,
};
use cxx_base::Span;
use cxx_tree::{ArgTrees, BracedTree, Expr, NameTree, TypeTree};

pub fn in_expression(part: Part, x: &Expr) -> Option<Span> {
    match part {
        Part::Suffix => Some(first_suffix(x)?.span()),
        Part::Operation => Some(first_operation(x)?.span()),
        Part::Initializer => Some(initializer(x)?.span()),
        _ => Some(x.span()),
    }
}

pub fn in_type(part: Part, x: &TypeTree) -> Option<Span> {
    match part {
        Part::Base => Some(base(x).span()),
        _ => Some(x.span()),
    }
}

pub fn in_list(part: Part, x: &BracedTree) -> Option<Span> {
    match part {
        Part::Designator => Some(first_designator(x)?.span()),
        _ => Some(x.span()),
    }
}

pub fn in_arguments(part: Part, x: &ArgTrees) -> Option<Span> {
    match part {
        Part::Argument => Some(first_argument(x)?.span()),
        _ => Some(x.span()),
    }
}

pub fn in_name(part: Part, x: &NameTree) -> Span {
    match part {
        Part::Identifier => x.first.span,
        _ => x.span,
    }
}
