//! Parts of texts, of which each kind of tree has one that is compared.

use cxx_tree::{
    ArgTree, ArgTrees, BasicTree, BracedTree, Designator, Expr, NewInit, Operation, Suffix,
    TypeTree,
};

/// A tree that is read by itself, or the first part of its kind in one that is. A suffix, an operation and an initializer
/// stand in an expression, a base in a type, a designator in a braced list, an argument among arguments, and an identifier in
/// a name.
#[derive(Clone, Copy)]
pub enum Part {
    Expression,
    Suffix,
    Operation,
    Initializer,
    Type,
    Base,
    Braced,
    Designator,
    Arguments,
    Argument,
    Name,
    Identifier,
    Splice,
}

/// The part that a word of a heading names.
pub fn part_named(word: &str) -> Option<Part> {
    match word {
        "expression" => Some(Part::Expression),
        "suffix" => Some(Part::Suffix),
        "operation" => Some(Part::Operation),
        "initializer" => Some(Part::Initializer),
        "type" => Some(Part::Type),
        "base" => Some(Part::Base),
        "braced" => Some(Part::Braced),
        "designator" => Some(Part::Designator),
        "arguments" => Some(Part::Arguments),
        "argument" => Some(Part::Argument),
        "name" => Some(Part::Name),
        "identifier" => Some(Part::Identifier),
        "splice" => Some(Part::Splice),
        _ => None,
    }
}

pub fn first_suffix(x: &Expr) -> Option<&Suffix> {
    match x {
        Expr::Postfix(_, _, suffixes) => suffixes.get(0),
        _ => None,
    }
}

pub fn first_operation(x: &Expr) -> Option<&Operation> {
    match x {
        Expr::Chain(_, _, operations) => operations.get(0),
        _ => None,
    }
}

pub fn initializer(x: &Expr) -> Option<&NewInit> {
    match x {
        Expr::New(_, _, _, Some(init)) => Some(init.get()),
        _ => None,
    }
}

pub fn base(of: &TypeTree) -> &BasicTree {
    let TypeTree::Type(_, _, basic, _, _) = of;
    basic
}

pub fn first_designator(list: &BracedTree) -> Option<&Designator> {
    match list {
        BracedTree::Clauses(_, _) => None,
        BracedTree::Designated(_, designators) => designators.get(0),
    }
}

pub fn first_argument(args: &ArgTrees) -> Option<&ArgTree> {
    let ArgTrees::Args(_, args) = args;
    args.get(0)
}
