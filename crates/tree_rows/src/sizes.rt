//! How large the values of types are.

use cxx_tree::{
    ArgTree, AssertTree, AssignTree, BoundTree, BracedTree, CxxType, Decl, EnumeratorTree, Expr,
    Item, Layers, LocalTree, Member, NameTree, Operation, ParameterTree, Stmt, Suffix, TypeTree,
};
use std::mem::size_of;

/// How many bytes a value of the type of a name takes.
pub fn size_of_named(name: &str) -> Option<usize> {
    match name {
        "ArgTree" => Some(size_of::<ArgTree>()),
        "AssertTree" => Some(size_of::<AssertTree>()),
        "AssignTree" => Some(size_of::<AssignTree>()),
        "BoundTree" => Some(size_of::<BoundTree>()),
        "BracedTree" => Some(size_of::<BracedTree>()),
        "CxxType" => Some(size_of::<CxxType>()),
        "Decl" => Some(size_of::<Decl>()),
        "EnumeratorTree" => Some(size_of::<EnumeratorTree>()),
        "Expr" => Some(size_of::<Expr>()),
        "Item" => Some(size_of::<Item>()),
        "Layers" => Some(size_of::<Layers>()),
        "LocalTree" => Some(size_of::<LocalTree>()),
        "Member" => Some(size_of::<Member>()),
        "NameTree" => Some(size_of::<NameTree>()),
        "Operation" => Some(size_of::<Operation>()),
        "ParameterTree" => Some(size_of::<ParameterTree>()),
        "Stmt" => Some(size_of::<Stmt>()),
        "Suffix" => Some(size_of::<Suffix>()),
        "TypeTree" => Some(size_of::<TypeTree>()),
        _ => None,
    }
}
