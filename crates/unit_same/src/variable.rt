//! Variables, parameters and enumerations.

ghost use Rattle.std.specs.Prelude.{IsTrue, ◌↔◌, ◌≡◌};
ghost use Rattle.tree_same.specs.Lists.{AreSame, AreSameIfAny};
ghost use Rattle.tree_same.specs.Names.{SameIdentifier};
ghost use Rattle.tree_same.specs.Same.{SameType};
ghost use Rattle.unit_same.specs.Parts.{SameEnum, SameEnumerator, SameParameter, SameVariable};

use crate::parts::{bounds_same, init_same_if_any, value_same_if_any};
use containers::Boxed;
use cxx_tree::{
    ClassKey, EnumTree, EnumeratorTree, Identifier, ParameterTree, Specifiers, TypeTree,
    VariableTree,
};
use tree_same::{same_identifier, same_type};

/// Whether two variables are the same, spans aside.
pub fn same_variable(tree: &VariableTree, other: &VariableTree) -> bool
    ensures { IsTrue result ↔ SameVariable tree.now other.now }
{
    specifiers_same(tree.specifiers, other.specifiers)
        && (same_type(tree.of_type.get(), other.of_type.get())
            && (same_identifier(&tree.name, &other.name)
                && (bounds_same(tree.bounds.as_slice(), other.bounds.as_slice())
                    && init_same_if_any(&tree.init, &other.init))))
}

/// Whether two parameters are the same, spans aside.
pub fn same_parameter(tree: &ParameterTree, other: &ParameterTree) -> bool
    ensures { IsTrue result ↔ SameParameter tree.now other.now }
{
    same_type(tree.of_type.get(), other.of_type.get()) && name_same_if_any(&tree.name, &other.name)
}

/// Whether two enumerations are the same, spans aside.
pub fn same_enum(tree: &EnumTree, other: &EnumTree) -> bool
    ensures { IsTrue result ↔ SameEnum tree.now other.now }
{
    keys_same(tree.key, other.key)
        && (same_identifier(&tree.name, &other.name)
            && (type_same_if_any(&tree.underlying, &other.underlying)
                && enumerators_same(tree.enumerators.as_slice(), other.enumerators.as_slice())))
}

/// Whether two enumerators are the same, spans aside.
pub fn same_enumerator(tree: &EnumeratorTree, other: &EnumeratorTree) -> bool
    ensures { IsTrue result ↔ SameEnumerator tree.now other.now }
{
    same_identifier(&tree.name, &other.name) && value_same_if_any(&tree.value, &other.value)
}

pub(crate) fn parameters_same(parameters: &[ParameterTree], others: &[ParameterTree]) -> bool
    ensures { IsTrue result ↔ AreSame SameParameter parameters.now others.now }
{
    let mut rest = others;
    for x in parameters {
        match rest.split_first() {
            Some((y, more)) => {
                if !same_parameter(x, y) {
                    return false;
                }
                rest = more;
            }
            None => return false,
        }
    }
    rest.is_empty()
}

fn enumerators_same(enumerators: &[EnumeratorTree], others: &[EnumeratorTree]) -> bool
    ensures { IsTrue result ↔ AreSame SameEnumerator enumerators.now others.now }
{
    let mut rest = others;
    for x in enumerators {
        match rest.split_first() {
            Some((y, more)) => {
                if !same_enumerator(x, y) {
                    return false;
                }
                rest = more;
            }
            None => return false,
        }
    }
    rest.is_empty()
}

fn name_same_if_any(tree: &Option<Identifier>, other: &Option<Identifier>) -> bool
    ensures { IsTrue result ↔ AreSameIfAny SameIdentifier tree.now other.now }
{
    match tree {
        Some(x) => match other {
            Some(y) => same_identifier(x, y),
            None => false,
        },
        None => match other {
            Some(_) => false,
            None => true,
        },
    }
}

fn type_same_if_any(tree: &Option<Boxed<TypeTree>>, other: &Option<Boxed<TypeTree>>) -> bool
    ensures { IsTrue result ↔ AreSameIfAny SameType tree.now other.now }
{
    match tree {
        Some(x) => match other {
            Some(y) => same_type(x.get(), y.get()),
            None => false,
        },
        None => match other {
            Some(_) => false,
            None => true,
        },
    }
}

fn keys_same(key: Option<ClassKey>, other: Option<ClassKey>) -> bool
    ensures { IsTrue result ↔ (key ≡ other) }
{
    key == other
}

pub(crate) fn specifiers_same(specifiers: Specifiers, other: Specifiers) -> bool
    ensures { IsTrue result ↔ (specifiers ≡ other) }
{
    specifiers == other
}
