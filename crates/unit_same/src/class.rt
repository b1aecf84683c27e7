//! Classes, with their members.

ghost use Rattle.std.specs.Prelude.{IsTrue, ◌↔◌};
ghost use Rattle.tree_same.specs.Lists.{AreSame, AreSameIfAny};
ghost use Rattle.unit_same.specs.Statements.{SameBody, SameClass, SameConstructor, SameDestructor, SameFunction, SameMember};

use crate::class_parts::{bases_same, member_inits_same};
use crate::parts::{same_alias, same_assert};
use crate::stmt::{same_block, same_body};
use crate::variable::{parameters_same, same_enum, same_variable, specifiers_same};
use containers::Boxed;
use cxx_tree::{BodyTree, ClassTree, ConstructorTree, DestructorTree, FunctionTree, Member};
use tree_same::{same_identifier, same_type};

/// Whether two classes are the same, spans aside.
#[cycle(same_statement)]
pub fn same_class(tree: &ClassTree, other: &ClassTree) -> bool
    ensures { IsTrue result ↔ SameClass tree.now other.now }
{
    match tree {
        ClassTree::Declared(_, key, name) => match other {
            ClassTree::Declared(_, other_key, other_name) => *key == *other_key
                && same_identifier(name, other_name),
            _ => false,
        },
        ClassTree::Defined(_, key, name, bases, members) => match other {
            ClassTree::Defined(_, other_key, other_name, other_bases, other_members) => *key
                == *other_key
                && (same_identifier(name, other_name)
                    && (bases_same(bases.as_slice(), other_bases.as_slice())
                        && members_same(members.as_slice(), other_members.as_slice()))),
            _ => false,
        },
    }
}

/// Whether two members are the same, spans aside.
#[cycle(same_statement)]
pub fn same_member(tree: &Member, other: &Member) -> bool
    ensures { IsTrue result ↔ SameMember tree.now other.now }
{
    match tree {
        Member::Access(_, access) => match other {
            Member::Access(_, other_access) => *access == *other_access,
            _ => false,
        },
        Member::Empty(_) => match other {
            Member::Empty(_) => true,
            _ => false,
        },
        Member::Alias(alias) => match other {
            Member::Alias(other_alias) => same_alias(alias, other_alias),
            _ => false,
        },
        Member::Class(class) => match other {
            Member::Class(other_class) => same_class(class, other_class),
            _ => false,
        },
        Member::Enum(enumeration) => match other {
            Member::Enum(other_enumeration) => same_enum(enumeration, other_enumeration),
            _ => false,
        },
        Member::Assert(assert) => match other {
            Member::Assert(other_assert) => same_assert(assert, other_assert),
            _ => false,
        },
        Member::Block(block) => match other {
            Member::Block(other_block) => same_block(block, other_block),
            _ => false,
        },
        Member::Data(variable) => match other {
            Member::Data(other_variable) => same_variable(variable, other_variable),
            _ => false,
        },
        Member::Function(function) => match other {
            Member::Function(other_function) => same_function(function, other_function),
            _ => false,
        },
        Member::Constructor(constructor) => match other {
            Member::Constructor(other_constructor) => same_constructor(
                constructor,
                other_constructor,
            ),
            _ => false,
        },
        Member::Destructor(destructor) => match other {
            Member::Destructor(other_destructor) => same_destructor(destructor, other_destructor),
            _ => false,
        },
    }
}

/// Whether two functions are the same, spans aside.
#[cycle(same_statement)]
pub fn same_function(tree: &FunctionTree, other: &FunctionTree) -> bool
    ensures { IsTrue result ↔ SameFunction tree.now other.now }
{
    specifiers_same(tree.specifiers, other.specifiers)
        && (same_type(tree.returned.get(), other.returned.get())
            && (same_identifier(&tree.name, &other.name)
                && (parameters_same(tree.parameters.as_slice(), other.parameters.as_slice())
                    && (tree.is_const == other.is_const
                        && (tree.is_noexcept == other.is_noexcept
                            && body_same_if_any(&tree.body, &other.body))))))
}

/// Whether two constructors are the same, spans aside.
#[cycle(same_statement)]
pub fn same_constructor(tree: &ConstructorTree, other: &ConstructorTree) -> bool
    ensures { IsTrue result ↔ SameConstructor tree.now other.now }
{
    tree.is_explicit == other.is_explicit
        && (specifiers_same(tree.specifiers, other.specifiers)
            && (same_identifier(&tree.name, &other.name)
                && (parameters_same(tree.parameters.as_slice(), other.parameters.as_slice())
                    && (tree.is_noexcept == other.is_noexcept
                        && (member_inits_same(tree.inits.as_slice(), other.inits.as_slice())
                            && same_body(tree.body.get(), other.body.get()))))))
}

/// Whether two destructors are the same, spans aside.
#[cycle(same_statement)]
pub fn same_destructor(tree: &DestructorTree, other: &DestructorTree) -> bool
    ensures { IsTrue result ↔ SameDestructor tree.now other.now }
{
    specifiers_same(tree.specifiers, other.specifiers)
        && (same_identifier(&tree.name, &other.name)
            && (tree.is_noexcept == other.is_noexcept && same_body(&tree.body, &other.body)))
}

#[cycle(same_statement)]
fn members_same(members: &[Member], others: &[Member]) -> bool
    ensures { IsTrue result ↔ AreSame SameMember members.now others.now }
{
    let mut rest = others;
    for x in members {
        match rest.split_first() {
            Some((y, more)) => {
                if !same_member(x, y) {
                    return false;
                }
                rest = more;
            }
            None => return false,
        }
    }
    rest.is_empty()
}

#[cycle(same_statement)]
fn body_same_if_any(tree: &Option<Boxed<BodyTree>>, other: &Option<Boxed<BodyTree>>) -> bool
    ensures { IsTrue result ↔ AreSameIfAny SameBody tree.now other.now }
{
    match tree {
        Some(x) => match other {
            Some(y) => same_body(x.get(), y.get()),
            None => false,
        },
        None => match other {
            Some(_) => false,
            None => true,
        },
    }
}
