//! Declarations, and whole units.

ghost use Rattle.std.specs.Prelude.{IsTrue, ◌↔◌};
ghost use Rattle.tree_same.specs.Lists.{AreSame};
ghost use Rattle.unit_same.specs.Parts.{SameNamespace, SameNamespaceAlias};
ghost use Rattle.unit_same.specs.Statements.{SameDecl, SameItem};
ghost use Rattle.unit_same.specs.Units.{SameUnit};

use crate::class::{same_class, same_function};
use crate::parts::{same_alias, same_assert};
use crate::stmt::same_block;
use crate::variable::{same_enum, same_variable};
use cxx_tree::{Decl, Item, NamespaceAliasTree, NamespaceNamed, Unit};
use tree_same::{same_identifier, same_identifiers, same_name, same_splice};

/// Whether two units are the same, spans aside.
pub fn same_unit(tree: &Unit, other: &Unit) -> bool
    ensures { IsTrue result ↔ SameUnit tree.now other.now }
{
    items_same(tree.items.as_slice(), other.items.as_slice())
}

/// Whether two items are the same, spans aside.
pub fn same_item(tree: &Item, other: &Item) -> bool
    ensures { IsTrue result ↔ SameItem tree.now other.now }
{
    match tree {
        Item::NamespaceHead(_, names) => match other {
            Item::NamespaceHead(_, other_names) => same_identifiers(
                names.as_slice(),
                other_names.as_slice(),
            ),
            _ => false,
        },
        Item::Close(_) => match other {
            Item::Close(_) => true,
            _ => false,
        },
        Item::Decl(decl) => match other {
            Item::Decl(other_decl) => same_decl(decl.get(), other_decl.get()),
            _ => false,
        },
        Item::Empty(_) => match other {
            Item::Empty(_) => true,
            _ => false,
        },
    }
}

/// Whether two declarations are the same, spans aside.
pub fn same_decl(tree: &Decl, other: &Decl) -> bool
    ensures { IsTrue result ↔ SameDecl tree.now other.now }
{
    match tree {
        Decl::NamespaceAlias(alias) => match other {
            Decl::NamespaceAlias(other_alias) => same_namespace_alias(alias, other_alias),
            _ => false,
        },
        Decl::Alias(alias) => match other {
            Decl::Alias(other_alias) => same_alias(alias, other_alias),
            _ => false,
        },
        Decl::Class(class) => match other {
            Decl::Class(other_class) => same_class(class, other_class),
            _ => false,
        },
        Decl::Enum(enumeration) => match other {
            Decl::Enum(other_enumeration) => same_enum(enumeration, other_enumeration),
            _ => false,
        },
        Decl::Function(function) => match other {
            Decl::Function(other_function) => same_function(function, other_function),
            _ => false,
        },
        Decl::Variable(variable) => match other {
            Decl::Variable(other_variable) => same_variable(variable, other_variable),
            _ => false,
        },
        Decl::Assert(assert) => match other {
            Decl::Assert(other_assert) => same_assert(assert, other_assert),
            _ => false,
        },
        Decl::Block(block) => match other {
            Decl::Block(other_block) => same_block(block, other_block),
            _ => false,
        },
    }
}

/// Whether two aliases of namespaces are the same, spans aside.
pub fn same_namespace_alias(tree: &NamespaceAliasTree, other: &NamespaceAliasTree) -> bool
    ensures { IsTrue result ↔ SameNamespaceAlias tree.now other.now }
{
    same_identifier(&tree.name, &other.name) && same_namespace(&tree.of, &other.of)
}

/// Whether two namespaces that are named are the same, spans aside.
pub fn same_namespace(tree: &NamespaceNamed, other: &NamespaceNamed) -> bool
    ensures { IsTrue result ↔ SameNamespace tree.now other.now }
{
    match tree {
        NamespaceNamed::Name(name) => match other {
            NamespaceNamed::Name(other_name) => same_name(name, other_name),
            _ => false,
        },
        NamespaceNamed::Splice(splice) => match other {
            NamespaceNamed::Splice(other_splice) => same_splice(splice, other_splice),
            _ => false,
        },
    }
}

fn items_same(items: &[Item], others: &[Item]) -> bool
    ensures { IsTrue result ↔ AreSame SameItem items.now others.now }
{
    let mut rest = others;
    for x in items {
        match rest.split_first() {
            Some((y, more)) => {
                if !same_item(x, y) {
                    return false;
                }
                rest = more;
            }
            None => return false,
        }
    }
    rest.is_empty()
}
