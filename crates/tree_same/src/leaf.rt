//! Names and other leaves.

ghost use Rattle.std.specs.Prelude.{IsTrue, ◌↔◌, ◌≡◌};
ghost use Rattle.tree_same.specs.Lists.{AreSame};
ghost use Rattle.tree_same.specs.Names.{SameIdentifier, SameName};

use cxx_base::Bytes;
use cxx_tree::{Identifier, NameTree};

/// Whether two identifiers have the same name, spans aside.
pub fn same_identifier(tree: &Identifier, other: &Identifier) -> bool
    ensures { IsTrue result ↔ SameIdentifier tree.now other.now }
{
    tree.name == other.name
}

/// Whether two names are the same ([expr.prim.id]), spans aside.
pub fn same_name(tree: &NameTree, other: &NameTree) -> bool
    ensures { IsTrue result ↔ SameName tree.now other.now }
{
    tree.rooted == other.rooted
        && (same_identifier(&tree.first, &other.first)
            && same_identifiers(tree.more.as_slice(), other.more.as_slice()))
}

/// Whether two lists of identifiers are the same, spans aside.
pub fn same_identifiers(identifiers: &[Identifier], others: &[Identifier]) -> bool
    ensures { IsTrue result ↔ AreSame SameIdentifier identifiers.now others.now }
{
    let mut rest = others;
    for x in identifiers {
        match rest.split_first() {
            Some((y, more)) => {
                if !same_identifier(x, y) {
                    return false;
                }
                rest = more;
            }
            None => return false,
        }
    }
    rest.is_empty()
}

pub(crate) fn bytes_same(bytes: &Bytes, others: &Bytes) -> bool
    ensures { IsTrue result ↔ (bytes.now ≡ others.now) }
{
    bytes.as_slice() == others.as_slice()
}

pub(crate) fn marks_same(marks: &[bool], others: &[bool]) -> bool
    ensures { IsTrue result ↔ (marks.now ≡ others.now) }
{
    marks == others
}
