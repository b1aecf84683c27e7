//! Whether constructors and destructors have the name of their class.

ghost use Rattle.std.specs.Prelude.{◌≡◌};
ghost use Rattle.cxx_grammar.specs.Classes as spec;

use cxx_tree::Member;

fn is_named(name: u32, member: &Member) -> bool
    ensures { result ≡ spec.is_named name member.now }
{
    match member {
        Member::Constructor(c) => c.name.name.0 == name,
        Member::Destructor(d) => d.name.name.0 == name,
        _ => true,
    }
}

/// Whether each member that is a constructor or a destructor has this name.
pub fn are_named(name: u32, members: &[Member]) -> bool
    ensures { result ≡ spec.are_named name members.now }
{
    let mut rest = members;
    while let Some((first, more)) = rest.split_first() {
        if !is_named(name, first) {
            return false;
        }
        rest = more;
    }
    true
}
