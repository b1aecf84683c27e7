//! Which bounds and initializers stand together ([dcl.array], [dcl.init.aggr]).

ghost use Rattle.std.specs.Prelude.{◌≡◌, Some};
ghost use Rattle.cxx_grammar.specs.Locals as spec;

use containers::{Boxed, Items};
use cxx_tree::{BoundTree, InitTree};

fn have_lengths(bounds: &[BoundTree]) -> bool
    ensures { result ≡ spec.have_lengths bounds.now }
{
    let mut rest = bounds;
    while let Some((first, more)) = rest.split_first() {
        if first.length.is_none() {
            return false;
        }
        rest = more;
    }
    true
}

fn is_braced(init: &InitTree) -> bool
    ensures { result ≡ spec.is_braced_init (Some init.now) }
{
    match init {
        InitTree::EqualBraced(_) => true,
        InitTree::Braced(_) => true,
        InitTree::Equal(_) => false,
    }
}

fn is_braced_init(init: &Option<Boxed<InitTree>>) -> bool
    ensures { result ≡ spec.is_braced_init init.now }
{
    match init {
        Some(init) => is_braced(init.get()),
        None => false,
    }
}

/// Whether a bound without a length stands only first, and before a braced initializer.
pub fn fit_bounds(bounds: &Items<BoundTree>, init: &Option<Boxed<InitTree>>) -> bool
    ensures { result ≡ spec.fit_bounds bounds.now init.now }
{
    match bounds.as_slice().split_first() {
        Some((first, more)) => {
            have_lengths(more) && (first.length.is_some() || is_braced_init(init))
        }
        None => true,
    }
}
