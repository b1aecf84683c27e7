//! Lists that mostly have one part.

ghost use Rattle.std.specs.Prelude.{◌≡◌, ◌++◌, ◌∷◌, [], IfOk, OnOk, OnErr};

use containers::Items;
use std::alloc::{AllocError, Global};

/// Puts a tree at the end of a list. The first takes room for itself alone, as most lists in a tree have no more than one part.
pub fn push<T: Drop>(alloc: Global, found: &mut Items<T>, x: T) -> Result<(), AllocError>
    ensures ok { OnOk result (found.new ≡ found.old ++ x ∷ []) }
    ensures err { OnErr result (found.new ≡ found.old) }
{
    if found.is_empty() {
        *found = Items::from_vec(Vec::with_capacity(alloc, 1)?);
    }
    found.push(x)
}

/// A list of one tree.
pub fn single<T: Drop>(alloc: Global, x: T) -> Result<Items<T>, AllocError>
    ensures { IfOk result (λ found. found ≡ x ∷ []) }
{
    let mut found = Items::new(alloc);
    push(alloc, &mut found, x)?;
    Ok(found)
}
