//! Whether the trees of two texts are the same. Both stand in one text, so that their names have the same numbers and their
//! tokens others.

ghost use Rattle.std.specs.Prelude.{◌≤◌};

use crate::asked::rule_of;
use crate::reading::{Start, read};
use cxx_reading::{ExprFault, expect};
use cxx_tokens::mark::SEMICOLON;
use expr_show::{Part, Shown};

/// Whether a part of the two texts is the same. `first` begins the first of them, and a `;` stands between them.
pub fn is_same(part: Part, first: Start<'_>) -> Result<bool, ExprFault>
    requires { first.level ≤ 257 }
{
    let (tree, end) = read(rule_of(part), first)?;
    against(part, first, &tree, end)
}

// Reads the second text, behind the `;`, against the tree of the first.
fn against(part: Part, first: Start<'_>, tree: &Shown, end: u32) -> Result<bool, ExprFault>
    requires { first.level ≤ 257 }
{
    let at = expect(first.tokens, SEMICOLON, end)?;
    let second = Start {
        alloc: first.alloc,
        tokens: first.tokens,
        at,
        level: first.level,
    };
    let (other, _) = read(rule_of(part), second)?;
    Ok(tree.is_same(part, &other))
}
