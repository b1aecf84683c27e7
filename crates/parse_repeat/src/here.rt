//! Where a parser reads.

ghost use Rattle.std.specs.Prelude.{◌≤◌};

use cxx_tokens::Tokens;
use std::alloc::Global;

/// What a parser reads: the tokens of a text, at a level of nesting that is at most the last one.
#[derive(Clone, Copy)]
pub struct Here<'a> {
    pub alloc: Global,
    pub tokens: &'a Tokens,
    pub level: u32,
    pub ghost low: { level ≤ 256 },
}
