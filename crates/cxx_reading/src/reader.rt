//! What a parser of one level knows.

use cxx_tokens::Tokens;
use std::alloc::Global;

/// Reads the rules of one level. What stands in brackets is one level further in, and `deeper` reads it.
#[derive(Clone, Copy)]
pub struct Reader<'a, D> {
    pub alloc: Global,
    pub tokens: &'a Tokens,
    /// The level of what stands in brackets.
    pub level: u32,
    pub deeper: D,
}
