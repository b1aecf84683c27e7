//! How much memory a board takes.

use crate::ends::no_more;
use board_rule::Home;
use row_edge::{RowFault, next_word, parsed, show};
use std::mem::size_of;
use std::str::SplitWhitespace;

/// The bytes of a word.
const WORD: u64 = 8;

/// `sizes` and how many pieces there are: the bytes of a slot, whose task and outcome are of one word each, and those of the words, the
/// slots and the room for outcomes of such a board.
pub fn append_sizes(out: &mut String, words: &mut SplitWhitespace<'_>) -> Result<(), RowFault> {
    let pieces = u64::from(parsed::<u32>(next_word(words)?)?);
    no_more(words)?;
    let slot = size_of::<Home<u64, u64>>() as u64;
    let all = (pieces + 1)
        .wrapping_mul(WORD)
        .wrapping_add(pieces.wrapping_mul(slot))
        .wrapping_add(pieces.wrapping_mul(WORD));
    show(out, &(slot, all))
}
