//! The end of a row.

use row_edge::RowFault;
use std::str::SplitWhitespace;

/// Refuses a row that has a word more.
pub fn no_more(words: &mut SplitWhitespace<'_>) -> Result<(), RowFault> {
    match words.next() {
        Some(_) => Err(RowFault::Unread),
        None => Ok(()),
    }
}
