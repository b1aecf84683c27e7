//! What a caller needs to know of the tables.

use crate::entities::Entities;
use crate::piece::Pieces;

fn crosses<T: Send + Sync>() {}

/// The tables of a program can be shared with other threads.
pub fn tables_are_sent_and_shared() {
    crosses::<Entities>();
    crosses::<Pieces>();
}
