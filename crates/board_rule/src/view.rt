//! What a board is told once, and what a seat knows. Of holds, entries and views no value is ever made: they exist in proofs.

use std::collections::LinkedList;

/// What a board is told when it is made.
#[derive(Drop)]
pub struct Key<M> {
    /// What there is to settle.
    pub meaning: M,
    /// How many seats the board has.
    pub seats: u64,
}

/// A piece that a seat holds, and the task that came with it.
pub struct Hold<T> {
    /// The piece.
    pub piece: u32,
    /// The task that was parked. None where the piece was fresh.
    pub claimed: Option<T>,
}

/// A step of a seat on a word: the piece, the word that the step found (a store: the word that it wrote, where that is not
/// always the same), and of an exchange whether it was won.
pub enum Entry<T> {
    /// A look at a piece.
    Looks(u32, u64),
    /// A load of the stop word, and what it found.
    LooksAtStop(u64),
    /// An exchange that claims a fresh piece.
    ClaimsFresh(u32, u64, bool),
    /// An exchange that claims a parked piece.
    ClaimsParked(u32, u64, bool),
    /// The store that settles a piece.
    Settles(u32),
    /// The store that parks a piece, and its task.
    Parks(u32, u64, T),
    /// An exchange that borrows an outcome.
    Lends(u32, u64, bool),
    /// The store that gives an outcome back.
    GivesBack(u32),
    /// The store that sets the stop word.
    Stops,
}

/// What a seat knows.
pub struct View<M, T> {
    /// The key of its board. A seat that was joined to another has none.
    pub about: Option<Key<M>>,
    /// The pieces that it holds.
    pub held: LinkedList<Hold<T>>,
    /// The piece whose outcome is lent to it.
    pub lent: Option<u32>,
    /// The piece whose slot it has in hand, which it has inside a call alone.
    pub hand: Option<u32>,
    /// The pieces that it found fresh and claimed.
    pub begun: LinkedList<u32>,
    /// The pieces that it saw settled.
    pub seen: LinkedList<u32>,
    /// The steps that it spent.
    pub spent: u64,
    /// Whether it set the stop word.
    pub stopped: bool,
    /// Whether it ever found the stop word set, or set it.
    pub saw_stop: bool,
    /// Its steps on words, in order.
    pub trail: LinkedList<Entry<T>>,
    /// How many seats it stands for.
    pub share: u64,
}
