//! The things that a slot can hold.

/// What the slot of a piece has at home.
#[derive(Drop)]
pub enum Home<T, O> {
    /// Nothing: the piece is fresh, or a worker has its task or its outcome.
    Empty,
    /// The task of a parked piece.
    Task(T),
    /// The outcome of a settled piece.
    Outcome(O),
}
