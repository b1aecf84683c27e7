//! What is known of pieces.
#![tactic(auto)]

mod facts;
mod known_pieces;

pub use facts::Facts;
pub use known_pieces::KnownPieces;
