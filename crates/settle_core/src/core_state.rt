//! The state of all pieces.

ghost use Rattle.std.specs.Prelude.{◌≡◌, ◌<◌, length, slice_get, slice_set, Some, IfOk, OnSome};
ghost use Rattle.std.specs.Option.{option_copied};
ghost use Rattle.settle_core.specs.State.{all_fresh, settled_at, Fresh};

use crate::meaning::Meaning;
use crate::piece_state::PieceState;
use cxx_base::{Memory, PieceNo};
use std::alloc::Global;
use std::marker::Model;
use std::mem;

/// The state of the machine. Contracts see the list of the states of its pieces.
#[derive(Drop)]
pub struct CoreState<M: Meaning> {
    pieces: Vec<PieceState<M::Outcome>>,
}

impl<M: Meaning> Model for CoreState<M> {
    ghost use Rattle.std.specs.Prelude.{List};
    ghost use Rattle.settle_core.specs.State.{PieceState};

    ghost Value = { List (PieceState M.Outcome) };

    ghost view = { λ s. s.pieces.items };
}

impl<M: Meaning> CoreState<M> {
    /// The state in which every piece is fresh.
    pub fn fresh(alloc: Global, meaning: &M) -> Result<CoreState<M>, Memory>
        ensures fresh { IfOk result (λ state. state ≡ all_fresh (M.meant meaning.now).pieces) }
        ensures whole { IfOk result (λ state. length state ≡ (M.meant meaning.now).pieces) }
    {
        let mut pieces = Vec::new(alloc);
        for _ in 0..meaning.pieces() {
            pieces.push(PieceState::Fresh)?;
        }
        Ok(CoreState { pieces })
    }

    /// The state of a piece. None where there is no such piece.
    pub fn at(&self, k: PieceNo) -> Option<&PieceState<M::Outcome>>
        ensures { option_copied result ≡ slice_get self.now k.0 }
    {
        self.pieces.get(k.0 as usize)
    }

    /// The outcome of a piece, where it is settled.
    pub fn outcome(&self, k: PieceNo) -> Option<&M::Outcome>
        ensures { option_copied result ≡ settled_at self.now k.0 }
    {
        match self.at(k) {
            Some(PieceState::Settled(outcome)) => Some(outcome),
            _ => None,
        }
    }

    // Takes the state of a piece out, and leaves a fresh one.
    pub(crate) fn take(&mut self, k: PieceNo) -> Option<PieceState<M::Outcome>>
        ensures taken { result ≡ slice_get self.old k.0 }
        ensures left { self.new ≡ slice_set self.old k.0 Fresh }
    {
        let piece = self.pieces.get_mut(k.0 as usize)?;
        Some(mem::replace(piece, PieceState::Fresh))
    }

    // Puts the state of a piece in place of what is there.
    pub(crate) fn put(&mut self, k: PieceNo, piece: PieceState<M::Outcome>)
        requires { k.0 < length self.old }
        ensures { self.new ≡ slice_set self.old k.0 piece }
    {
        self.pieces[k.0 as usize] = piece;
    }
}
