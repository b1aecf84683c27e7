//! What a hand needs of a meaning.

ghost use Rattle.std.specs.Prelude.{◌≡◌, ◌<◌, ◌≤◌, length};
ghost use Rattle.settle_core.specs.Meant.{reads};
ghost use Rattle.board_rule.specs.Standing.{steps_at, taken_at};
ghost use Rattle.board_rule.specs.Plays.{CanPark};
ghost use Rattle.settle_samples.specs.ThreePieces.{three_pieces};
ghost use Rattle.settle_samples.specs.Chained.{chain_of};
ghost use Rattle.settle_samples.specs.Readless.{pieces_without_reads};
ghost use Rattle.board_callers.specs.Holding.{IsClaimedFor};

use cxx_base::PieceNo;
use settle_core::{Meaning, Played};
use settle_samples::{Behind, Chain, Readless, Three};

/// A meaning whose pieces can be parked.
pub trait Tasked: Played {
    /// The task of a piece that has taken so many of its reads, and goes on from the one with which the piece was claimed.
    fn parked(&self, k: PieceNo, taken: usize, claimed: Option<Self::Task>) -> Self::Task
        requires piece { k.0 < (Self.meant self.now).pieces }
        requires left { taken < length (reads (Self.meant self.now) k.0) }
        requires claimed { IsClaimedFor (Self.meant self.now) k.0 claimed }
        requires further { taken_at (Self.meant self.now) claimed ≤ taken }
        ensures task { CanPark (Self.meant self.now) k.0 result }
        ensures taken { (Self.meant self.now).taken result ≡ taken }
        ensures steps { steps_at (Self.meant self.now) claimed
            ≤ (Self.meant self.now).task_steps result };
}

impl Tasked for Three {
    fn parked(&self, k: PieceNo, taken: usize, claimed: Option<u64>) -> u64
        requires piece { k.0 < (three_pieces self.now.first).pieces }
        requires left { taken < length (reads (three_pieces self.now.first) k.0) }
        requires claimed { IsClaimedFor (three_pieces self.now.first) k.0 claimed }
        requires further { taken_at (three_pieces self.now.first) claimed ≤ taken }
        ensures task { CanPark (three_pieces self.now.first) k.0 result }
        ensures taken { (three_pieces self.now.first).taken result ≡ taken }
        ensures steps { steps_at (three_pieces self.now.first) claimed
            ≤ (three_pieces self.now.first).task_steps result }
    {
        let least = 4 * taken as u64;
        match claimed {
            Some(steps) if least < steps => steps,
            _ => least,
        }
    }
}

impl Tasked for Chain {
    fn parked(&self, k: PieceNo, taken: usize, claimed: Option<u64>) -> u64
        requires piece { k.0 < (chain_of self.now.pieces).pieces }
        requires left { taken < length (reads (chain_of self.now.pieces) k.0) }
        requires claimed { IsClaimedFor (chain_of self.now.pieces) k.0 claimed }
        requires further { taken_at (chain_of self.now.pieces) claimed ≤ taken }
        ensures task { CanPark (chain_of self.now.pieces) k.0 result }
        ensures taken { (chain_of self.now.pieces).taken result ≡ taken }
        ensures steps { steps_at (chain_of self.now.pieces) claimed
            ≤ (chain_of self.now.pieces).task_steps result }
    {
        taken as u64
    }
}

impl Tasked for Readless {
    fn parked(&self, k: PieceNo, taken: usize, claimed: Option<u64>) -> u64
        requires piece { k.0 < (pieces_without_reads self.now.pieces).pieces }
        requires left { taken < length (reads (pieces_without_reads self.now.pieces) k.0) }
        requires claimed { IsClaimedFor (pieces_without_reads self.now.pieces) k.0 claimed }
        requires further { taken_at (pieces_without_reads self.now.pieces) claimed ≤ taken }
        ensures task { CanPark (pieces_without_reads self.now.pieces) k.0 result }
        ensures taken { (pieces_without_reads self.now.pieces).taken result ≡ taken }
        ensures steps { steps_at (pieces_without_reads self.now.pieces) claimed
            ≤ (pieces_without_reads self.now.pieces).task_steps result }
    {
        taken as u64
    }
}

impl<'a, M: Tasked> Tasked for Behind<'a, M> {
    fn parked(&self, k: PieceNo, taken: usize, claimed: Option<M::Task>) -> M::Task
        requires piece { k.0 < (M.meant self.now.meaning.now).pieces }
        requires left { taken < length (reads (M.meant self.now.meaning.now) k.0) }
        requires claimed { IsClaimedFor (M.meant self.now.meaning.now) k.0 claimed }
        requires further { taken_at (M.meant self.now.meaning.now) claimed ≤ taken }
        ensures task { CanPark (M.meant self.now.meaning.now) k.0 result }
        ensures taken { (M.meant self.now.meaning.now).taken result ≡ taken }
        ensures steps { steps_at (M.meant self.now.meaning.now) claimed
            ≤ (M.meant self.now.meaning.now).task_steps result }
    {
        self.meaning.parked(k, taken, claimed)
    }
}
