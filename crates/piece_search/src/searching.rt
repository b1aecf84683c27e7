//! A search for a piece that is to be had.

ghost use Rattle.std.specs.Prelude.{◌≡◌, ◌≤◌, ◌<◌};
ghost use Rattle.settle_board.specs.Boards.{IsOf, means, view_of};
ghost use Rattle.piece_search.specs.TurnParts.{nth_from};
ghost use Rattle.piece_search.specs.FoundSays.{FoundSays};

use cxx_base::PieceNo;
use settle_board::{Board, BoardSeat, Claim};
use settle_core::Meaning;

/// What a worker found that looked for work.
#[derive(Drop)]
pub enum Found<M: Meaning> {
    /// A piece that was fresh.
    Fresh(PieceNo),
    /// A piece that was parked, and its task.
    Parked(PieceNo, M::Task),
    /// No piece was to be had.
    Nothing,
}

/// Tries each piece once, from the pick on and from the last one on to the first, and takes the first that it gets. Those before it
/// were tried in this call and turned the seat away; where it finds nothing, each was. The seat holds the piece that it got, and
/// else holds and has spent what it did before.
pub fn search<M: Meaning>(
    board: &Board<M>,
    seat: &mut BoardSeat<M>,
    pieces: u32,
    pick: u32,
) -> Found<M>
    requires of { IsOf M.Meaning board.now seat.old }
    requires all { pieces ≡ (means M.Meaning board.now).pieces }
    requires pick { pick ≤ pieces }
    ensures of { IsOf M.Meaning board.now seat.new }
    ensures found { FoundSays (means M.Meaning board.now) pick pieces (view_of seat.old) result
        (view_of seat.new) }
{
    for i in 0..pieces {
        let k = piece_at(pick, pieces, i);
        match board.claim(seat, k) {
            Claim::Start => return Found::Fresh(k),
            Claim::Resume(task) => return Found::Parked(k, task),
            Claim::NotNow(_) => {}
            Claim::StillParked { .. } => {}
        }
    }
    Found::Nothing
}

// The piece that comes so many pieces after the pick.
fn piece_at(pick: u32, pieces: u32, i: u32) -> PieceNo
    requires pick { pick ≤ pieces }
    requires inside { i < pieces }
    ensures nth { result.0 ≡ nth_from pick pieces i }
    ensures inside { result.0 < pieces }
{
    let left = pieces - pick;
    PieceNo(if i < left { pick + i } else { i - left })
}
