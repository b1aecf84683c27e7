//! The fold, computed.

ghost use Rattle.std.specs.Prelude.{◌≡◌, ◌<◌, IfOk};
ghost use Rattle.settle_core.specs.Meant.{outcomes_below, outcome};

use crate::next_of::NextOf;
use crate::played::Played;
use crate::taken_list::TakenList;
use cxx_base::{Memory, PieceNo};
use std::alloc::Global;

/// The outcomes of all pieces, one after the other: each piece takes what it reads from those before it. What the machine
/// settles, in whatever order, is compared with this.
pub fn in_order<M: Played>(alloc: Global, meaning: &M) -> Result<Vec<M::Outcome>, Memory>
    ensures { IfOk result (λ outcomes.
        outcomes.items ≡ outcomes_below (M.meant meaning.now) (M.meant meaning.now).pieces) }
{
    let mut outcomes = Vec::new(alloc);
    for k in 0..meaning.pieces() {
        let outcome = play(alloc, meaning, PieceNo(k), outcomes.as_slice())?;
        outcomes.push(outcome)?;
    }
    Ok(outcomes)
}

// The outcome of a piece, from those before it.
fn play<M: Played>(
    alloc: Global,
    meaning: &M,
    k: PieceNo,
    before: &[M::Outcome],
) -> Result<M::Outcome, Memory>
    requires inside { k.0 < (M.meant meaning.now).pieces }
    requires before { before.now ≡ outcomes_below (M.meant meaning.now) k.0 }
    ensures { IfOk result (λ o. o ≡ outcome (M.meant meaning.now) k.0) }
{
    let mut taken = TakenList::new(alloc);
    loop {
        match meaning.next(alloc, k, &taken)? {
            NextOf::Read(j) => {
                let outcome = meaning.copy(alloc, &before[j.0 as usize])?;
                taken.push(j, outcome)?;
            }
            NextOf::Ends(outcome) => return Ok(outcome),
        }
    }
}
