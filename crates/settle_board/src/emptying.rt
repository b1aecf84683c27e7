//! The outcomes of a table that no seat uses any more.

ghost use Rattle.std.specs.Prelude.{◌≡◌, ◌≢◌, ℕ, ◌^◌, ◌<◌, ◌≤◌, [], length, MatchResult, slice_index_or, false, vec_capacity};
ghost use Rattle.std.specs.Slots.{slots_items, slots_filled, slots_len, IsFull};
ghost use Rattle.std.specs.Slots.Ownership.{Filled};
ghost use mathlib.Core.Option.{some};
ghost use lib.ListN.{get_elem?};
ghost use Rattle.settle_board.specs.Homes.{IsHome, AreHome};

use crate::answers::Unsettled;
use atomic_table::Closed;
use board_rule::Home;
use cxx_base::PieceNo;
use std::alloc::Global;

/// Takes each outcome out of its slot, piece by piece, until a word other than 3 ends it.
pub(crate) fn take_outcomes<T: Drop, O: Drop>(
    mut closed: Closed<Home<T, O>, Global>,
    mut room: Vec<O>,
) -> Result<Vec<O>, Unsettled>
    requires slots { IsFull closed.slots × (slots_len closed.slots < 2 ^ 32) }
    requires words { IsFull closed.words × (slots_len closed.slots ≤ slots_len closed.words) }
    requires room { (room.items ≡ []) × (slots_len closed.slots ≤ vec_capacity room) }
    requires homes { AreHome (slots_items closed.words) (slots_items closed.slots)
        (slots_len closed.slots) }
    ensures { MatchResult result
        (λ outcomes. (length outcomes.items ≡ slots_len closed.slots)
        × ((k : ℕ) → k < slots_len closed.slots →
        (get_elem? (slots_items closed.words) k ≡ some 3)
        × ((o : O) × (get_elem? outcomes.items k ≡ some o)
        × IsHome (slots_items closed.slots) k o)))
        (λ unsettled. (unsettled.piece.0 < slots_len closed.slots) × (unsettled.word ≢ 3)
        × (get_elem? (slots_items closed.words) unsettled.piece.0 ≡ some unsettled.word)
        × ((k : ℕ) → k < unsettled.piece.0 → get_elem? (slots_items closed.words) k ≡ some 3)) }
{
    let mut k = 0;
    while k < closed.slot_count() {
        let word = closed.word(k);
        if word != 3 {
            clear(closed, k);
            return Err(Unsettled {
                piece: PieceNo(k as u32),
                word,
            });
        }
        let home = closed.take(k);
        let Home::Outcome(outcome) = home else {
            unreachable!()
        };
        room.push_reserved(outcome);
        k += 1;
    }
    closed.free();
    Ok(room)
}

// Drops what is in the slots from `from` on; those before are empty.
fn clear<T: Drop, O: Drop>(mut closed: Closed<Home<T, O>, Global>, from: usize)
    requires { (from ≤ slots_len closed.slots)
        × Filled (slots_filled closed.slots) from (slots_len closed.slots)
        × ((k : ℕ) → k < from → slice_index_or (slots_filled closed.slots) k false ≡ false) }
{
    let mut at = from;
    while at < closed.slot_count() {
        drop(closed.take(at));
        at += 1;
    }
    closed.free();
}
