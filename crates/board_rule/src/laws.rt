//! What the rule means. The functions do nothing, and a call of one gives its caller the law.

ghost use Rattle.std.specs.Prelude.{◌≡◌, ◌<◌, ℕ, List};
ghost use mathlib.Core.Option.{some};
ghost use lib.ListN.{get_elem?};
ghost use Rattle.atomic_table.specs.Table.{State};
ghost use Rattle.settle_core.specs.declared.piece_state.PieceState.{PieceState};
ghost use Rattle.board_rule.specs.Rule.{OneState};
ghost use Rattle.board_rule.specs.Shows.{Shows, ShowsSound, ViewsTell, SumsUp, SharesAddUp};
ghost use Rattle.board_rule.specs.Kinds.{Kind, CanMake, after_step, machine_steps, GoesBy};
ghost use Rattle.board_rule.specs.declared.home.Home.{Home};
ghost use Rattle.board_rule.specs.declared.view.Key.{Key};
ghost use Rattle.board_rule.specs.declared.view.View.{View};

use settle_core::Meaning;

/// Wherever the rule holds, words, homes and views show a state of the machine of parked tasks. It is sound, and steps of the
/// machine lead to it, whatever says what the pieces do next. They show no other state. The views tell together which pieces are
/// settled or not fresh, and whether the stop word is set: so where the views are those of a new board, all words are 0. The steps
/// that the views spent are those for which the pieces stand. Their shares are the seats of the board, and a view without a share
/// has nothing in it.
pub fn every_board_is_one_sound_state<M: Meaning>(meaning: &M)
    ensures sound { (key : Key M) (s : State (Home M.Task M.Outcome) (View M M.Task)) →
        key.meaning ≡ meaning.now →
        OneState (λ x. M.meant x) key s → ShowsSound (M.meant meaning.now) s }
    ensures one { (key : Key M) (s : State (Home M.Task M.Outcome) (View M M.Task))
        (state other : List (PieceState M.Outcome)) →
        key.meaning ≡ meaning.now → OneState (λ x. M.meant x) key s →
        Shows (M.meant meaning.now) s state → Shows (M.meant meaning.now) s other → state ≡ other }
    ensures told { (key : Key M) (s : State (Home M.Task M.Outcome) (View M M.Task)) →
        key.meaning ≡ meaning.now →
        OneState (λ x. M.meant x) key s → ViewsTell (M.meant meaning.now) s }
    ensures spent { (key : Key M) (s : State (Home M.Task M.Outcome) (View M M.Task)) →
        key.meaning ≡ meaning.now →
        OneState (λ x. M.meant x) key s → SumsUp (M.meant meaning.now) s }
    ensures shares { (key : Key M) (s : State (Home M.Task M.Outcome) (View M M.Task)) →
        OneState (λ x. M.meant x) key s → SharesAddUp key.seats s }
{}

/// Each step on the board makes the steps of the machine that its kind names, and no others. Wherever the rule holds and a seat may
/// make the step, the rule holds of the table after it, and the machine goes from the state that the table showed to the one that it
/// shows by these: the claim of a fresh piece by a Claim, that of a parked one by a Resume, a settle by the Advances that were left
/// and a Settle, a park by the Advances that were made and a Park. A step of any other kind, as a look, a loan, a stop, a split or a
/// join, leaves the machine where it is.
pub fn each_step_is_the_machines<M: Meaning>(meaning: &M)
    ensures rule { (key : Key M) (s : State (Home M.Task M.Outcome) (View M M.Task)) (id : ℕ)
        (v : View M M.Task) (kind : Kind M M.Task) →
        key.meaning ≡ meaning.now → OneState (λ x. M.meant x) key s →
        get_elem? s.views id ≡ some v → 0 < v.share →
        CanMake (M.meant meaning.now) s id v kind →
        OneState (λ x. M.meant x) key (after_step (M.meant meaning.now) s id v kind) }
    ensures steps { (key : Key M) (s : State (Home M.Task M.Outcome) (View M M.Task)) (id : ℕ)
        (v : View M M.Task) (kind : Kind M M.Task) →
        key.meaning ≡ meaning.now → OneState (λ x. M.meant x) key s →
        get_elem? s.views id ≡ some v → 0 < v.share →
        CanMake (M.meant meaning.now) s id v kind →
        GoesBy (M.meant meaning.now) (machine_steps (M.meant meaning.now) s id v kind) s
        (after_step (M.meant meaning.now) s id v kind) }
{}
