//! What can cross to another thread.

ghost use Rattle.std.specs.Thread.{IsSend, IsSync};
ghost use Rattle.cxx_base.specs.contracts.names.Names as names;
ghost use Rattle.cxx_base.specs.contracts.outcome_list.OutcomeList as outcomes;

use crate::names::Names;
use crate::outcome_list::OutcomeList;

/// A type whose values can be sent to another thread, and shared with it.
pub fn is_sent_and_shared<T: Send + Sync>()
    ensures sent { IsSend T.row }
    ensures shared { IsSync T.row }
{}

/// Names can be sent to another thread, and shared with it.
pub fn names_are_sent_and_shared()
    ensures sent { IsSend names.the_row }
    ensures shared { IsSync names.the_row }
{
    is_sent_and_shared::<Names>();
}

/// Outcomes can be sent and shared where each of them can.
pub fn outcomes_are_sent_and_shared<O: Send + Sync>()
    ensures sent { IsSend (outcomes.the_row O.row) }
    ensures shared { IsSync (outcomes.the_row O.row) }
{
    is_sent_and_shared::<OutcomeList<O>>();
}
