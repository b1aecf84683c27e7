//! What can cross to another thread.

ghost use Rattle.std.specs.Thread.{IsSend, IsSync};
ghost use Rattle.cxx_tree.specs.contracts.decl.Unit as units;

use cxx_base::is_sent_and_shared;
use cxx_tree::Unit;

/// A unit can be sent to another thread, and shared with it.
pub fn units_are_sent_and_shared()
    ensures sent { IsSend units.the_row }
    ensures shared { IsSync units.the_row }
{
    is_sent_and_shared::<Unit>();
}
