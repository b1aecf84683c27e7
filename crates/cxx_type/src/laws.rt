//! What a caller needs to know of types.

ghost use Rattle.std.specs.Thread.{IsSend, IsSync};
ghost use Rattle.cxx_type.specs.contracts.whole.CxxType as types;

use crate::whole::CxxType;
use cxx_base::is_sent_and_shared;

/// A type can be sent to another thread, and shared with it.
pub fn types_are_sent_and_shared()
    ensures sent { IsSend types.the_row }
    ensures shared { IsSync types.the_row }
{
    is_sent_and_shared::<CxxType>();
}
