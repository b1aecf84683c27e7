//! Parts that may be missing.

ghost use Rattle.std.specs.Prelude.{◌≡◌};
ghost use Rattle.cxx_reading.specs.Answers.{LeavesNone, LeavesEmpty};
ghost use Rattle.cxx_reading.specs.Reading.{is_memory};

use crate::fault::ExprFault;
use containers::Items;
use std::alloc::Global;

/// A part that is taken where it reads, from the answer to it at token number `at`.
pub fn optional<A: Drop>(
    read: Result<(A, u32), ExprFault>,
    at: u32,
) -> Result<(Option<A>, u32), ExprFault>
    ensures left { LeavesNone read at result }
    ensures memory { is_memory result ≡ is_memory read }
{
    match read {
        Ok((x, end)) => Ok((Some(x), end)),
        Err(ExprFault::S1) => Ok((None, at)),
        Err(ExprFault::S2) => Err(ExprFault::S2),
        Err(ExprFault::Memory) => Err(ExprFault::Memory),
    }
}

/// A list that is taken where it reads, and is else empty, from the answer to it at token number `at`.
pub fn if_any<A: Drop>(
    alloc: Global,
    read: Result<(Items<A>, u32), ExprFault>,
    at: u32,
) -> Result<(Items<A>, u32), ExprFault>
    ensures left { LeavesEmpty read at result }
    ensures memory { is_memory result ≡ is_memory read }
{
    match read {
        Ok((found, end)) => Ok((found, end)),
        Err(ExprFault::S1) => Ok((Items::new(alloc), at)),
        Err(ExprFault::S2) => Err(ExprFault::S2),
        Err(ExprFault::Memory) => Err(ExprFault::Memory),
    }
}
