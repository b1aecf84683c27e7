//! A choice of two forms that were both read.

ghost use Rattle.std.specs.Prelude.{◌≡◌, ◌||◌};
ghost use Rattle.cxx_reading.specs.Reading.{Chooses, is_memory};

use crate::fault::ExprFault;

/// The one that ends last, and for a tie the first. One that is too deep, or found no memory, stands for both.
pub fn longer<A: Drop>(
    first: Result<(A, u32), ExprFault>,
    second: Result<(A, u32), ExprFault>,
) -> Result<(A, u32), ExprFault>
    ensures chosen { Chooses first second result }
    ensures memory { is_memory result ≡ (is_memory first || is_memory second) }
{
    match first {
        Err(ExprFault::S1) => second,
        Err(ExprFault::Memory) => Err(ExprFault::Memory),
        Err(ExprFault::S2) => match second {
            Err(ExprFault::Memory) => Err(ExprFault::Memory),
            _ => Err(ExprFault::S2),
        },
        Ok((x, i)) => match second {
            Err(ExprFault::S1) => Ok((x, i)),
            Err(ExprFault::S2) => Err(ExprFault::S2),
            Err(ExprFault::Memory) => Err(ExprFault::Memory),
            Ok((y, j)) => { if i < j { Ok((y, j)) } else { Ok((x, i)) } }
        },
    }
}
