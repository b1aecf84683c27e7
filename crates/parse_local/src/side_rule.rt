//! Side rules on a whole form.

ghost use Rattle.std.specs.Prelude.{◌≡◌, Ok, Err, if◌then◌else◌};

use cxx_reading::ExprFault;

/// A form that was read up to `end`, where its side rule holds; else nothing begins.
pub fn allowed<T: Drop>(holds: bool, tree: T, end: u32) -> Result<(T, u32), ExprFault>
    ensures { result ≡ (if holds then Ok (tree, end) else Err ExprFault.S1) }
{
    if holds {
        Ok((tree, end))
    } else {
        Err(ExprFault::S1)
    }
}
