//! The value of void.

ghost use Rattle.std.specs.Prelude.{◌≡◌};
ghost use Rattle.typed_code.specs.Void.{nothing};

use core_value::{Scalar, Value};

/// What a call whose type is void comes to, and a block: nothing reads it, so it is the same one everywhere.
pub fn no_value() -> Value
    ensures { result ≡ nothing }
{
    Value::Scalar(Scalar::Number(0))
}
