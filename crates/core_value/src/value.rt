//! Values.

ghost use Rattle.std.specs.Prelude.{◌≡◌, IfOk, IsTrue, ◌↔◌};
ghost use Rattle.core_shape.specs.declared.shape.Shape.{out-Shape};
ghost use Rattle.core_value.specs.Equal.{Equal};

use crate::scalar::Scalar;
use containers::Items;
use core_shape::Shape;
use cxx_base::Memory;
use sharing::Shared;

/// The value of an object of a class, or of an array: its scalars, in the order in which they lie, and the shape that says what each of them
/// is part of. So it is flat, however deep the classes lie in each other.
pub struct ObjectValue {
    pub shape: Shape,
    pub scalars: Items<Scalar>,
}

impl Drop for ObjectValue {
    fn drop(self) {
        let ObjectValue {
            shape: _,
            scalars: _,
        } = self;
    }
}

/// A value: of a scalar, or of an object of a class or an array, which is shared.
pub enum Value {
    Scalar(Scalar),
    Object(Shared<ObjectValue>),
}

impl Drop for Value {
    fn drop(self) {
        match self {
            Value::Scalar(_) => {}
            Value::Object(_) => {}
        }
    }
}

impl Value {
    /// The same value. It costs a count at most.
    pub fn copy(&self) -> Result<Value, Memory>
        ensures { IfOk result (λ copy. copy ≡ self.now) }
    {
        match self {
            Value::Scalar(scalar) => Ok(Value::Scalar(scalar.copy()?)),
            Value::Object(object) => Ok(Value::Object(object.copy()?)),
        }
    }

    /// Whether two values are equal: two scalars, or two objects of one type whose scalars are.
    pub fn same(&self, other: &Value) -> bool
        ensures { IsTrue result ↔ Equal self.now other.now }
    {
        match self {
            Value::Scalar(scalar) => match other {
                Value::Scalar(other) => scalar.same(other),
                Value::Object(_) => false,
            },
            Value::Object(object) => match other {
                Value::Scalar(_) => false,
                Value::Object(other) => objects_same(object.get(), other.get()),
            },
        }
    }
}

fn objects_same(object: &ObjectValue, other: &ObjectValue) -> bool
    ensures { IsTrue result ↔ (((out-Shape object.now.shape).of ≡ (out-Shape other.now.shape).of) × (object.now.scalars ≡ other.now.scalars)) }
{
    object.shape.of.same(&other.shape.of)
        && all_same(object.scalars.as_slice(), other.scalars.as_slice())
}

fn all_same(xs: &[Scalar], ys: &[Scalar]) -> bool
    ensures { IsTrue result ↔ (xs.now ≡ ys.now) }
{
    let mut rest = ys;
    for x in xs {
        match rest.split_first() {
            Some((y, more)) => {
                if !x.same(y) {
                    return false;
                }
                rest = more;
            }
            None => return false,
        }
    }
    rest.is_empty()
}
