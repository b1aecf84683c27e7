//! Wide values.

use crate::classes::{class_of, member, number, shape_of};
use containers::Items;
use core_shape::Shape;
use core_value::{ObjectValue, Scalar, Value};
use cxx_base::{EntityNo, Memory};
use cxx_type::{BasicType, CxxType, Layer, Layers};
use sharing::Shared;
use std::alloc::Global;

// The shape of a class with so many numbers.
fn wide_shape(alloc: Global, count: u32) -> Result<Shape, Memory> {
    let mut members = Items::new(alloc);
    for n in 0..count {
        members.push(member(n, number()))?;
    }
    let scalars = u64::from(count);
    let class = class_of(alloc, 0, scalars, members)?;
    Ok(shape_of(0, class, scalars))
}

/// A value of a shape, of so many numbers.
pub fn value_of(alloc: Global, shape: &Shape, count: u32) -> Result<Value, Memory> {
    let mut scalars = Items::new(alloc);
    for n in 0..count {
        scalars.push(Scalar::Number(i128::from(n)))?;
    }
    let shape = shape.copy()?;
    let object = Shared::new(alloc, ObjectValue { shape, scalars })?;
    Ok(Value::Object(object))
}

/// The value of a class with so many members, twice: a copy, and a comparison.
pub fn wide(alloc: Global, count: u32) -> Result<bool, Memory> {
    let shape = wide_shape(alloc, count)?;
    let one = value_of(alloc, &shape, count)?;
    let other = value_of(alloc, &shape, count)?;
    let copy = one.copy()?;
    Ok(copy.same(&other))
}

/// The value of an array of so many objects without a scalar.
pub fn empty(alloc: Global, count: u32) -> Result<bool, Memory> {
    let class = class_of(alloc, 0, 0, Items::new(alloc))?;
    let layers = Layers::none().over(alloc, Layer::Array(u64::from(count)))?;
    let of = CxxType {
        basic: BasicType::Class(EntityNo(0)),
        is_const: false,
        layers,
    };
    let shape = Shape {
        of,
        class: Some(class),
        scalars: 0,
        leaves: u64::from(count),
    };
    let object = Shared::new(
        alloc,
        ObjectValue {
            shape,
            scalars: Items::new(alloc),
        },
    )?;
    let value = Value::Object(object);
    let copy = value.copy()?;
    Ok(copy.same(&value))
}
