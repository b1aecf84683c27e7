//! Shapes.

ghost use Rattle.std.specs.Prelude.{◌≡◌, IfOk};

use crate::class::Class;
use cxx_base::Memory;
use cxx_type::CxxType;
use sharing::Shared;

/// What the objects of a type are made of ([intro.object], [basic.types]): a scalar, an array of elements of one shape, or the parts of a
/// class. The arrays are the layers of the type, so nothing nests where there are many; the class under them is shared, so a class
/// within two others, or twice within one, is one.
#[cycle(class)]
pub struct Shape {
    /// The type, and with it whether the object is const.
    pub of: CxxType,
    /// The class that the object, or its innermost elements, are of. None where these are scalars.
    pub class: Option<Shared<Class>>,
    /// How many scalars it has: a reference is one, and so is a value of the library, but for a `std::meta::member_offset`, which has two.
    pub scalars: u64,
    /// How many leaves it has: its scalars, and the classes and arrays in it that have no part.
    pub leaves: u64,
}

impl Drop for Shape {
    #[cycle(dropping_class)]
    fn drop(self) {
        let Shape {
            of: _,
            class: _,
            scalars: _,
            leaves: _,
        } = self;
    }
}

impl Shape {
    /// The same shape. It costs counts, whatever the shape holds.
    pub fn copy(&self) -> Result<Shape, Memory>
        ensures { IfOk result (λ copy. copy ≡ self.now) }
    {
        let class = match &self.class {
            Some(class) => Some(class.copy()?),
            None => None,
        };
        Ok(Shape {
            of: self.of.copy()?,
            class,
            scalars: self.scalars,
            leaves: self.leaves,
        })
    }
}
