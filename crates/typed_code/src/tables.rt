//! The tables of what is too large for a node.

ghost use Rattle.std.specs.Prelude.{◌≡◌, ◌+◌, ◌∷◌, ◌++◌, [], length, IfOk, OnOk, OnErr};

use crate::basics::BASIC_TYPES;
use crate::number::{ShapeNo, TextNo, TypeNo, ValueNo};
use containers::Items;
use core_pointer::{Literal, PathStep};
use core_shape::Shape;
use core_value::Value;
use cxx_base::Memory;
use cxx_type::CxxType;
use std::alloc::Global;

// Much code needs none of these, and then they are not made.
pub(crate) struct Tables {
    pub(crate) steps: Vec<PathStep>,
    pub(crate) types: Items<CxxType>,
    pub(crate) shapes: Items<Shape>,
    pub(crate) texts: Items<Literal>,
    pub(crate) values: Items<Value>,
}

impl Drop for Tables {
    fn drop(self) {
        let Tables {
            steps: _,
            types: _,
            shapes: _,
            texts: _,
            values: _,
        } = self;
    }
}

// The number of the next entry of an array of this length. There are fewer than 2^32, which no memory would hold.
pub(crate) fn number_of(len: usize) -> Result<u32, Memory>
    ensures { IfOk result (λ n. n ≡ len) }
{
    if len < 4_294_967_296 {
        Ok(len as u32)
    } else {
        Err(Memory)
    }
}

// The same of a type or a shape, whose numbers begin behind those of the basic ones.
fn number_beyond(len: usize) -> Result<u32, Memory>
    ensures { IfOk result (λ n. n ≡ BASIC_TYPES + len) }
{
    if len < 4_294_967_000 {
        Ok(BASIC_TYPES + len as u32)
    } else {
        Err(Memory)
    }
}

// Each call puts something behind the last of its kind, and answers its number. Without memory nothing changes.
impl Tables {
    pub(crate) fn new(alloc: Global) -> Tables
        ensures steps { result.steps.items ≡ [] }
        ensures types { result.types ≡ [] }
        ensures shapes { result.shapes ≡ [] }
        ensures texts { result.texts ≡ [] }
        ensures values { result.values ≡ [] }
    {
        Tables {
            steps: Vec::new(alloc),
            types: Items::new(alloc),
            shapes: Items::new(alloc),
            texts: Items::new(alloc),
            values: Items::new(alloc),
        }
    }

    pub(crate) fn put_text(&mut self, text: Literal) -> Result<TextNo, Memory>
        ensures number { IfOk result (λ n. n.0 ≡ length self.old.texts) }
        ensures ok { OnOk result (self.new ≡ record self.old { texts = self.old.texts ++ text ∷ [] }) }
        ensures err { OnErr result (self.new ≡ self.old) }
    {
        let at = number_of(self.texts.len())?;
        self.texts.push(text)?;
        Ok(TextNo(at))
    }

    pub(crate) fn put_value(&mut self, value: Value) -> Result<ValueNo, Memory>
        ensures number { IfOk result (λ n. n.0 ≡ length self.old.values) }
        ensures ok { OnOk result (self.new ≡ record self.old { values = self.old.values ++ value ∷ [] }) }
        ensures err { OnErr result (self.new ≡ self.old) }
    {
        let at = number_of(self.values.len())?;
        self.values.push(value)?;
        Ok(ValueNo(at))
    }

    pub(crate) fn put_type(&mut self, of: CxxType) -> Result<TypeNo, Memory>
        ensures number { IfOk result (λ n. n.0 ≡ BASIC_TYPES + length self.old.types) }
        ensures ok { OnOk result (self.new ≡ record self.old { types = self.old.types ++ of ∷ [] }) }
        ensures err { OnErr result (self.new ≡ self.old) }
    {
        let at = number_beyond(self.types.len())?;
        self.types.push(of)?;
        Ok(TypeNo(at))
    }

    pub(crate) fn put_shape(&mut self, shape: Shape) -> Result<ShapeNo, Memory>
        ensures number { IfOk result (λ n. n.0 ≡ BASIC_TYPES + length self.old.shapes) }
        ensures ok { OnOk result (self.new ≡ record self.old { shapes = self.old.shapes ++ shape ∷ [] }) }
        ensures err { OnErr result (self.new ≡ self.old) }
    {
        let at = number_beyond(self.shapes.len())?;
        self.shapes.push(shape)?;
        Ok(ShapeNo(at))
    }

    pub(crate) fn put_path(&mut self, path: &[PathStep]) -> Result<u32, Memory>
        ensures number { IfOk result (λ first. first ≡ length self.old.steps.items) }
        ensures ok { OnOk result (self.new.steps.items ≡ self.old.steps.items ++ path.now) }
        ensures err { OnErr result (self.new.steps.items ≡ self.old.steps.items) }
        ensures others { self.new ≡ record self.old { steps = self.new.steps } }
    {
        let first = number_of(self.steps.len())?;
        self.steps.extend_from_slice(path)?;
        Ok(first)
    }
}
