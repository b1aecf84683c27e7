//! Stores.

ghost use Rattle.std.specs.Prelude.{◌≡◌, ◌≢◌, [], ◌∷◌, ◌++◌, None, IfOk, OnOk, OnErr};
ghost use Rattle.object_store.specs.Access.{begun_at, ended_at, read_at, sealed_at, written};
ghost use Rattle.object_store.specs.Answers.{Answers, Created, Brought, Reads};
ghost use Rattle.object_store.specs.Objects.{object_of};
ghost use Rattle.object_store.specs.Pointers.{compared, moved};
ghost use Rattle.core_pointer.specs.declared.origin.Origin.TheVariants as origin;

use core_pointer::{Origin, Pointer};
use core_shape::Shape;
use core_value::Value;
use core_words::{Cause, ReadStop};
use cxx_base::{CompareOp, Memory};
use std::alloc::Global;

/// The objects of an evaluation ([intro.object], [basic.life]): a list of trees of subobjects, each with its origin and its shape. Each call says
/// what the objects are after it; all others are as before. Refusals come in the order null, outside the object, of another evaluation, outside its
/// lifetime, without a value, const.
pub trait Store {
    ghost use Rattle.std.specs.Prelude.{List};
    ghost use Rattle.object_store.specs.Objects.{Object};

    /// The objects, in the order in which they came.
    ghost objects: { Self → List Object };

    /// No object. It takes no memory.
    fn empty(alloc: Global) -> Self
        ensures { objects result ≡ [] };

    /// Makes an object of which nothing has begun. Without memory nothing changes.
    fn create(&mut self, of: &Shape, object: Origin, is_const: bool) -> Result<(), Memory>
        requires fresh { object_of (objects self.old) object ≡ None }
        requires somewhere { object ≢ origin.Null }
        ensures ok { OnOk result (Created of.now object is_const (objects self.old) (objects self.new)) }
        ensures err { OnErr result (objects self.new ≡ objects self.old) };

    /// Takes in an object that is not made here: with its value, which is shared, as a const object whose initialization has ended (a constexpr
    /// static variable of an earlier piece, or a constexpr local that elaboration has settled); without one, another static variable for its
    /// shape alone, which nobody reads or writes. The value is one of the shape: scalars that it lacks have not begun, and those beyond are
    /// dropped. Without memory nothing changes.
    fn bring(&mut self, of: &Shape, object: Origin, value: Option<Value>) -> Result<(), Memory>
        requires fresh { object_of (objects self.old) object ≡ None }
        requires somewhere { object ≢ origin.Null }
        ensures ok { OnOk result (Brought of.now object value (objects self.old) (objects self.new)) }
        ensures err { OnErr result (objects self.new ≡ objects self.old) };

    /// Begins the lifetime of a subobject and of all in it that has not begun. Where nothing fits nothing changes; whether the pointer is past
    /// its end is not asked.
    fn begin(&mut self, at: &Pointer)
        ensures { objects self.new ≡ begun_at (objects self.old) at.now };

    /// Ends the lifetime of a subobject and of all in it; `V4` exactly where it does not live, and then all is as before. A string literal stays
    /// as it is.
    fn end(&mut self, at: &Pointer) -> Result<(), Cause>
        ensures { Answers result (ended_at (objects self.old) at.now) (objects self.old) (objects self.new) };

    /// The initialization of a subobject has ended. Where nothing fits nothing changes; whether the pointer is past its end is not asked.
    fn seal(&mut self, at: &Pointer)
        ensures { objects self.new ≡ sealed_at (objects self.old) at.now };

    /// The value of a subobject.
    fn read(&self, at: &Pointer) -> Result<Value, ReadStop>
        ensures { Reads result (read_at (objects self.now) at.now) };

    /// Writes the value of a scalar. Where it is refused all is as before.
    fn write(&mut self, at: &Pointer, value: Value) -> Result<(), Cause>
        ensures { Answers result (written (objects self.old) at.now value) (objects self.old) (objects self.new) };

    /// Moves a pointer by so many elements.
    fn move_pointer(&self, at: &Pointer, by: i64) -> Result<Pointer, ReadStop>
        ensures { Reads result (moved (objects self.now) at.now by) };

    /// Compares two pointers.
    fn compare(&self, op: CompareOp, a: &Pointer, b: &Pointer) -> Result<bool, Cause>
        ensures { result ≡ compared op a.now b.now };
}
