//! Ways into an object.

ghost use Rattle.std.specs.Prelude.{◌≡◌, [], ◌∷◌, ◌++◌, length, IfOk, OnOk, OnErr, IsTrue, ◌↔◌};

use cxx_base::Memory;
use smallvec::SmallVec;
use std::alloc::Global;
use std::marker::Model;

/// From an object to a part of it: to a base, a data member or an element, by its place among those, from 0.
#[derive(Clone, Copy, Debug, PartialEq, Eq)]
pub enum PathStep {
    /// A base ([class.derived]).
    Base(u32),
    /// A data member that is not static ([class.mem]).
    Member(u32),
    /// An element of an array ([dcl.array]).
    Element(u32),
}

impl Default for PathStep {
    ghost use Rattle.std.specs.Prelude.{◌≡◌};
    ghost use Rattle.core_pointer.specs.declared.path.PathStep.TheVariants.{Element};

    ghost is_default = { λ step. step ≡ Element 0 };

    fn default() -> PathStep {
        PathStep::Element(0)
    }
}

/// The way from an object to a part of it, outermost step first; of none to the object itself. Contracts see the list of its steps.
/// One of at most two steps takes no memory of the heap.
pub struct Path {
    steps: SmallVec<PathStep, 2>,
}

impl Drop for Path {
    fn drop(self) {
        let Path { steps: _ } = self;
    }
}

impl Model for Path {
    ghost use Rattle.std.specs.Prelude.{List};
    ghost use Rattle.core_pointer.specs.declared.path.PathStep.{PathStep};

    ghost Value = { List PathStep };

    ghost view = { λ p. p.steps.items };
}

impl Path {
    /// The way to the object itself. It takes no memory.
    pub fn whole(alloc: Global) -> Path
        ensures { result ≡ [] }
    {
        Path {
            steps: SmallVec::new(alloc),
        }
    }

    /// The way of these steps.
    pub fn from_slice(alloc: Global, steps: &[PathStep]) -> Result<Path, Memory>
        ensures { IfOk result (λ path. path ≡ steps.now) }
    {
        let steps = SmallVec::from_slice(alloc, steps)?;
        Ok(Path { steps })
    }

    /// Its steps, outermost first.
    pub fn as_slice(&self) -> &[PathStep]
        ensures { result.now ≡ self.now }
    {
        self.steps.as_slice()
    }

    /// How many steps it has.
    pub fn len(&self) -> usize
        ensures { result ≡ length self.now }
    {
        self.steps.len()
    }

    /// Goes one step further. Without memory nothing changes.
    pub fn push(&mut self, step: PathStep) -> Result<(), Memory>
        ensures ok { OnOk result (self.new ≡ self.old ++ step ∷ []) }
        ensures err { OnErr result (self.new ≡ self.old) }
    {
        self.steps.push(step)?;
        Ok(())
    }

    /// The same way. It takes no memory where it has at most two steps.
    pub fn copy(&self) -> Result<Path, Memory>
        ensures { IfOk result (λ copy. copy ≡ self.now) }
    {
        let steps = SmallVec::from_slice(*self.steps.allocator(), self.steps.as_slice())?;
        Ok(Path { steps })
    }

    /// Whether two ways have the same steps.
    pub fn same(&self, other: &Path) -> bool
        ensures { IsTrue result ↔ (self.now ≡ other.now) }
    {
        steps_same(self.steps.as_slice(), other.steps.as_slice())
    }
}

fn steps_same(xs: &[PathStep], ys: &[PathStep]) -> bool
    ensures { IsTrue result ↔ (xs.now ≡ ys.now) }
{
    let mut rest = ys;
    for x in xs {
        match rest.split_first() {
            Some((y, more)) => {
                if *x != *y {
                    return false;
                }
                rest = more;
            }
            None => return false,
        }
    }
    rest.is_empty()
}
