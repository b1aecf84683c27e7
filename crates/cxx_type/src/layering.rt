//! The layers of a type.

ghost use Rattle.std.specs.Prelude.{◌≡◌, ℕ, [], ◌∷◌, ◌++◌, drop, length, replicate, slice_get, IsTrue, ◌↔◌, IfOk, MatchOption};
ghost use Rattle.cxx_type.specs.Layers.{IsOutermost};
ghost use Rattle.cxx_type.specs.declared.runs.Layer.{Layer};

use crate::runs::{Layer, Run, put_over, runs_same};
use cxx_base::Memory;
use std::alloc::Global;
use std::marker::Model;

/// The layers over a type, the outermost first. Contracts see the list of them.
///
/// Equal layers beside each other are one run, of which their number is kept, and what lies under the outermost run is shared. So
/// nothing is held where there is no layer, nothing on the heap where there is one run; a copy costs a count, and one layer more or
/// less costs a number, or, between two runs, a box. A comparison costs the number of runs.
pub struct Layers {
    // how many layers there are
    len: u64,
    outermost: Option<Run>,
}

impl Drop for Layers {
    fn drop(self) {
        let Layers {
            len: _,
            outermost: _,
        } = self;
    }
}

impl Model for Layers {
    ghost use Rattle.std.specs.Prelude.{List, ◌≡◌, length};
    ghost use Rattle.cxx_type.specs.declared.runs.Layer.{Layer};
    ghost use Rattle.cxx_type.specs.Layers.{Apart, runs_if_any, wide};

    ghost Value = { List Layer };

    ghost view = { λ l. wide (runs_if_any l.outermost) };

    ghost invariant = { λ l. (l.len ≡ length (wide (runs_if_any l.outermost))) × Apart (runs_if_any l.outermost) };
}

impl Layers {
    /// No layer. It takes no memory.
    pub fn none() -> Layers
        ensures { result ≡ [] }
    {
        Layers {
            len: 0,
            outermost: None,
        }
    }

    /// How many layers there are.
    pub fn len(&self) -> u64
        ensures { result ≡ length self.now }
    {
        self.len
    }

    /// The outermost layer, if there is one.
    #[tactic(auto, using(crate::proofs::Stretches::first_steps))]
    pub fn outermost(&self) -> Option<Layer>
        ensures { result ≡ slice_get self.now 0 }
    {
        match &self.outermost {
            Some(run) => Some(run.layer),
            None => None,
        }
    }

    /// The outermost layer, and how many equal ones lie over each other there, if there is one.
    #[tactic(auto, using(crate::proofs::Stretches::first_steps))]
    pub fn outermost_run(&self) -> Option<(Layer, u64)>
        ensures { MatchOption result (self.now ≡ []) (λ run. IsOutermost run.0 run.1 self.now) }
    {
        match &self.outermost {
            Some(run) => Some((run.layer, run.count)),
            None => None,
        }
    }

    /// The same layers. It costs a count.
    pub fn copy(&self) -> Result<Layers, Memory>
        ensures { IfOk result (λ copy. copy ≡ self.now) }
    {
        let outermost = match &self.outermost {
            Some(run) => Some(run.copy()?),
            None => None,
        };
        Ok(Layers {
            len: self.len,
            outermost,
        })
    }

    /// One layer over them. There are fewer than 2^64, which no memory would hold.
    pub fn over(self, alloc: Global, layer: Layer) -> Result<Layers, Memory>
        ensures { IfOk result (λ over. over ≡ layer ∷ self) }
    {
        self.over_run(alloc, layer, 1)
    }

    /// So many equal layers over them, at the cost of one. There are fewer than 2^64.
    #[tactic(auto, using(crate::proofs::Stretches::length_of_run))]
    pub fn over_run(self, alloc: Global, layer: Layer, n: u64) -> Result<Layers, Memory>
        ensures { IfOk result (λ over. over ≡ replicate n layer ++ self) }
    {
        if n == 0 {
            return Ok(self);
        }
        if n > u64::MAX - self.len {
            return Err(Memory);
        }
        let Layers { len, outermost } = self;
        Ok(Layers {
            len: len + n,
            outermost: Some(put_over(alloc, layer, n, outermost)?),
        })
    }

    /// All but the outermost layer. Of no layer there is none.
    pub fn under(self) -> Result<Layers, Memory>
        ensures { IfOk result (λ under. under ≡ drop 1 self) }
    {
        let Layers { len, outermost } = self;
        match outermost {
            Some(run) => Ok(Layers {
                len: len - 1,
                outermost: run.less()?,
            }),
            None => Ok(Layers::none()),
        }
    }

    /// All but the outermost run of equal layers, at the cost of one. Of no layer there is none.
    pub fn under_run(self) -> Result<Layers, Memory>
        ensures run { IfOk result (λ under. (layer : Layer) (n : ℕ) → IsOutermost layer n self → under ≡ drop n self) }
        ensures none { IfOk result (λ under. self ≡ [] → under ≡ []) }
    {
        let Layers { len, outermost } = self;
        match outermost {
            Some(run) => {
                let count = run.count;
                let below = run.without()?;
                Ok(Layers {
                    len: len - count,
                    outermost: below,
                })
            }
            None => Ok(Layers::none()),
        }
    }

    /// Whether the layers are equal. It costs the number of runs, and nothing where there are not as many layers.
    pub fn same(&self, other: &Layers) -> bool
        ensures { IsTrue result ↔ (self.now ≡ other.now) }
    {
        if self.len != other.len {
            return false;
        }
        match &self.outermost {
            Some(run) => match &other.outermost {
                Some(other_run) => runs_same(run, other_run),
                None => false,
            },
            None => match &other.outermost {
                Some(_) => false,
                None => true,
            },
        }
    }
}
