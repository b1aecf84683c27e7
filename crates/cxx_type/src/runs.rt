//! Layers, and runs of equal ones.

ghost use Rattle.std.specs.Prelude.{◌≡◌, ◌+◌, ◌-◌, ◌<◌, ◌^◌, ◌∷◌, ◌++◌, drop, length, replicate, IsTrue, ◌↔◌, IfOk};
ghost use Rattle.cxx_type.specs.declared.runs.Run.{out-Run};
ghost use Rattle.cxx_type.specs.Layers.{Apart, runs_if_any, runs_of, under_of, wide};

use cxx_base::Memory;
use std::alloc::Global;
use std::sync::Arc;

/// A pointer, a reference or an array over a type ([dcl.ptr], [dcl.ref], [dcl.array]).
#[derive(Clone, Copy, Debug, PartialEq, Eq)]
pub enum Layer {
    Pointer { is_const: bool },
    Reference,
    /// An array of so many elements.
    Array(u64),
}

// Equal layers beside each other, how many they are, and what lies under them.
pub(crate) struct Run {
    pub(crate) layer: Layer,
    pub(crate) count: u64,
    under: Option<Arc<Run, Global>>,
}

// In a loop, since a drop for each run would go as deep as there are runs.
impl Drop for Run {
    fn drop(mut self) {
        loop {
            let Run {
                layer: _,
                count: _,
                under,
            } = self;
            match under {
                None => return,
                Some(run) => match Arc::into_inner(run) {
                    None => return,
                    Some(run) => self = run,
                },
            }
        }
    }
}

impl Run {
    // The same run, over what is shared.
    pub(crate) fn copy(&self) -> Result<Run, Memory>
        ensures { IfOk result (λ copy. runs_of copy ≡ runs_of self.now) }
    {
        let under = match &self.under {
            Some(under) => Some(Arc::try_clone(under)?),
            None => None,
        };
        Ok(Run {
            layer: self.layer,
            count: self.count,
            under,
        })
    }

    // A run of so many layers over another run.
    fn another(alloc: Global, layer: Layer, n: u64, run: Run) -> Result<Run, Memory>
        ensures { IfOk result (λ over. runs_of over ≡ (layer, n) ∷ runs_of run) }
    {
        Ok(Run {
            layer,
            count: n,
            under: Some(Arc::new(alloc, run)?),
        })
    }

    fn longer(self, n: u64) -> Run
        requires { (out-Run self).count + n < 2 ^ 64 }
        ensures { runs_of result ≡ ((out-Run self).layer, (out-Run self).count + n) ∷ under_of (runs_of self) }
    {
        let Run {
            layer,
            count,
            under,
        } = self;
        Run {
            layer,
            count: count + n,
            under,
        }
    }

    fn shorter(self) -> Run
        requires { 0 < (out-Run self).count }
        ensures { runs_of result ≡ ((out-Run self).layer, (out-Run self).count - 1) ∷ under_of (runs_of self) }
    {
        let Run {
            layer,
            count,
            under,
        } = self;
        Run {
            layer,
            count: count - 1,
            under,
        }
    }

    // What lies under the run.
    fn below(self) -> Result<Option<Run>, Memory>
        ensures { IfOk result (λ below. runs_if_any below ≡ under_of (runs_of self)) }
    {
        let Run {
            layer: _,
            count: _,
            under,
        } = self;
        match under {
            Some(under) => match Arc::try_unwrap(under) {
                Ok(run) => Ok(Some(run)),
                Err(shared) => Ok(Some(shared.copy()?)),
            },
            None => Ok(None),
        }
    }

    // The run and equal layers over it, at least one.
    #[tactic(auto, using(crate::proofs::Stretches::over_steps))]
    pub(crate) fn over(self, alloc: Global, layer: Layer, n: u64) -> Result<Run, Memory>
        requires some { 0 < n }
        requires short { length (wide (runs_of self)) + n < 2 ^ 64 }
        requires apart { Apart (runs_of self) }
        ensures layers { IfOk result (λ over. wide (runs_of over) ≡ replicate n layer ++ wide (runs_of self)) }
        ensures apart { IfOk result (λ over. Apart (runs_of over)) }
    {
        if self.layer == layer {
            Ok(self.longer(n))
        } else {
            Run::another(alloc, layer, n, self)
        }
    }

    // All but the outermost layer.
    #[tactic(auto, using(crate::proofs::Stretches::less_steps))]
    pub(crate) fn less(self) -> Result<Option<Run>, Memory>
        requires { Apart (runs_of self) }
        ensures layers { IfOk result (λ less. wide (runs_if_any less) ≡ drop 1 (wide (runs_of self))) }
        ensures apart { IfOk result (λ less. Apart (runs_if_any less)) }
    {
        if self.count > 1 {
            Ok(Some(self.shorter()))
        } else {
            self.below()
        }
    }

    // All but the whole run.
    #[tactic(auto, using(crate::proofs::Stretches::under_steps))]
    pub(crate) fn without(self) -> Result<Option<Run>, Memory>
        requires { Apart (runs_of self) }
        ensures layers { IfOk result (λ below. wide (runs_if_any below) ≡ drop (out-Run self).count (wide (runs_of self))) }
        ensures len { IfOk result (λ below. length (wide (runs_if_any below)) + (out-Run self).count ≡ length (wide (runs_of self))) }
        ensures apart { IfOk result (λ below. Apart (runs_if_any below)) }
    {
        self.below()
    }
}

// Whether two runs are equal, what lies under them aside.
fn outermost_same(run: &Run, other: &Run) -> bool
    ensures { IsTrue result ↔ (((out-Run run.now).layer ≡ (out-Run other.now).layer) × ((out-Run run.now).count ≡ (out-Run other.now).count)) }
{
    run.layer == other.layer && run.count == other.count
}

// Whether two runs, and all that lies under them, are equal.
pub(crate) fn runs_same(run: &Run, other: &Run) -> bool
    ensures { IsTrue result ↔ (runs_of run.now ≡ runs_of other.now) }
{
    let mut x = run;
    let mut y = other;
    loop {
        match &x.under {
            Some(under) => {
                if !outermost_same(x, y) {
                    return false;
                }
                match &y.under {
                    Some(other_under) => {
                        x = under;
                        y = other_under;
                    }
                    None => return false,
                }
            }
            None => match &y.under {
                Some(_) => return false,
                None => return outermost_same(x, y),
            },
        }
    }
}

// Equal layers, at least one, over runs, if there are any.
pub(crate) fn put_over(
    alloc: Global,
    layer: Layer,
    n: u64,
    runs: Option<Run>,
) -> Result<Run, Memory>
    requires some { 0 < n }
    requires short { length (wide (runs_if_any runs)) + n < 2 ^ 64 }
    requires apart { Apart (runs_if_any runs) }
    ensures layers { IfOk result (λ over. wide (runs_of over) ≡ replicate n layer ++ wide (runs_if_any runs)) }
    ensures apart { IfOk result (λ over. Apart (runs_of over)) }
{
    match runs {
        Some(run) => run.over(alloc, layer, n),
        None => Ok(Run {
            layer,
            count: n,
            under: None,
        }),
    }
}
