//! Outcomes.

ghost use Rattle.std.specs.Prelude.{◌≡◌, IfOk};

use crate::completions::Completion;
use crate::declared::Declared;
use containers::{Boxed, Items};
use cxx_base::{Memory, Refusal};
use sharing::Shared;
use std::alloc::Global;
use std::marker::Model;

/// What a piece comes to.
pub struct OutcomeParts {
    pub declared: Declared,
    /// The classes that a block completed, in order.
    pub completions: Items<Completion>,
    /// Why it is refused. A refused piece declares and completes nothing.
    pub refusal: Option<Boxed<Refusal>>,
    /// The steps of its roots, up to a refusal.
    pub steps: u64,
}

impl Drop for OutcomeParts {
    fn drop(self) {
        let OutcomeParts {
            declared: _,
            completions: _,
            refusal: _,
            steps: _,
        } = self;
    }
}

/// The outcome of a piece, which all that read it share. Contracts see its parts.
pub struct Outcome {
    parts: Shared<OutcomeParts>,
}

impl Drop for Outcome {
    fn drop(self) {
        let Outcome { parts: _ } = self;
    }
}

impl Model for Outcome {
    ghost use Rattle.core_outcome.specs.declared.outcome.OutcomeParts.{OutcomeParts};
    ghost use Rattle.core_outcome.specs.contracts.outcome.OutcomeParts as held;

    ghost Value = { OutcomeParts };

    ghost coded = { held.the_row.coded };

    ghost view = { λ o. o.parts };
}

impl Outcome {
    /// The outcome of these parts. Without memory they are dropped.
    pub fn new(alloc: Global, parts: OutcomeParts) -> Result<Outcome, Memory>
        ensures { IfOk result (λ outcome. outcome ≡ parts) }
    {
        let parts = Shared::new(alloc, parts)?;
        Ok(Outcome { parts })
    }

    /// Its parts.
    pub fn parts(&self) -> &OutcomeParts
        ensures { result.now ≡ self.now }
    {
        self.parts.get()
    }

    /// The same outcome. It costs a count, whatever the outcome holds.
    pub fn copy(&self) -> Result<Outcome, Memory>
        ensures { IfOk result (λ copy. copy ≡ self.now) }
    {
        let parts = self.parts.copy()?;
        Ok(Outcome { parts })
    }
}

/// What is known of a piece.
pub enum Fact<'a> {
    Known(&'a Outcome),
    /// Its outcome is not at hand.
    NotYet,
}
