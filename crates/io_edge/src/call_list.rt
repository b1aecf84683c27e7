//! The calls that are to fail.

ghost use Rattle.std.specs.Prelude.{◌≡◌, ◌+◌, ◌↔◌, [], ◌∷◌, ◌++◌, Contains, IsTrue, OnOk, OnErr};

use cxx_base::Memory;
use std::alloc::Global;
use std::marker::Model;

/// Numbers of calls, counted from 1. Contracts see the list of them.
#[derive(Debug)]
pub struct CallList {
    calls: Vec<u64>,
}

impl Drop for CallList {
    fn drop(self) {
        let CallList { calls: _ } = self;
    }
}

impl Model for CallList {
    ghost use Rattle.std.specs.Prelude.{List, ℕ};

    ghost Value = { List ℕ };

    ghost view = { λ l. l.calls.items };
}

impl CallList {
    /// No call. It takes no memory.
    pub fn new(alloc: Global) -> CallList
        ensures { result ≡ [] }
    {
        CallList {
            calls: Vec::new(alloc),
        }
    }

    /// Puts a call at the end. Without memory nothing changes.
    pub fn push(&mut self, call: u64) -> Result<(), Memory>
        ensures ok { OnOk result (self.new ≡ self.old ++ call ∷ []) }
        ensures err { OnErr result (self.new ≡ self.old) }
    {
        self.calls.push(call)?;
        Ok(())
    }

    /// Whether the call after `made` calls is listed. The list is searched from its start.
    pub(crate) fn lists_next(&self, made: u64) -> bool
        ensures { IsTrue result ↔ Contains self.now (made + 1) }
    {
        contains_next(self.calls.as_slice(), made)
    }
}

// A call past the greatest number has no number of 64 bits, so no list has it.
fn contains_next(calls: &[u64], made: u64) -> bool
    ensures { IsTrue result ↔ Contains calls.now (made + 1) }
{
    match made.checked_add(1) {
        Some(call) => calls.contains(&call),
        None => false,
    }
}
