//! A source in memory.

ghost use Rattle.std.specs.Prelude.{◌≡◌, ◌+◌, ◌-◌, ◌^◌, ◌<◌, ◌≤◌, ◌↔◌, Some, min, length, take, drop, Contains, IfOk, IsErr, OnOk, OnErr};
ghost use Rattle.std.specs.Io.KnownBytes.{Consumes, IsAtEnd};
ghost use Rattle.io_edge.specs.Edge.{LosesPrefix, Rose, TellsOn};

use crate::call_list::CallList;
use crate::edge::{Failed, Source};
use cxx_base::Bytes;
use std::marker::Model;

/// Bytes in memory as a source. It gives at most `piece` bytes in a call, fails exactly at the
/// calls that are listed, and always tells what is left.
#[derive(Debug)]
pub struct MemSource {
    bytes: Bytes,
    // How many of `bytes` were read.
    at: usize,
    piece: usize,
    failing: CallList,
    calls: u64,
    faults: u64,
}

impl Drop for MemSource {
    fn drop(self) {
        let MemSource {
            bytes: _,
            at: _,
            piece: _,
            failing: _,
            calls: _,
            faults: _,
        } = self;
    }
}

impl Model for MemSource {
    ghost use Rattle.std.specs.Prelude.{◌≤◌, length, drop};
    ghost use Rattle.io_edge.specs.MemoryObjects.{SourceState};

    ghost Value = { SourceState };

    ghost view = { λ s. record {
      left = drop s.at s.bytes;
      piece = s.piece;
      calls = s.calls;
      failing = s.failing;
      faults = s.faults;
    } };

    ghost invariant = { λ s. (s.at ≤ length s.bytes) × (1 ≤ s.piece) };
}

impl MemSource {
    /// A source of these bytes. It takes no memory.
    pub fn new(bytes: Bytes, piece: usize, failing: CallList) -> MemSource
        requires { 1 ≤ piece }
        ensures left { result.left ≡ bytes }
        ensures piece { result.piece ≡ piece }
        ensures failing { result.failing ≡ failing }
        ensures calls { result.calls ≡ 0 }
        ensures faults { result.faults ≡ 0 }
    {
        MemSource {
            bytes,
            at: 0,
            piece,
            failing,
            calls: 0,
            faults: 0,
        }
    }

    /// The bytes that are left to read.
    pub fn left(&self) -> &[u8]
        ensures { result.now ≡ self.now.left }
    {
        &self.bytes.as_slice()[self.at..]
    }
}

impl Source for MemSource {
    ghost faults = { λ s. s.faults };

    ghost left = { λ s. Some s.left };

    /// Costs no more than the bytes that it gives, and one look through the list of failing calls.
    fn read(&mut self, buf: &mut [u8]) -> Result<usize, Failed>
        ensures bound { IfOk result (λ n. n ≤ length buf.new) }
        ensures end { IfOk result (λ n. n ≡ 0 → 0 < length buf.old → IsAtEnd (Some self.new.left)) }
        ensures bytes { IfOk result (λ n.
            Consumes (Some self.old.left) (Some self.new.left) (take n buf.new)) }
        ensures prefix { OnErr result (LosesPrefix (Some self.old.left) (Some self.new.left)) }
        ensures tells { TellsOn (Some self.old.left) (Some self.new.left) }
        ensures count { self.old.faults ≤ self.new.faults }
        ensures failed { OnErr result (Rose self.old.faults self.new.faults) }

        // The list of calls decides, and a failing call takes nothing.
        ensures fails { IsErr result ↔ Contains self.old.failing (self.old.calls + 1) }
        ensures gives { IfOk result (λ n.
            n ≡ min (min (length buf.old) self.old.piece) (length self.old.left)) }
        ensures kept { OnErr result (self.new.left ≡ self.old.left) }

        // The counts.
        ensures calls { self.new.calls ≡ min (self.old.calls + 1) (2 ^ 64 - 1) }
        ensures ok_faults { OnOk result (self.new.faults ≡ self.old.faults) }
        ensures err_faults { OnErr result
            (self.new.faults ≡ min (self.old.faults + 1) (2 ^ 64 - 1)) }

        // What no call changes.
        ensures piece { self.new.piece ≡ self.old.piece }
        ensures failing { self.new.failing ≡ self.old.failing }
    {
        let is_failing = self.failing.lists_next(self.calls);
        self.calls = self.calls.saturating_add(1);
        if is_failing {
            self.faults = self.faults.saturating_add(1);
            return Err(Failed);
        }
        let given = copy_front(&self.bytes.as_slice()[self.at..], buf, self.piece);
        self.at += given;
        Ok(given)
    }
}

// Copies as many bytes as both have, and `most` at most, and returns how many.
fn copy_front(from: &[u8], to: &mut [u8], most: usize) -> usize
    ensures count { result ≡ min (min (length to.old) most) (length from.now) }
    ensures copied { take result to.new ≡ take result from.now }
{
    let n = to.len().min(most).min(from.len());
    to[..n].copy_from_slice(&from[..n]);
    n
}
