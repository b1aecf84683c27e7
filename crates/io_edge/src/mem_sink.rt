//! A sink in memory.

ghost use Rattle.std.specs.Prelude.{◌≡◌, ◌+◌, ◌-◌, ◌^◌, ◌<◌, ◌≤◌, ◌⊎◌, ◌↔◌, [], ◌++◌, None, Some, min, length, take, Contains, IfOk, IfSome, IsErr, IsNone, IsOk, OnOk, OnErr, vec_capacity};
ghost use Rattle.std.specs.Option.{ForSome};
ghost use Rattle.std.specs.Io.KnownBytes.{Appends};
ghost use Rattle.io_edge.specs.Edge.{AppendsPrefix, Rose, TellsOn};
ghost use Rattle.io_edge.specs.MemoryObjects.{fitting};

use crate::call_list::CallList;
use crate::edge::{Failed, Sink};
use cxx_base::Memory;
use std::alloc::Global;
use std::marker::Model;

/// A list of bytes in memory as a sink. With a room it takes at most as many bytes, and no write
/// takes memory. It fails at the calls that are listed and where nothing fits, and always tells
/// what it holds.
#[derive(Debug)]
pub struct MemSink {
    held: Vec<u8>,
    room: Option<usize>,
    failing: CallList,
    calls: u64,
    faults: u64,
}

impl Drop for MemSink {
    fn drop(self) {
        let MemSink {
            held: _,
            room: _,
            failing: _,
            calls: _,
            faults: _,
        } = self;
    }
}

impl Model for MemSink {
    ghost use Rattle.std.specs.Prelude.{◌≤◌, length, vec_capacity};
    ghost use Rattle.std.specs.Option.{ForSome};
    ghost use Rattle.io_edge.specs.MemoryObjects.{SinkState};

    ghost Value = { SinkState };

    ghost view = { λ s. record {
      held = s.held.items;
      room = s.room;
      calls = s.calls;
      failing = s.failing;
      faults = s.faults;
    } };

    ghost invariant = { λ s. ForSome s.room
        (λ room. (length s.held.items ≤ room) × (room ≤ vec_capacity s.held)) };
}

impl MemSink {
    /// An empty sink. Where a room is given, its memory is taken here.
    pub fn new(alloc: Global, room: Option<usize>, failing: CallList) -> Result<MemSink, Memory>
        ensures held { IfOk result (λ s. s.held ≡ []) }
        ensures room { IfOk result (λ s. s.room ≡ room) }
        ensures failing { IfOk result (λ s. s.failing ≡ failing) }
        ensures calls { IfOk result (λ s. s.calls ≡ 0) }
        ensures faults { IfOk result (λ s. s.faults ≡ 0) }
        ensures no_room_succeeds { IsNone room → IsOk result }
    {
        let held = match room {
            Some(room) => Vec::with_capacity(alloc, room)?,
            None => Vec::new(alloc),
        };
        Ok(MemSink {
            held,
            room,
            failing,
            calls: 0,
            faults: 0,
        })
    }

    /// The bytes that were written.
    pub fn held(&self) -> &[u8]
        ensures { result.now ≡ self.now.held }
    {
        self.held.as_slice()
    }
}

impl Sink for MemSink {
    ghost faults = { λ s. s.faults };

    ghost held = { λ s. Some s.held };

    /// Without a room, a write that finds no memory fails too.
    fn write(&mut self, bytes: &[u8]) -> Result<usize, Failed>
        ensures bound { IfOk result (λ n. n ≤ length bytes.now) }
        ensures progress { IfOk result (λ n. 0 < length bytes.now → 0 < n) }
        ensures appends { IfOk result (λ n.
            Appends (Some self.old.held) (Some self.new.held) (take n bytes.now)) }
        ensures prefix { OnErr result
            (AppendsPrefix (Some self.old.held) (Some self.new.held) bytes.now) }
        ensures tells { TellsOn (Some self.old.held) (Some self.new.held) }
        ensures count { self.old.faults ≤ self.new.faults }
        ensures failed { OnErr result (Rose self.old.faults self.new.faults) }

        // A call that is listed fails. With a room, so does one where nothing fits, and no other.
        ensures listed { Contains self.old.failing (self.old.calls + 1) → IsErr result }
        ensures in_room { IfSome self.old.room (λ room. IsErr result
            ↔ (Contains self.old.failing (self.old.calls + 1)
            ⊎ ((0 < length bytes.now) × (room ≤ length self.old.held)))) }

        // Without a room memory may be wanting too, but for a piece that is not empty alone.
        ensures cause { IsErr result → Contains self.old.failing (self.old.calls + 1) ⊎ (0 < length bytes.now) }

        // A call takes what fits, and a failing call nothing.
        ensures takes { IfOk result (λ n.
            n ≡ fitting self.old.room (length self.old.held) (length bytes.now)) }
        ensures kept { OnErr result (self.new.held ≡ self.old.held) }
        ensures within { IfSome self.new.room (λ room. length self.new.held ≤ room) }

        // The counts.
        ensures calls { self.new.calls ≡ min (self.old.calls + 1) (2 ^ 64 - 1) }
        ensures ok_faults { OnOk result (self.new.faults ≡ self.old.faults) }
        ensures err_faults { OnErr result
            (self.new.faults ≡ min (self.old.faults + 1) (2 ^ 64 - 1)) }

        // What no call changes.
        ensures room { self.new.room ≡ self.old.room }
        ensures failing { self.new.failing ≡ self.old.failing }
    {
        let is_failing = self.failing.lists_next(self.calls);
        self.calls = self.calls.saturating_add(1);
        if is_failing {
            self.faults = self.faults.saturating_add(1);
            return Err(Failed);
        }
        match append_fitting(&mut self.held, self.room, bytes) {
            Ok(taken) => Ok(taken),
            Err(failed) => {
                self.faults = self.faults.saturating_add(1);
                Err(failed)
            }
        }
    }
}

// Appends what fits. With a room, whose memory is there, it fails only where nothing fits.
fn append_fitting(held: &mut Vec<u8>, room: Option<usize>, bytes: &[u8]) -> Result<usize, Failed>
    requires { ForSome room (λ r. (length held.old.items ≤ r) × (r ≤ vec_capacity held.old)) }
    ensures takes { IfOk result (λ n. n ≡ fitting room (length held.old.items) (length bytes.now)) }
    ensures progress { IfOk result (λ n. 0 < length bytes.now → 0 < n) }
    ensures appends { IfOk result (λ n. held.new.items ≡ held.old.items ++ take n bytes.now) }
    ensures kept { OnErr result (held.new.items ≡ held.old.items) }
    ensures some { OnErr result (0 < length bytes.now) }
    ensures full { IfSome room (λ r.
        OnErr result ((0 < length bytes.now) × (r ≤ length held.old.items))) }
    ensures within { ForSome room (λ r. (length held.new.items ≤ r) × (r ≤ vec_capacity held.new)) }
{
    if bytes.is_empty() {
        return Ok(0);
    }
    let fits = match room {
        Some(room) => bytes.len().min(room - held.len()),
        None => bytes.len(),
    };
    if fits == 0 {
        return Err(Failed);
    }
    match held.extend_from_slice(&bytes[..fits]) {
        Ok(()) => Ok(fits),
        Err(_) => Err(Failed),
    }
}
