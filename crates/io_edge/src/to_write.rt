//! A writer of std as a sink.

ghost use Rattle.std.specs.Prelude.{◌≡◌, ◌+◌, ◌-◌, ◌^◌, ◌<◌, ◌≤◌, min, length, take, IfOk, OnOk, OnErr};
ghost use Rattle.std.specs.Io.KnownBytes.{Appends};
ghost use Rattle.io_edge.specs.Adapters.{write_faults, writer_of};
ghost use Rattle.io_edge.specs.Edge.{AppendsPrefix, Rose, TellsOn};

use crate::edge::{Failed, Sink};
use std::io::Write;

/// A writer as a sink. It flushes after each write. Each error of the writer is a fault, and so is
/// a write that takes none of a piece that is not empty. Of the bytes that it holds it tells what
/// the writer tells.
#[derive(Debug, Drop)]
pub struct ToWrite<W> {
    inner: W,
    faults: u64,
}

impl<W: Write> ToWrite<W> {
    /// A sink over this writer, with no fault.
    pub fn new(inner: W) -> ToWrite<W>
        ensures writer { writer_of result ≡ inner }
        ensures faults { write_faults result ≡ 0 }
    {
        ToWrite { inner, faults: 0 }
    }

    /// How many writes failed. At its greatest value the count stands.
    pub fn faults(&self) -> u64
        ensures { result ≡ write_faults self.now }
    {
        self.faults
    }
}

impl<W: Write> Sink for ToWrite<W> {
    ghost faults = { λ s. write_faults s };

    ghost held = { λ s. W.contents (writer_of s) };

    fn write(&mut self, bytes: &[u8]) -> Result<usize, Failed>
        ensures bound { IfOk result (λ n. n ≤ length bytes.now) }
        ensures progress { IfOk result (λ n. 0 < length bytes.now → 0 < n) }
        ensures appends { IfOk result (λ n.
            Appends (W.contents (writer_of self.old)) (W.contents (writer_of self.new)) (take n bytes.now)) }
        ensures prefix { OnErr result
            (AppendsPrefix (W.contents (writer_of self.old)) (W.contents (writer_of self.new)) bytes.now) }
        ensures tells { TellsOn
            (W.contents (writer_of self.old)) (W.contents (writer_of self.new)) }
        ensures count { write_faults self.old ≤ write_faults self.new }
        ensures failed { OnErr result (Rose (write_faults self.old) (write_faults self.new)) }

        // The exact count.
        ensures ok_faults { OnOk result (write_faults self.new ≡ write_faults self.old) }
        ensures err_faults { OnErr result
            (write_faults self.new ≡ min (write_faults self.old + 1) (2 ^ 64 - 1)) }
    {
        match write_flushed(&mut self.inner, bytes) {
            Ok(n) => Ok(n),
            Err(failed) => {
                self.faults = self.faults.saturating_add(1);
                Err(failed)
            }
        }
    }
}

// One write, flushed. After a flush that fails the bytes that were written stay taken.
fn write_flushed<W: Write>(writer: &mut W, bytes: &[u8]) -> Result<usize, Failed>
    ensures bound { IfOk result (λ n. n ≤ length bytes.now) }
    ensures progress { IfOk result (λ n. 0 < length bytes.now → 0 < n) }
    ensures appends { IfOk result (λ n.
        Appends (W.contents writer.old) (W.contents writer.new) (take n bytes.now)) }
    ensures prefix { OnErr result
        (AppendsPrefix (W.contents writer.old) (W.contents writer.new) bytes.now) }
{
    let Ok(taken) = writer.write(bytes) else {
        return Err(Failed);
    };
    if writer.flush().is_err() {
        return Err(Failed);
    }
    if taken == 0 && !bytes.is_empty() {
        return Err(Failed);
    }
    Ok(taken)
}
