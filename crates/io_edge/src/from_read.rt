//! A reader of std as a source.

ghost use Rattle.std.specs.Prelude.{◌≡◌, ◌+◌, ◌-◌, ◌^◌, ◌<◌, ◌≤◌, min, length, take, IfOk, OnOk, OnErr};
ghost use Rattle.std.specs.Io.KnownBytes.{Consumes, IsAtEnd};
ghost use Rattle.io_edge.specs.Adapters.{read_faults, reader_of};
ghost use Rattle.io_edge.specs.Edge.{LosesPrefix, Rose, TellsOn};

use crate::edge::{Failed, Source};
use std::io::Read;

/// A reader as a source. Each error of the reader is a fault, also where it was only interrupted:
/// no read is tried again. Of the bytes that are left it tells what the reader tells.
#[derive(Debug, Drop)]
pub struct FromRead<R> {
    inner: R,
    faults: u64,
}

impl<R: Read> FromRead<R> {
    /// A source over this reader, with no fault.
    pub fn new(inner: R) -> FromRead<R>
        ensures reader { reader_of result ≡ inner }
        ensures faults { read_faults result ≡ 0 }
    {
        FromRead { inner, faults: 0 }
    }

    /// How many reads failed. At its greatest value the count stands.
    pub fn faults(&self) -> u64
        ensures { result ≡ read_faults self.now }
    {
        self.faults
    }
}

impl<R: Read> Source for FromRead<R> {
    ghost faults = { λ s. read_faults s };

    ghost left = { λ s. R.remaining (reader_of s) };

    fn read(&mut self, buf: &mut [u8]) -> Result<usize, Failed>
        ensures bound { IfOk result (λ n. n ≤ length buf.new) }
        ensures end { IfOk result (λ n.
            n ≡ 0 → 0 < length buf.old → IsAtEnd (R.remaining (reader_of self.new))) }
        ensures bytes { IfOk result (λ n.
            Consumes (R.remaining (reader_of self.old)) (R.remaining (reader_of self.new)) (take n buf.new)) }
        ensures prefix { OnErr result
            (LosesPrefix (R.remaining (reader_of self.old)) (R.remaining (reader_of self.new))) }
        ensures tells { TellsOn
            (R.remaining (reader_of self.old)) (R.remaining (reader_of self.new)) }
        ensures count { read_faults self.old ≤ read_faults self.new }
        ensures failed { OnErr result (Rose (read_faults self.old) (read_faults self.new)) }

        // The exact count.
        ensures ok_faults { OnOk result (read_faults self.new ≡ read_faults self.old) }
        ensures err_faults { OnErr result
            (read_faults self.new ≡ min (read_faults self.old + 1) (2 ^ 64 - 1)) }
    {
        match self.inner.read(buf) {
            Ok(n) => Ok(n),
            Err(_) => {
                self.faults = self.faults.saturating_add(1);
                Err(Failed)
            }
        }
    }
}
