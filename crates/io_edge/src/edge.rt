//! What a source and a sink promise.

ghost use Rattle.std.specs.Prelude.{◌≡◌, ℕ, ◌<◌, ◌≤◌, List, Option, length, take, IfOk, OnErr};
ghost use Rattle.std.specs.Io.KnownBytes.{Appends, Consumes, IsAtEnd};
ghost use Rattle.io_edge.specs.Edge.{AppendsPrefix, LosesPrefix, Rose, TellsOn};

/// A call of a source or a sink failed. The object counted a fault.
#[derive(Clone, Copy, Debug, PartialEq, Eq)]
pub struct Failed;

/// What bytes are read from.
///
/// `faults` counts the calls that failed, and never falls. `left` is what is left to read, where
/// the object tells it.
pub trait Source {
    ghost faults: { Self → ℕ };

    ghost left: { Self → Option (List ℕ) };

    /// Puts bytes into the start of `buf`, and answers how many. 0 for a buffer that is not empty
    /// says that no byte is left.
    fn read(&mut self, buf: &mut [u8]) -> Result<usize, Failed>
        ensures bound { IfOk result (λ n. n ≤ length buf.new) }
        ensures end { IfOk result (λ n. n ≡ 0 → 0 < length buf.old → IsAtEnd (left self.new)) }
        ensures bytes { IfOk result (λ n.
            Consumes (left self.old) (left self.new) (take n buf.new)) }
        ensures prefix { OnErr result (LosesPrefix (left self.old) (left self.new)) }
        ensures tells { TellsOn (left self.old) (left self.new) }
        ensures count { faults self.old ≤ faults self.new }
        ensures failed { OnErr result (Rose (faults self.old) (faults self.new)) };
}

/// What bytes are written to.
///
/// `faults` counts the calls that failed, and never falls. `held` is what was written so far, where
/// the object tells it.
pub trait Sink {
    ghost faults: { Self → ℕ };

    ghost held: { Self → Option (List ℕ) };

    /// Takes the first of `bytes`, and answers how many: at least one where there is one.
    fn write(&mut self, bytes: &[u8]) -> Result<usize, Failed>
        ensures bound { IfOk result (λ n. n ≤ length bytes.now) }
        ensures progress { IfOk result (λ n. 0 < length bytes.now → 0 < n) }
        ensures appends { IfOk result (λ n.
            Appends (held self.old) (held self.new) (take n bytes.now)) }
        ensures prefix { OnErr result (AppendsPrefix (held self.old) (held self.new) bytes.now) }
        ensures tells { TellsOn (held self.old) (held self.new) }
        ensures count { faults self.old ≤ faults self.new }
        ensures failed { OnErr result (Rose (faults self.old) (faults self.new)) };
}
