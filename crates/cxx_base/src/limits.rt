//! The limits of a translation, each once.

ghost use Rattle.std.specs.Prelude.{◌≡◌, ◌↔◌, IsTrue};
ghost use Rattle.cxx_base.specs.LimitRanges.{InRange};
ghost use Rattle.cxx_base.specs.declared.limits.TheConstants.{DEFAULT_STEPS, DEFAULT_DEPTH};

/// The greatest length of a source, in bytes.
pub const MAX_SOURCE: usize = 4_194_304;

/// The greatest length of an identifier, in bytes of its UTF-8 encoding.
pub const MAX_IDENTIFIER: usize = 255;

/// The greatest number of levels in which a source is nested.
pub const MAX_NESTING: u32 = 256;

/// The level after it, at which every rule of the grammar is too deep.
pub const TOO_DEEP: u32 = MAX_NESTING + 1;

/// The greatest number of pieces of a source.
pub const MAX_PIECES: usize = 65_536;

/// The greatest size of an object, in bytes.
pub const MAX_OBJECT: u64 = 2_147_483_648;

/// The greatest bound of an array.
pub const MAX_BOUND: u64 = 2_147_483_647;

/// The greatest number of steps that the evaluation of a root may be given.
pub const MAX_STEPS: u64 = 4_294_967_296;

/// The number of steps that it is given where none is asked for.
pub const DEFAULT_STEPS: u64 = 1_048_576;

/// The greatest number of active calls that the evaluation of a root may be given.
pub const MAX_DEPTH: u32 = 4_096;

/// The number of active calls that it is given where none is asked for.
pub const DEFAULT_DEPTH: u32 = 512;

/// The greatest number of workers.
pub const MAX_WORKERS: u32 = 32;

/// The number of workers where none is asked for.
pub const DEFAULT_WORKERS: u32 = 4;

/// The greatest number from which a source is generated.
pub const MAX_GENERATED: u32 = 10_000;

/// The greatest number of units that are translated side by side.
pub const MAX_UNITS: u32 = 256;

/// The greatest number of edits of a text that is translated anew after each.
pub const MAX_EDITS: u32 = 1_000;

/// The greatest size of an object that is written as its bytes, in bytes.
pub const MAX_IMAGE: u64 = 1_048_576;

/// What bounds the evaluation of one root, the outermost tree of a constant expression ([expr.const]).
#[derive(Clone, Copy, Debug, PartialEq, Eq)]
pub struct Limits {
    /// The greatest number of steps.
    pub steps: u64,
    /// The greatest number of calls that are active at once.
    pub depth: u32,
}

impl Default for Limits {
    ghost use Rattle.cxx_base.specs.declared.limits.TheConstants.{DEFAULT_STEPS, DEFAULT_DEPTH};

    ghost is_default = { λ l. l ≡ record { steps = DEFAULT_STEPS; depth = DEFAULT_DEPTH } };

    fn default() -> Limits {
        Limits {
            steps: DEFAULT_STEPS,
            depth: DEFAULT_DEPTH,
        }
    }
}

impl Limits {
    /// Whether they are such as an evaluation may be given: from 1 to [`MAX_STEPS`] steps, and from 1 to [`MAX_DEPTH`] calls.
    pub fn are_in_range(self) -> bool
        ensures { IsTrue result ↔ InRange self }
    {
        1 <= self.steps && self.steps <= MAX_STEPS && 1 <= self.depth && self.depth <= MAX_DEPTH
    }
}

/// What an evaluation is given where nothing is asked for is in range.
pub fn defaults_are_in_range()
    ensures { InRange (record { steps = DEFAULT_STEPS; depth = DEFAULT_DEPTH }) }
{}
