//! The parts of a class, and the whole of it.

/// A part of a class, a base or a data member ([class.mem]).
#[derive(Clone, Copy, Debug, PartialEq, Eq)]
pub struct Part {
    /// How many bytes it takes.
    pub size: u64,
    /// What its offset is a multiple of ([basic.align]): a power of 2.
    pub align: u64,
    /// Where it begins, in bytes from the beginning of the class.
    pub offset: u64,
}

/// The size and the alignment of a class, in bytes ([expr.sizeof], [basic.align]).
#[derive(Clone, Copy, Debug, PartialEq, Eq)]
pub struct Layout {
    pub size: u64,
    pub align: u64,
}

/// The class would take more bytes than [`MAX_OBJECT`](cxx_base::MAX_OBJECT).
#[derive(Clone, Copy, Debug, PartialEq, Eq)]
pub struct TooLarge;
