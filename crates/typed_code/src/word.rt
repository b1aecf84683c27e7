//! What the nodes of code say, their parts aside.

use cxx_base::{IntKind, IntOp};

/// What an implicit or explicit conversion does to a value ([conv], [expr.static.cast]).
#[derive(Clone, Copy, Debug, PartialEq, Eq)]
pub enum Convert {
    /// Nothing: the type alone changes.
    Same,
    /// A whole number or an enumeration becomes the number of this kind; of bool, whether it is not 0.
    ToKind(IntKind),
    /// The null pointer constant becomes a null pointer.
    ToNull,
    /// A pointer becomes whether it is not null.
    PointerToBool,
    /// The place of an array becomes the pointer to its first element.
    Decay,
    /// The place of a string literal becomes the view of its bytes before the first zero. A step for each byte is paid beside.
    TextToView,
    /// The value is let go: `void`.
    Discard,
}

/// A prefix operator ([expr.unary.op]).
#[derive(Clone, Copy, Debug, PartialEq, Eq)]
pub enum UnaryCode {
    Plus,
    Minus(IntKind),
    Not,
    Complement(IntKind),
    /// From a pointer to the place.
    Deref,
    /// From a place to the pointer.
    AddressOf,
}

/// What is compared.
#[derive(Clone, Copy, Debug, PartialEq, Eq)]
pub enum Compared {
    Numbers,
    Pointers,
    Reflections,
    Views,
}

/// An operator on a pointer ([expr.add]).
#[derive(Clone, Copy, Debug, PartialEq, Eq)]
pub enum PointerOp {
    /// `p + n`
    PlusNumber,
    /// `n + p`
    NumberPlus,
    /// `p - n`
    MinusNumber,
    /// `p - q`
    Difference,
}

/// What a compound assignment does: it computes in a kind, from which the result is converted to that of the left side, or moves a pointer.
#[derive(Clone, Copy, Debug, PartialEq, Eq)]
pub enum CompoundOp {
    Int {
        op: IntOp,
        kind: IntKind,
        to: IntKind,
    },
    PointerPlus,
    PointerMinus,
}

/// What `++` and `--` change: a number that is computed with in a kind and converted to that of its type, or a pointer.
#[derive(Clone, Copy, Debug, PartialEq, Eq)]
pub enum Stepped {
    Number { kind: IntKind, to: IntKind },
    Pointer,
}

/// An operation of a `std::vector<std::meta::info>` or a `std::string_view`. Its object is the place of one; what is a value, as the answer of a
/// query is, stands in a `Temporary`.
#[derive(Clone, Copy, Debug, PartialEq, Eq)]
pub enum LibraryOp {
    PushBack,
    PopBack,
    Clear,
    Size,
    IsEmpty,
    Front,
    Back,
    /// `[ ]` of a vector.
    At,
    ViewSize,
    ViewIsEmpty,
    /// `[ ]` of a view.
    ViewAt,
}

/// How the object of such an operation is named.
#[derive(Clone, Copy, Debug, PartialEq, Eq)]
pub enum NamedBy {
    /// `[ ]`, without a further step.
    Subscript,
    /// `.`, which is 1 step.
    Dot,
    /// `->`, which is 2 steps.
    Arrow,
}
