//! Fundamental types as they are written.

use cxx_base::IntKind;

/// A type that words alone name ([dcl.type.simple]).
#[derive(Clone, Copy, Debug, PartialEq, Eq)]
pub enum Fund {
    Void,
    Int(IntKind),
}
