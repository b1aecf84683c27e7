//! What the translation of a source gives.

use containers::Boxed;
use cxx_base::{Name, Refusal};

/// The outcome of a piece, which is a declaration here.
///
/// A refusal is large, so it is in a box, and a list of outcomes is not made of elements as large as a refusal.
#[derive(Debug)]
pub enum Outcome {
    /// A constexpr variable of type `const int`, and its value.
    Constant { name: Name, value: i128 },
    Refused(Boxed<Refusal>),
}

impl Drop for Outcome {
    fn drop(self) {
        match self {
            Outcome::Constant { name: _, value: _ } => {}
            Outcome::Refused(_) => {}
        }
    }
}
