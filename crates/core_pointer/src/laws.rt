//! What a caller needs to know of pointers.

use crate::pointer::Pointer;

fn crosses<T: Send + Sync>() {}

/// A pointer can be sent to another thread, and shared with it.
pub fn pointers_are_sent_and_shared() {
    crosses::<Pointer>();
}
