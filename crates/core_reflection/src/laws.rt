//! What a caller needs to know of reflections.

use crate::reflection::Reflection;

fn crosses<T: Send + Sync>() {}

/// A reflection can be sent to another thread, and shared with it.
pub fn reflections_are_sent_and_shared() {
    crosses::<Reflection>();
}
