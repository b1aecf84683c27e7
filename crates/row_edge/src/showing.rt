//! Values at the end of answers.

use crate::row_fault::RowFault;
use std::fmt::Debug;

/// Puts a value at the end of a text, as `Debug` shows it.
pub fn show<T: Debug>(out: &mut String, value: &T) -> Result<(), RowFault> {
    write!(out, "{value:?}")?;
    Ok(())
}

/// Puts bytes at the end of a text, between quotes where they are a text.
pub fn show_text(out: &mut String, bytes: &[u8]) -> Result<(), RowFault> {
    match str::from_utf8(bytes) {
        Ok(text) => show(out, &text),
        Err(_) => show(out, &bytes),
    }
}
