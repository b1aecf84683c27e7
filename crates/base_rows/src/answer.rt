//! The answer to a row.

use crate::{base, devices, layouts, lists, refusals};
use row_edge::RowFault;
use std::alloc::Global;

/// Puts the answer to a line at the end of a text.
pub fn append_answer(alloc: Global, out: &mut String, line: &str) -> Result<(), RowFault> {
    let Some((library, rest)) = line.split_once(' ') else {
        return Err(RowFault::Unread);
    };
    match library {
        "containers" => lists::append_answer(alloc, out, rest),
        "class_layout" => layouts::append_answer(alloc, out, rest),
        "cxx_base" => base::append_answer(alloc, out, rest),
        "diagnostics" => refusals::append_answer(out, rest),
        "io_edge" => devices::append_answer(alloc, out, rest),
        _ => Err(RowFault::Unread),
    }
}
