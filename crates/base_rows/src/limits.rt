//! Rows of the limits.

use cxx_base::{
    DEFAULT_WORKERS, Limits, MAX_BOUND, MAX_DEPTH, MAX_EDITS, MAX_GENERATED, MAX_IDENTIFIER,
    MAX_IMAGE, MAX_NESTING, MAX_OBJECT, MAX_PIECES, MAX_SOURCE, MAX_STEPS, MAX_UNITS, MAX_WORKERS,
};
use row_edge::{RowFault, show};

/// The limits of a source, of objects, of an evaluation that is asked for none, of those that are asked for, and of commands.
pub fn append_limits(out: &mut String) -> Result<(), RowFault> {
    show(out, &[MAX_SOURCE, MAX_IDENTIFIER, MAX_PIECES])?;
    out.push(' ')?;
    show(out, &MAX_NESTING)?;
    out.push(' ')?;
    show(out, &[MAX_OBJECT, MAX_BOUND, MAX_IMAGE])?;
    out.push(' ')?;
    show(out, &Limits::default())?;
    out.push(' ')?;
    show(out, &(MAX_STEPS, MAX_DEPTH))?;
    out.push(' ')?;
    show(
        out,
        &[
            DEFAULT_WORKERS,
            MAX_WORKERS,
            MAX_GENERATED,
            MAX_UNITS,
            MAX_EDITS,
        ],
    )
}

/// Whether an evaluation may be given so many steps and so many active calls.
pub fn append_range(out: &mut String, steps: u64, depth: u32) -> Result<(), RowFault> {
    show(out, &Limits { steps, depth }.are_in_range())
}
