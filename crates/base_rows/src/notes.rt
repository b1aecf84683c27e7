//! Rows of refusals and of their notes.

use cxx_base::{
    Code, EntityNo, Names, Note, Notes, PieceNo, Place, Refusal, cause, defaults_are_in_range,
    library, names_are_in_place, names_are_sent_and_shared, no_call_is_noted,
    outcomes_are_sent_and_shared,
};
use row_edge::{RowFault, show};
use std::alloc::Global;

/// The most calls that a row makes.
const MAX_CALLS: u32 = 1000;

// A call of a function, which stands at the place of its number in the first line.
fn call_of(function: u32) -> Note {
    Note {
        function: EntityNo(function),
        place: Place {
            line: 1,
            column: function,
        },
    }
}

// Of a note the function and the place, as `7@1:9`.
fn append_note(out: &mut String, note: Note) -> Result<(), RowFault> {
    let function = note.function.0;
    let line = note.place.line;
    let column = note.place.column;
    write!(out, " {function}@{line}:{column}")?;
    Ok(())
}

fn append_shown(out: &mut String, notes: Notes) -> Result<(), RowFault> {
    show(out, &notes.count)?;
    for note in notes.shown {
        append_note(out, note)?;
    }
    Ok(())
}

/// How many calls were active, and those that are shown, where calls of these functions were, the innermost first.
pub fn append_notes(out: &mut String, functions: &[u32]) -> Result<(), RowFault> {
    let mut notes = Notes::NONE;
    for function in functions {
        if notes.count > MAX_CALLS {
            return Err(RowFault::Unread);
        }
        notes = notes.called_from(call_of(*function));
    }
    append_shown(out, notes)
}

fn append_refusal(out: &mut String, refusal: Refusal) -> Result<(), RowFault> {
    show(
        out,
        &(refusal.code, refusal.detail, refusal.place, refusal.inner),
    )?;
    out.push(' ')?;
    append_shown(out, refusal.notes)
}

/// A refusal by each of the makers.
pub fn append_made(out: &mut String) -> Result<(), RowFault> {
    let place = Place { line: 3, column: 4 };
    append_refusal(out, Refusal::whole(Code::L6, Place::START))?;
    out.push_str(", ")?;
    append_refusal(out, Refusal::of_read(PieceNo(7), place))?;
    out.push_str(", ")?;
    let notes = Notes::NONE.called_from(call_of(5));
    append_refusal(
        out,
        Refusal::met(
            Code::V14,
            cause::ENDED_WITHOUT_VALUE,
            Place::START,
            place,
            notes,
        ),
    )
}

/// The laws, each of which is called once.
pub fn append_laws(alloc: Global, out: &mut String) -> Result<(), RowFault> {
    no_call_is_noted();
    names_are_in_place(&Names::new(alloc)?);
    library::names_have_their_scopes();
    defaults_are_in_range();
    names_are_sent_and_shared();
    outcomes_are_sent_and_shared::<u64>();
    out.push_str("hold")?;
    Ok(())
}
