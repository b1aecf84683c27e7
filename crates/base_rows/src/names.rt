//! Rows of names.

use cxx_base::library::{EXTRACT, scope_of};
use cxx_base::{Name, Names};
use row_edge::{RowFault, show, text_of};
use std::alloc::Global;
use std::str::SplitWhitespace;

/// The most names that a row makes, those of the library among them.
const MAX_NAMES: u32 = 1000;

/// Where a text stands among the names of the library.
pub fn append_found(alloc: Global, out: &mut String, text: &str) -> Result<(), RowFault> {
    let names = Names::new(alloc)?;
    show(out, &names.find(text))
}

// The number of a text, the text of that number, and where the text stands now.
fn append_numbered(out: &mut String, names: &mut Names, text: &str) -> Result<(), RowFault> {
    if names.len() >= MAX_NAMES {
        return Err(RowFault::Unread);
    }
    let name = names.number(text)?;
    show(out, &(name, names.text(name), names.find(text)))?;
    out.push(' ')?;
    Ok(())
}

/// The texts, numbered one after another behind the names of the library, how many names there are then, and the fourth.
pub fn append_numbers(
    out: &mut String,
    names: Names,
    words: SplitWhitespace<'_>,
) -> Result<(), RowFault> {
    let mut names = names;
    for word in words {
        append_numbered(out, &mut names, text_of(word)?)?;
    }
    let count = names.len();
    if count > EXTRACT.0 {
        show(out, &(count, names.text(EXTRACT)))?;
    }
    Ok(())
}

/// Where the names of these numbers are declared, if they are names of the library.
pub fn append_scopes(out: &mut String, numbers: &[u32]) -> Result<(), RowFault> {
    for number in numbers {
        show(out, &scope_of(Name(*number)))?;
        out.push(' ')?;
    }
    Ok(())
}
