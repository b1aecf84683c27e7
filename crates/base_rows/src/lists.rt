//! Rows of boxes and lists.

use containers::{Boxed, Items};
use row_edge::{RowFault, all_parsed, next_word, parsed, show};
use std::alloc::Global;
use std::str::SplitWhitespace;

/// Puts the answer at the end of a text.
pub fn append_answer(alloc: Global, out: &mut String, row: &str) -> Result<(), RowFault> {
    let mut words = row.split_whitespace();
    match next_word(&mut words)? {
        "boxed" => append_boxed(alloc, out, parsed::<u64>(next_word(&mut words)?)?),
        "items" => append_items(alloc, out, words),
        "get" => {
            let at = parsed::<usize>(next_word(&mut words)?)?;
            append_item(alloc, out, at, all_parsed::<u64>(alloc, words)?)
        }
        _ => Err(RowFault::Unread),
    }
}

// What a box holds, and what it gives.
fn append_boxed(alloc: Global, out: &mut String, value: u64) -> Result<(), RowFault> {
    let boxed = Boxed::new(alloc, value)?;
    let held = *boxed.get();
    show(out, &(held, boxed.into_inner()))
}

// `-` takes the last item away, and a number is put behind it.
fn change(out: &mut String, items: &mut Items<u64>, word: &str) -> Result<(), RowFault> {
    if word == "-" {
        show(out, &items.pop())?;
        out.push(' ')?;
    } else {
        items.push(parsed::<u64>(word)?)?;
    }
    Ok(())
}

// A list that each word changes: its items, how many there are, and whether there is none.
fn append_items(
    alloc: Global,
    out: &mut String,
    words: SplitWhitespace<'_>,
) -> Result<(), RowFault> {
    let mut items = Items::new(alloc);
    for word in words {
        change(out, &mut items, word)?;
    }
    show(out, &(items.as_slice(), items.len(), items.is_empty()))
}

// The item at a place of a list that is made of a copy, and of one that is made of the items themselves.
fn append_item(
    alloc: Global,
    out: &mut String,
    at: usize,
    numbers: Vec<u64>,
) -> Result<(), RowFault> {
    let copy = Items::from_slice(alloc, numbers.as_slice())?;
    let whole = Items::from_vec(numbers);
    show(out, &(copy.get(at), copy.as_slice()))?;
    out.push(' ')?;
    show(out, &(whole.get(at), whole.as_slice()))
}
