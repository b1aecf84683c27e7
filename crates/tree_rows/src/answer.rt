//! The answer to a row.

use crate::plain::{layer_of, layered, plain, show_layers};
use crate::sizes::size_of_named;
use cxx_tree::{CxxType, Layers};
use cxx_type::types_are_sent_and_shared;
use row_edge::{RowFault, parsed};
use std::alloc::Global;

// The word before the first space, and what stands behind it.
fn cut(line: &str) -> (&str, &str) {
    line.split_once(' ').unwrap_or((line, ""))
}

// Takes layers off.
fn less(layers: Layers, n: u64) -> Result<Layers, RowFault> {
    let mut layers = layers;
    for _ in 0..n {
        layers = layers.under()?;
    }
    Ok(layers)
}

// The last of so many copies, each of the one before.
fn copied(layers: &Layers, n: u64) -> Result<Layers, RowFault> {
    let mut copy = layers.copy()?;
    for _ in 0..n {
        let next = copy.copy()?;
        copy = next;
    }
    Ok(copy)
}

fn truth(out: &mut String, is_true: bool) -> Result<(), RowFault> {
    out.push_str(if is_true { "true" } else { "false" })?;
    Ok(())
}

fn append_type(alloc: Global, out: &mut String, words: &str) -> Result<(), RowFault> {
    let of = plain(alloc, words)?;
    show_layers(out, of.layers.copy()?)
}

fn append_same(alloc: Global, out: &mut String, words: &str) -> Result<(), RowFault> {
    let (one, other) = match words.split_once(" | ") {
        Some(both) => both,
        None => return Err(RowFault::Unread),
    };
    let one: CxxType = plain(alloc, one)?;
    let other: CxxType = plain(alloc, other)?;
    truth(out, one.same(&other))
}

// The types between which bars stand.
fn listed(alloc: Global, words: &str) -> Result<Vec<CxxType>, RowFault> {
    let mut types = Vec::new(alloc);
    for one in words.split(" | ") {
        types.push(plain(alloc, one)?)?;
    }
    Ok(types)
}

// The numbers, from 1, of the types that one is equal to.
fn append_equal(out: &mut String, one: &CxxType, types: &[CxxType]) -> Result<(), RowFault> {
    let mut is_first = true;
    for n in 0..types.len() {
        if one.same(&types[n]) {
            if !is_first {
                out.push(',')?;
            }
            is_first = false;
            write!(out, "{}", n as u64 + 1)?;
        }
    }
    Ok(())
}

fn append_alike(alloc: Global, out: &mut String, words: &str) -> Result<(), RowFault> {
    let types = listed(alloc, words)?;
    for n in 0..types.len() {
        if n > 0 {
            out.push(' ')?;
        }
        append_equal(out, &types[n], types.as_slice())?;
    }
    Ok(())
}

fn append_less(alloc: Global, out: &mut String, words: &str) -> Result<(), RowFault> {
    let (n, rest) = cut(words);
    let (times, rest) = cut(rest);
    let layers = layered(alloc, parsed::<u64>(times)?, rest)?;
    show_layers(out, less(layers, parsed::<u64>(n)?)?)
}

fn append_run(alloc: Global, out: &mut String, words: &str) -> Result<(), RowFault> {
    let (n, rest) = cut(words);
    let (word, rest) = cut(rest);
    let Some(layer) = layer_of(word) else {
        return Err(RowFault::Unread);
    };
    let layers = layered(alloc, 1, rest)?;
    show_layers(out, layers.over_run(alloc, layer, parsed::<u64>(n)?)?)
}

fn append_shared(alloc: Global, out: &mut String, words: &str) -> Result<(), RowFault> {
    let (n, rest) = cut(words);
    let (times, rest) = cut(rest);
    let layers = layered(alloc, parsed::<u64>(times)?, rest)?;
    let copy = copied(&layers, parsed::<u64>(n)?)?;
    truth(out, copy.same(&layers))
}

fn append_twice(alloc: Global, out: &mut String, words: &str) -> Result<(), RowFault> {
    let (times, rest) = cut(words);
    let one = layered(alloc, parsed::<u64>(times)?, rest)?;
    let other = layered(alloc, parsed::<u64>(times)?, rest)?;
    truth(out, one.same(&other))
}

fn append_times(alloc: Global, out: &mut String, words: &str) -> Result<(), RowFault> {
    let (times, rest) = cut(words);
    show_layers(out, layered(alloc, parsed::<u64>(times)?, rest)?)
}

fn append_size(out: &mut String, words: &str) -> Result<(), RowFault> {
    let (name, most) = cut(words);
    let most = parsed::<u64>(most)?;
    match size_of_named(name) {
        Some(size) => truth(out, size as u64 <= most),
        None => Err(RowFault::Unread),
    }
}

// Each law, called once.
fn append_laws(out: &mut String) -> Result<(), RowFault> {
    types_are_sent_and_shared();
    out.push_str("hold")?;
    Ok(())
}

/// Puts the answer to a line at the end of a text.
pub fn append_answer(alloc: Global, out: &mut String, line: &str) -> Result<(), RowFault> {
    let (asked, rest) = cut(line);
    match asked {
        "type" => append_type(alloc, out, rest),
        "same" => append_same(alloc, out, rest),
        "alike" => append_alike(alloc, out, rest),
        "times" => append_times(alloc, out, rest),
        "less" => append_less(alloc, out, rest),
        "run" => append_run(alloc, out, rest),
        "shared" => append_shared(alloc, out, rest),
        "twice" => append_twice(alloc, out, rest),
        "size" => append_size(out, rest),
        "laws" => append_laws(out),
        _ => Err(RowFault::Unread),
    }
}
