//! Rows of the layout of classes.

ghost use Rattle.std.specs.Prelude.{All, IfOk};
ghost use Rattle.class_layout.specs.Arrangement.{IsPart};

use class_layout::{
    Part, is_the_least, layout, no_two_overlap, parts_are_in_order, whole_is_aligned,
};
use cxx_base::MAX_OBJECT;
use row_edge::{RowFault, next_word, pair_of, parsed, show};
use std::alloc::Global;
use std::str::SplitWhitespace;

/// Of how many parts, the last ones, the offsets are told.
const TOLD: usize = 8;

/// Puts the answer at the end of a text: to `layout` and the parts, each as its size and the power of 2 of its alignment, to
/// `repeated` and how often one part stands, or to `laws`, each of which is called once.
pub fn append_answer(alloc: Global, out: &mut String, row: &str) -> Result<(), RowFault> {
    let mut words = row.split_whitespace();
    match next_word(&mut words)? {
        "layout" => append_layout(out, parts_of(alloc, words)?),
        "repeated" => {
            let count = parsed::<u32>(next_word(&mut words)?)?;
            let part = part_of(next_word(&mut words)?)?;
            append_layout(out, copies_of(alloc, part, count)?)
        }
        "laws" => {
            parts_are_in_order();
            no_two_overlap();
            whole_is_aligned();
            is_the_least();
            out.push_str("hold")?;
            Ok(())
        }
        _ => Err(RowFault::Unread),
    }
}

// A part at an offset that no layout gives, where there is such a part.
fn part_of(word: &str) -> Result<Part, RowFault>
    ensures { IfOk result IsPart }
{
    let (size, power) = pair_of(word)?;
    if size <= MAX_OBJECT && power <= 31 {
        Ok(Part {
            size,
            align: 1 << power,
            offset: 77,
        })
    } else {
        Err(RowFault::Unread)
    }
}

fn parts_of(alloc: Global, words: SplitWhitespace<'_>) -> Result<Vec<Part>, RowFault>
    ensures { IfOk result (λ v. All IsPart v.items) }
{
    let mut parts = Vec::new(alloc);
    for word in words {
        parts.push(part_of(word)?)?;
    }
    Ok(parts)
}

fn copies_of(alloc: Global, part: Part, count: u32) -> Result<Vec<Part>, RowFault>
    requires { IsPart part }
    ensures { IfOk result (λ v. All IsPart v.items) }
{
    let mut parts = Vec::new(alloc);
    for _ in 0..count {
        parts.push(part)?;
    }
    Ok(parts)
}

// The size and the alignment of the whole, and where its last parts begin.
fn append_layout(out: &mut String, mut parts: Vec<Part>) -> Result<(), RowFault>
    requires { All IsPart parts.items }
{
    let found = layout(parts.as_mut_slice());
    show(out, &found)?;
    if found.is_ok() {
        let untold = parts.len().saturating_sub(TOLD);
        for part in parts.as_slice().iter().skip(untold) {
            let offset = part.offset;
            write!(out, " {offset}")?;
        }
    }
    Ok(())
}
