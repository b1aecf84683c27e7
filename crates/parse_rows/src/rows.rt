//! Headings and the lines below them.

use crate::answer::answer;
use crate::asked::{Asked, questions};
use cxx_base::{Memory, Names};
use std::alloc::{AllocError, Global};

fn lines_of<'a>(alloc: Global, text: &'a str) -> Result<Vec<&'a str>, AllocError> {
    let mut lines = Vec::new(alloc);
    for line in text.split('\n') {
        lines.push(line)?;
    }
    Ok(lines)
}

// A line with what is answered to each question.
fn put_row(
    alloc: Global,
    names: &mut Names,
    out: &mut String,
    asked: &[Asked],
    rows: &[&str],
    n: usize,
) -> Result<(), Memory> {
    out.push_str(rows.get(n).copied().unwrap_or(""))?;
    for (k, question) in asked.iter().enumerate() {
        let answer = answer(alloc, names, *question, rows, n)?;
        out.push_str(if k > 0 { "; " } else { " => " })?;
        out.push_str(answer.as_str())?;
    }
    out.push_str("\n")?;
    Ok(())
}

fn put_rows(
    alloc: Global,
    names: &mut Names,
    out: &mut String,
    asked: &[Asked],
    rows: &str,
) -> Result<(), Memory> {
    let rows = lines_of(alloc, rows)?;
    for n in 0..rows.len() {
        put_row(alloc, names, out, asked, rows.as_slice(), n)?;
    }
    Ok(())
}

fn put_heading(out: &mut String, heading: &str, is_question: bool) -> Result<(), AllocError> {
    out.push_str("== ")?;
    out.push_str(heading)?;
    out.push_str(if is_question {
        "\n"
    } else {
        " => no question\n"
    })
}

// A heading without its `== `, and the lines below it.
fn put_group(
    alloc: Global,
    names: &mut Names,
    out: &mut String,
    group: &str,
) -> Result<(), Memory> {
    let (heading, rows) = match group.split_once('\n') {
        Some((heading, rows)) => (heading, Some(rows)),
        None => (group, None),
    };
    let asked = questions(alloc, heading)?;
    put_heading(out, heading, !asked.is_empty())?;
    match rows {
        Some(rows) => put_rows(alloc, names, out, asked.as_slice(), rows),
        None => Ok(()),
    }
}

/// The groups of a text with their answers.
pub fn answers(alloc: Global, text: &str) -> Result<String, Memory> {
    let text = text.strip_suffix('\n').unwrap_or(text);
    let text = text.strip_prefix("== ").unwrap_or(text);
    let mut names = Names::new(alloc)?;
    let mut out = String::new(alloc);
    for group in text.split("\n== ") {
        put_group(alloc, &mut names, &mut out, group)?;
    }
    Ok(out)
}
