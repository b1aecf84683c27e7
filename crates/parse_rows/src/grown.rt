//! The text of a case.

use crate::asked::Repeated;
use std::alloc::{AllocError, Global};

// A line with its ends of lines.
fn with_line_ends(alloc: Global, line: &str) -> Result<String, AllocError> {
    let mut text = String::new(alloc);
    for c in line.chars() {
        text.push(if c == '$' { '\n' } else { c })?;
    }
    Ok(text)
}

fn push_times(text: &mut String, part: &str, times: u32) -> Result<(), AllocError> {
    for _ in 0..times {
        text.push_str(part)?;
    }
    Ok(())
}

// A head, what is repeated, the middle, what is repeated behind it, and a tail, with `@` between each two.
fn repeated(alloc: Global, line: &str, before: u32, behind: u32) -> Result<String, AllocError> {
    let mut parts = line.split('@');
    let mut text = String::new(alloc);
    push_times(&mut text, parts.next().unwrap_or(""), 1)?;
    push_times(&mut text, parts.next().unwrap_or(""), before)?;
    push_times(&mut text, parts.next().unwrap_or(""), 1)?;
    push_times(&mut text, parts.next().unwrap_or(""), behind)?;
    push_times(&mut text, parts.next().unwrap_or(""), 1)?;
    Ok(text)
}

/// The text that a line stands for.
pub fn text_of(alloc: Global, line: &str, times: Repeated) -> Result<String, AllocError> {
    let line = with_line_ends(alloc, line)?;
    match times {
        Repeated::Once => Ok(line),
        Repeated::Times(n) => repeated(alloc, line.as_str(), n, n),
        Repeated::Open(n) => repeated(alloc, line.as_str(), n, 0),
    }
}
