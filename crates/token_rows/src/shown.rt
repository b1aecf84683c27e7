//! Tokens, places and faults in words.

use crate::punctuators::spelling;
use cxx_base::{Name, Names, Place};
use cxx_tokens::{LexFault, Token, TokenKind, Tokens};
use row_edge::RowFault;
use std::alloc::AllocError;

// A token's kind: of integers whether they are decimal, whether they have a `u`, how many `l`, and the value.
fn append_kind(out: &mut String, names: &Names, kind: &TokenKind) -> Result<(), AllocError> {
    match kind {
        TokenKind::Identifier(name) => append_name(out, names, *name),
        TokenKind::Word(number) => write!(out, "word {number}"),
        TokenKind::Punctuator(number) => out.push_str(spelling(*number)),
        TokenKind::Integer {
            decimal,
            unsigned,
            longs,
            n,
        } => write!(out, "{decimal} {unsigned} {longs} {n}"),
        TokenKind::Character(byte) => write!(out, "'{byte}"),
        TokenKind::Text(bytes) => write!(out, "{:?}", bytes.get().as_slice()),
    }
}

fn append_name(out: &mut String, names: &Names, name: Name) -> Result<(), AllocError> {
    if name.0 < names.len() {
        out.push_str(names.text(name))
    } else {
        out.push_str("no name")
    }
}

/// The kinds of all tokens, each with a semicolon behind it.
pub fn append_kinds(out: &mut String, names: &Names, tokens: &[Token]) -> Result<(), RowFault> {
    if tokens.is_empty() {
        out.push_str("no token")?;
    }
    for (at, token) in tokens.iter().enumerate() {
        if at > 0 {
            out.push(' ')?;
        }
        append_kind(out, names, &token.kind)?;
        out.push_str(" ;")?;
    }
    Ok(())
}

fn append_place(out: &mut String, place: Place) -> Result<(), AllocError> {
    let line = place.line;
    let column = place.column;
    write!(out, "{line}:{column}")
}

/// The span of each token, the end of the source, and the names from number `known` on.
pub fn append_places(
    out: &mut String,
    names: &Names,
    known: u32,
    found: &Tokens,
) -> Result<(), RowFault> {
    for token in found.list.as_slice() {
        append_place(out, token.span.place)?;
        let first = token.span.first;
        let end = token.span.end;
        write!(out, " {first}-{end} ; ")?;
    }
    out.push_str("end ")?;
    append_place(out, found.end)?;
    out.push_str(" ; names")?;
    for number in known..names.len() {
        write!(out, " {number} ")?;
        append_name(out, names, Name(number))?;
    }
    Ok(())
}

/// A fault's code and place.
pub fn append_fault(out: &mut String, fault: LexFault) -> Result<(), RowFault> {
    let (code, place) = match fault {
        LexFault::L1(place) => ("L1 ", place),
        LexFault::L2(place) => ("L2 ", place),
        LexFault::L3(place) => ("L3 ", place),
        LexFault::L4(place) => ("L4 ", place),
        LexFault::L5(place) => ("L5 ", place),
        LexFault::Memory => return Err(RowFault::Memory),
    };
    out.push_str(code)?;
    append_place(out, place)?;
    Ok(())
}
