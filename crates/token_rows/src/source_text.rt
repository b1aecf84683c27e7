//! The bytes that a row's source means.

use cxx_base::Bytes;
use row_edge::RowFault;
use std::alloc::Global;
use std::str::Chars;

/// The bytes of a source as a row writes it. It is not understood where an escape is none of these: `\n`, `\r`, `\t`, `\\`, `\x` and
/// two hexadecimal digits for a byte, and `\u{..}` for a character.
pub fn source_bytes(alloc: Global, text: &str) -> Result<Bytes, RowFault> {
    let mut out = Bytes::new(alloc);
    let mut characters = text.chars();
    // each turn takes a character at least
    for _ in 0..text.len() {
        match characters.next() {
            Some('\\') => append_escape(&mut out, &mut characters)?,
            Some(character) => append_character(&mut out, character)?,
            None => break,
        }
    }
    Ok(out)
}

// The escape whose backslash was taken.
fn append_escape(out: &mut Bytes, characters: &mut Chars<'_>) -> Result<(), RowFault> {
    match characters.next() {
        Some('n') => append_byte(out, b'\n'),
        Some('r') => append_byte(out, b'\r'),
        Some('t') => append_byte(out, b'\t'),
        Some('\\') => append_byte(out, b'\\'),
        Some('x') => append_byte(out, byte_of(characters).ok_or(RowFault::Unread)?),
        Some('u') => append_character(out, character_of(characters).ok_or(RowFault::Unread)?),
        _ => Err(RowFault::Unread),
    }
}

fn append_byte(out: &mut Bytes, byte: u8) -> Result<(), RowFault> {
    out.push(byte)?;
    Ok(())
}

fn append_character(out: &mut Bytes, character: char) -> Result<(), RowFault> {
    let mut buffer = [0; 4];
    let text = character.encode_utf8(&mut buffer);
    out.extend(text.as_bytes())?;
    Ok(())
}

// The number with one more hexadecimal digit.
fn with_digit(number: u32, character: char) -> Option<u32> {
    let digit = character.to_digit(16)?;
    number.checked_mul(16)?.checked_add(digit)
}

fn byte_of(characters: &mut Chars<'_>) -> Option<u8> {
    let high = with_digit(0, characters.next()?)?;
    let both = with_digit(high, characters.next()?)?;
    u8::try_from(both).ok()
}

fn character_of(characters: &mut Chars<'_>) -> Option<char> {
    if characters.next()? != '{' {
        return None;
    }
    let mut number = 0;
    // no character has a number of more than six digits
    for _ in 0..7 {
        match characters.next()? {
            '}' => return char::from_u32(number),
            digit => number = with_digit(number, digit)?,
        }
    }
    None
}
