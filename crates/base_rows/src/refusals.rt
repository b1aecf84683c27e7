//! Rows of the names and texts of refusals.

use cxx_base::Code::{
    L1, L2, L3, L4, L5, L6, M1, M2, M3, M4, M5, M6, M7, N1, N2, N3, N4, N5, P1, P2, R1, S1, S2, T1,
    T2, T3, T4, T5, T6, T7, T8, T9, T10, V1, V2, V3, V4, V5, V6, V7, V8, V9, V10, V11, V12, V13,
    V14, V15,
};
use cxx_base::{Code, Notes, Place, Refusal};
use diagnostics::{name, text};
use row_edge::{RowFault, next_word, parsed, show};

/// The codes of each letter in order, so that a row names a code without the names that it asks for.
const L: [Code; 6] = [L1, L2, L3, L4, L5, L6];

const S: [Code; 2] = [S1, S2];

const P: [Code; 2] = [P1, P2];

const N: [Code; 5] = [N1, N2, N3, N4, N5];

const T: [Code; 10] = [T1, T2, T3, T4, T5, T6, T7, T8, T9, T10];

const V: [Code; 15] = [
    V1, V2, V3, V4, V5, V6, V7, V8, V9, V10, V11, V12, V13, V14, V15,
];

const M: [Code; 7] = [M1, M2, M3, M4, M5, M6, M7];

const R: [Code; 1] = [R1];

fn numbered(codes: &[Code], number: u32) -> Result<Code, RowFault> {
    match codes.get((number as usize).wrapping_sub(1)) {
        Some(code) => Ok(*code),
        None => Err(RowFault::Unread),
    }
}

// The code that a word names by its letter and its number, as `T10`.
fn code_of(word: &str) -> Result<Code, RowFault> {
    let mut characters = word.chars();
    let letter = characters.next();
    let number = parsed::<u32>(characters.as_str())?;
    match letter {
        Some('L') => numbered(&L, number),
        Some('S') => numbered(&S, number),
        Some('P') => numbered(&P, number),
        Some('N') => numbered(&N, number),
        Some('T') => numbered(&T, number),
        Some('V') => numbered(&V, number),
        Some('M') => numbered(&M, number),
        Some('R') => numbered(&R, number),
        _ => Err(RowFault::Unread),
    }
}

/// Puts the answer to `refusal`, a code and a detail at the end of a text: the name of the code, and the text.
pub fn append_answer(out: &mut String, row: &str) -> Result<(), RowFault> {
    let mut words = row.split_whitespace();
    if next_word(&mut words)? != "refusal" {
        return Err(RowFault::Unread);
    }
    let code = code_of(next_word(&mut words)?)?;
    let detail = parsed::<u64>(next_word(&mut words)?)?;
    let refusal = Refusal::met(code, detail, Place::START, Place::START, Notes::NONE);
    show(out, &(name(code), text(&refusal)))
}
