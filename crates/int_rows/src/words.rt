//! The words of a row: kinds, operators, numbers and suffixes.

ghost use Rattle.std.specs.Prelude.{◌≤◌, IfOk};

use int_kinds::{CompareOp, IntKind, IntOp};
use row_edge::{RowFault, next_word, parsed};
use std::str::SplitWhitespace;

// Each kind once.
const KINDS: [IntKind; 12] = [
    IntKind::Bool,
    IntKind::Char,
    IntKind::SChar,
    IntKind::UChar,
    IntKind::Short,
    IntKind::UShort,
    IntKind::Int,
    IntKind::UInt,
    IntKind::Long,
    IntKind::ULong,
    IntKind::LongLong,
    IntKind::ULongLong,
];

/// The kind that the next word names.
pub fn next_kind(words: &mut SplitWhitespace<'_>) -> Result<IntKind, RowFault> {
    let word = next_word(words)?;
    for kind in KINDS {
        if name_of(kind) == word {
            return Ok(kind);
        }
    }
    Err(RowFault::Unread)
}

/// The word of a kind.
pub fn name_of(kind: IntKind) -> &'static str {
    match kind {
        IntKind::Bool => "bool",
        IntKind::Char => "char",
        IntKind::SChar => "schar",
        IntKind::UChar => "uchar",
        IntKind::Short => "short",
        IntKind::UShort => "ushort",
        IntKind::Int => "int",
        IntKind::UInt => "uint",
        IntKind::Long => "long",
        IntKind::ULong => "ulong",
        IntKind::LongLong => "llong",
        IntKind::ULongLong => "ullong",
    }
}

/// The binary operator that the next word is.
pub fn next_operator(words: &mut SplitWhitespace<'_>) -> Result<IntOp, RowFault> {
    match next_word(words)? {
        "+" => Ok(IntOp::Add),
        "-" => Ok(IntOp::Sub),
        "*" => Ok(IntOp::Mul),
        "/" => Ok(IntOp::Div),
        "%" => Ok(IntOp::Rem),
        "<<" => Ok(IntOp::Shl),
        ">>" => Ok(IntOp::Shr),
        "&" => Ok(IntOp::And),
        "|" => Ok(IntOp::Or),
        "^" => Ok(IntOp::Xor),
        _ => Err(RowFault::Unread),
    }
}

/// The comparison that the next word is.
pub fn next_comparison(words: &mut SplitWhitespace<'_>) -> Result<CompareOp, RowFault> {
    match next_word(words)? {
        "<" => Ok(CompareOp::Lt),
        "<=" => Ok(CompareOp::Le),
        ">" => Ok(CompareOp::Gt),
        ">=" => Ok(CompareOp::Ge),
        "==" => Ok(CompareOp::Eq),
        "!=" => Ok(CompareOp::Ne),
        _ => Err(RowFault::Unread),
    }
}

/// The number that the next word is.
pub fn next_number(words: &mut SplitWhitespace<'_>) -> Result<i128, RowFault> {
    parsed::<i128>(next_word(words)?)
}

/// The value of a literal that the next word is.
pub fn next_value(words: &mut SplitWhitespace<'_>) -> Result<u64, RowFault> {
    parsed::<u64>(next_word(words)?)
}

/// Whether the base that the next word is stands for a decimal literal.
pub fn next_base(words: &mut SplitWhitespace<'_>) -> Result<bool, RowFault> {
    match next_word(words)? {
        "10" => Ok(true),
        "2" | "8" | "16" => Ok(false),
        _ => Err(RowFault::Unread),
    }
}

/// The suffix of a literal: whether it has a `u`, and how many `l`.
#[derive(Clone, Copy)]
pub struct Suffix {
    pub unsigned: bool,
    pub longs: u32,
}

/// The suffix that the next word is, `-` for none.
pub fn next_suffix(words: &mut SplitWhitespace<'_>) -> Result<Suffix, RowFault>
    ensures { IfOk result (λ suffix. suffix.longs ≤ 2) }
{
    let (unsigned, longs) = match next_word(words)? {
        "-" => (false, 0),
        "u" => (true, 0),
        "l" => (false, 1),
        "ul" => (true, 1),
        "ll" => (false, 2),
        "ull" => (true, 2),
        _ => return Err(RowFault::Unread),
    };
    Ok(Suffix { unsigned, longs })
}
