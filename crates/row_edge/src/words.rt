//! The words of a row: numbers, pairs of numbers, settings and texts.

ghost use Rattle.std.specs.Prelude.{◌≡◌, Ok, MatchResult, IsOkUnless};

use crate::row_fault::RowFault;
use std::alloc::Global;
use std::str::{FromStr, SplitWhitespace};

/// The word that comes next.
pub fn next_word<'a>(words: &mut SplitWhitespace<'a>) -> Result<&'a str, RowFault>
    ensures { IsOkUnless result RowFault.Unread }
{
    match words.next() {
        Some(word) => Ok(word),
        None => Err(RowFault::Unread),
    }
}

/// The number, or whatever else, that a word is.
pub fn parsed<T: FromStr>(word: &str) -> Result<T, RowFault>
where
    T::Err: Drop,
    ensures { MatchResult result (λ value. T.from_str_gives word.now (Ok value)) (λ fault. fault ≡ RowFault.Unread) }
{
    match word.parse::<T>() {
        Ok(value) => Ok(value),
        Err(_) => Err(RowFault::Unread),
    }
}

/// What all words are.
pub fn all_parsed<T: FromStr + Drop>(
    alloc: Global,
    words: SplitWhitespace<'_>,
) -> Result<Vec<T>, RowFault>
where
    T::Err: Drop,
{
    let mut values = Vec::new(alloc);
    for word in words {
        values.push(parsed::<T>(word)?)?;
    }
    Ok(values)
}

/// The two numbers of a word, as `1/0`.
pub fn pair_of(word: &str) -> Result<(u64, u32), RowFault>
    ensures { IsOkUnless result RowFault.Unread }
{
    match word.split_once('/') {
        Some((first, second)) => Ok((parsed::<u64>(first)?, parsed::<u32>(second)?)),
        None => Err(RowFault::Unread),
    }
}

/// The text that a word has between quotes.
pub fn text_of(word: &str) -> Result<&str, RowFault>
    ensures { IsOkUnless result RowFault.Unread }
{
    let Some(("", rest)) = word.split_once('"') else {
        return Err(RowFault::Unread);
    };
    match rest.split_once('"') {
        Some((text, "")) => Ok(text),
        _ => Err(RowFault::Unread),
    }
}

/// What stands behind the name of a setting, as 5 in `cap=5`.
pub fn next_setting<'a>(words: &mut SplitWhitespace<'a>, name: &str) -> Result<&'a str, RowFault>
    ensures { IsOkUnless result RowFault.Unread }
{
    match next_word(words)?.split_once('=') {
        Some((setting, value)) if setting == name => Ok(value),
        _ => Err(RowFault::Unread),
    }
}
