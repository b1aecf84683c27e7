//! The words of fundamental types, and what they name.

ghost use Rattle.std.specs.Prelude.{◌≡◌};
ghost use Rattle.cxx_grammar.specs.Fundamentals as spec;

use cxx_base::IntKind;
use cxx_grammar::{Sign, TypeWords, Width};
use cxx_tokens::keyword::{CHAR, INT, LONG, SHORT, SIGNED, UNSIGNED};
use cxx_tree::Fund;

fn with_sign(sign: Sign, before: Sign, width: Width, has_int: bool) -> Option<TypeWords>
    ensures { result ≡ spec.with_sign sign before width has_int }
{
    match before {
        Sign::None => match width {
            Width::Char => None,
            _ => Some(TypeWords {
                sign,
                width,
                has_int,
            }),
        },
        Sign::Signed => None,
        Sign::Unsigned => None,
    }
}

fn with_char(sign: Sign, width: Width, has_int: bool) -> Option<TypeWords>
    ensures { result ≡ spec.with_char sign width has_int }
{
    match width {
        Width::None => {
            if has_int {
                None
            } else {
                Some(TypeWords {
                    sign,
                    width: Width::Char,
                    has_int: false,
                })
            }
        }
        _ => None,
    }
}

fn with_short(sign: Sign, width: Width, has_int: bool) -> Option<TypeWords>
    ensures { result ≡ spec.with_short sign width has_int }
{
    match width {
        Width::None => Some(TypeWords {
            sign,
            width: Width::Short,
            has_int,
        }),
        _ => None,
    }
}

fn with_long(sign: Sign, width: Width, has_int: bool) -> Option<TypeWords>
    ensures { result ≡ spec.with_long sign width has_int }
{
    match width {
        Width::None => Some(TypeWords {
            sign,
            width: Width::Long,
            has_int,
        }),
        Width::Long => Some(TypeWords {
            sign,
            width: Width::LongLong,
            has_int,
        }),
        _ => None,
    }
}

fn with_int(sign: Sign, width: Width, has_int: bool) -> Option<TypeWords>
    ensures { result ≡ spec.with_int sign width has_int }
{
    match width {
        Width::Char => None,
        _ => {
            if has_int {
                None
            } else {
                Some(TypeWords {
                    sign,
                    width,
                    has_int: true,
                })
            }
        }
    }
}

/// The words with one more behind them, where it may stand with them.
pub fn with_word(before: TypeWords, word: u32) -> Option<TypeWords>
    ensures { result ≡ spec.with_word before word }
{
    let TypeWords {
        sign,
        width,
        has_int,
    } = before;
    if word == SIGNED {
        with_sign(Sign::Signed, sign, width, has_int)
    } else if word == UNSIGNED {
        with_sign(Sign::Unsigned, sign, width, has_int)
    } else if word == CHAR {
        with_char(sign, width, has_int)
    } else if word == SHORT {
        with_short(sign, width, has_int)
    } else if word == LONG {
        with_long(sign, width, has_int)
    } else if word == INT {
        with_int(sign, width, has_int)
    } else {
        None
    }
}

fn kind_named(sign: Sign, width: Width) -> IntKind
    ensures { result ≡ spec.kind_named sign width }
{
    match (width, sign) {
        (Width::Char, Sign::None) => IntKind::Char,
        (Width::Char, Sign::Signed) => IntKind::SChar,
        (Width::Char, Sign::Unsigned) => IntKind::UChar,
        (Width::Short, Sign::Unsigned) => IntKind::UShort,
        (Width::Short, _) => IntKind::Short,
        (Width::None, Sign::Unsigned) => IntKind::UInt,
        (Width::None, _) => IntKind::Int,
        (Width::Long, Sign::Unsigned) => IntKind::ULong,
        (Width::Long, _) => IntKind::Long,
        (Width::LongLong, Sign::Unsigned) => IntKind::ULongLong,
        (Width::LongLong, _) => IntKind::LongLong,
    }
}

/// The type that the words name.
pub fn named_by(words: TypeWords) -> Fund
    ensures { result ≡ spec.named_by words }
{
    Fund::Int(kind_named(words.sign, words.width))
}
