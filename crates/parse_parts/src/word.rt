//! The words before a declared type or name, and which stand together ([dcl.spec]).

ghost use Rattle.std.specs.Prelude.{◌≡◌};
ghost use Rattle.cxx_grammar.specs.Classes as classes;
ghost use Rattle.cxx_grammar.specs.Declarations as spec;

use cxx_grammar::DeclWords;
use cxx_tokens::keyword::{
    CLASS, CONSTEVAL, CONSTEXPR, EXPLICIT, INLINE, PRIVATE, PROTECTED, PUBLIC, STATIC, STRUCT,
};
use cxx_tree::{Access, ClassKey, Evaluated, Specifiers};

/// No word.
pub fn no_words() -> DeclWords
    ensures { result ≡ spec.no_words }
{
    DeclWords {
        is_inline: false,
        is_static: false,
        is_constexpr: false,
        is_consteval: false,
        is_explicit: false,
        is_twice: false,
    }
}

/// The words with one more behind them, where it is one of `inline`, `static`, `constexpr` and `consteval`.
pub fn with_spec(words: DeclWords, word: u32) -> Option<DeclWords>
    ensures { result ≡ spec.with_spec words word }
{
    let mut more = words;
    if word == INLINE {
        more.is_inline = true;
        more.is_twice = words.is_twice || words.is_inline;
        Some(more)
    } else if word == STATIC {
        more.is_static = true;
        more.is_twice = words.is_twice || words.is_static;
        Some(more)
    } else if word == CONSTEXPR {
        more.is_constexpr = true;
        more.is_twice = words.is_twice || words.is_constexpr;
        Some(more)
    } else if word == CONSTEVAL {
        more.is_consteval = true;
        more.is_twice = words.is_twice || words.is_consteval;
        Some(more)
    } else {
        None
    }
}

/// The same where `explicit` may stand too.
pub fn with_constructor_word(words: DeclWords, word: u32) -> Option<DeclWords>
    ensures { result ≡ spec.with_constructor_word words word }
{
    if word == EXPLICIT {
        let mut more = words;
        more.is_explicit = true;
        Some(more)
    } else {
        with_spec(words, word)
    }
}

/// Whether no word stands twice, and `constexpr` and `consteval` do not stand together.
pub fn stand_together(words: DeclWords) -> bool
    ensures { result ≡ spec.stand_together words }
{
    !(words.is_twice || (words.is_constexpr && words.is_consteval))
}

// A variable is not `consteval`.
fn fit_variable(words: DeclWords) -> bool
    ensures { result ≡ spec.fit_variable words }
{
    !words.is_consteval
}

// A data member is `static` exactly where it is `constexpr`.
fn fit_data_member(words: DeclWords) -> bool
    ensures { result ≡ spec.fit_data_member words }
{
    fit_variable(words)
        && (if words.is_static {
            words.is_constexpr
        } else {
            !words.is_constexpr
        })
}

/// Whether the words fit a variable, or in a class a data member.
pub fn fit_words(in_class: bool, words: DeclWords) -> bool
    ensures { result ≡ spec.fit_words in_class words }
{
    if in_class {
        fit_data_member(words)
    } else {
        fit_variable(words)
    }
}

/// The words as the tree has them.
pub fn specifiers_of(words: DeclWords) -> Specifiers
    ensures { result ≡ spec.specifiers_of words }
{
    let evaluated = if words.is_consteval {
        Evaluated::Consteval
    } else if words.is_constexpr {
        Evaluated::Constexpr
    } else {
        Evaluated::Plain
    };
    Specifiers {
        is_inline: words.is_inline,
        is_static: words.is_static,
        evaluated,
    }
}

/// `struct` or `class`, by its number.
pub fn key_of_word(word: u32) -> Option<ClassKey>
    ensures { result ≡ spec.key_of_word word }
{
    if word == STRUCT {
        Some(ClassKey::Struct)
    } else if word == CLASS {
        Some(ClassKey::Class)
    } else {
        None
    }
}

/// `public`, `protected` or `private`, by its number.
pub fn access_of_word(word: u32) -> Option<Access>
    ensures { result ≡ classes.access_of_word word }
{
    if word == PUBLIC {
        Some(Access::Public)
    } else if word == PROTECTED {
        Some(Access::Protected)
    } else if word == PRIVATE {
        Some(Access::Private)
    } else {
        None
    }
}
