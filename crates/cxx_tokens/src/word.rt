//! Words that are never identifiers ([lex.key], [lex.operators]).

ghost use Rattle.std.specs.Prelude.{◌≡◌, ◌<◌, ◌+◌, ◌*◌, ◌%◌, length, map};
ghost use Rattle.cxx_tokens.specs.Lex.{reserved};
ghost use Rattle.cxx_tokens.specs.declared.word.TheConstants.{WORDS, BY_KEY};
ghost use Rattle.cxx_tokens.specs.Words as spec;

/// The keywords, and then the alternative spellings of operators.
pub const WORDS: [&[u8]; 93] = [
    b"alignas",
    b"alignof",
    b"asm",
    b"auto",
    b"bool",
    b"break",
    b"case",
    b"catch",
    b"char",
    b"char8_t",
    b"char16_t",
    b"char32_t",
    b"class",
    b"concept",
    b"const",
    b"const_cast",
    b"consteval",
    b"constexpr",
    b"constinit",
    b"continue",
    b"contract_assert",
    b"co_await",
    b"co_return",
    b"co_yield",
    b"decltype",
    b"default",
    b"delete",
    b"do",
    b"double",
    b"dynamic_cast",
    b"else",
    b"enum",
    b"explicit",
    b"export",
    b"extern",
    b"false",
    b"float",
    b"for",
    b"friend",
    b"goto",
    b"if",
    b"inline",
    b"int",
    b"long",
    b"mutable",
    b"namespace",
    b"new",
    b"noexcept",
    b"nullptr",
    b"operator",
    b"private",
    b"protected",
    b"public",
    b"register",
    b"reinterpret_cast",
    b"requires",
    b"return",
    b"short",
    b"signed",
    b"sizeof",
    b"static",
    b"static_assert",
    b"static_cast",
    b"struct",
    b"switch",
    b"template",
    b"this",
    b"thread_local",
    b"throw",
    b"true",
    b"try",
    b"typedef",
    b"typeid",
    b"typename",
    b"union",
    b"unsigned",
    b"using",
    b"virtual",
    b"void",
    b"volatile",
    b"wchar_t",
    b"while",
    b"and",
    b"and_eq",
    b"bitand",
    b"bitor",
    b"compl",
    b"not",
    b"not_eq",
    b"or",
    b"or_eq",
    b"xor",
    b"xor_eq",
];

// The place of the one word of each key, or 93 where there is none.
const BY_KEY: [u8; 512] = [
    93, 93, 93, 93, 93, 93, 68, 93, 54, 93, 63, 93, 59, 93, 93, 93, 93, 93, 71, 93, 93, 93, 20, 93,
    75, 93, 93, 93, 93, 93, 70, 93, 93, 1, 93, 93, 93, 93, 21, 78, 23, 93, 93, 67, 93, 93, 93, 93,
    93, 93, 93, 93, 93, 41, 93, 93, 93, 19, 93, 93, 93, 93, 81, 93, 93, 93, 93, 93, 93, 93, 93, 93,
    93, 93, 93, 5, 93, 52, 93, 83, 93, 93, 93, 93, 93, 93, 93, 93, 90, 93, 93, 93, 88, 93, 76, 93,
    35, 93, 82, 93, 93, 93, 92, 93, 93, 93, 93, 93, 93, 93, 93, 93, 93, 93, 93, 93, 93, 93, 93, 93,
    93, 93, 8, 93, 93, 65, 93, 93, 93, 93, 93, 58, 93, 93, 34, 93, 93, 93, 93, 93, 93, 93, 93, 93,
    12, 93, 93, 22, 93, 93, 93, 93, 15, 93, 49, 93, 93, 93, 93, 73, 93, 93, 93, 93, 93, 43, 93, 93,
    93, 93, 93, 93, 25, 93, 93, 93, 93, 93, 93, 93, 93, 93, 93, 61, 93, 93, 93, 93, 93, 93, 93, 80,
    93, 93, 93, 93, 93, 93, 93, 93, 93, 93, 93, 93, 93, 13, 93, 6, 93, 30, 93, 93, 93, 74, 93, 93,
    60, 93, 93, 93, 93, 47, 93, 93, 93, 93, 93, 93, 93, 86, 93, 29, 93, 93, 93, 93, 93, 93, 93, 93,
    93, 62, 93, 45, 93, 24, 93, 93, 93, 93, 93, 93, 93, 93, 0, 93, 93, 4, 69, 93, 93, 93, 93, 79,
    93, 93, 93, 93, 93, 93, 93, 93, 93, 93, 93, 93, 93, 93, 93, 93, 7, 46, 93, 93, 93, 93, 50, 93,
    93, 93, 93, 93, 66, 93, 93, 93, 93, 93, 93, 93, 27, 64, 93, 93, 93, 93, 93, 93, 93, 93, 55, 93,
    93, 93, 32, 93, 93, 93, 93, 93, 93, 93, 93, 93, 93, 93, 93, 93, 93, 93, 93, 93, 93, 93, 93, 48,
    2, 93, 93, 93, 93, 93, 93, 93, 93, 93, 93, 93, 93, 93, 93, 93, 93, 93, 93, 93, 93, 93, 37, 93,
    93, 93, 93, 93, 93, 93, 93, 93, 16, 93, 93, 93, 93, 93, 93, 93, 91, 77, 42, 31, 93, 93, 14, 93,
    10, 93, 93, 93, 93, 93, 93, 93, 3, 93, 93, 93, 93, 93, 39, 93, 87, 93, 36, 93, 93, 84, 33, 93,
    93, 93, 93, 93, 93, 89, 93, 57, 93, 93, 11, 56, 93, 93, 93, 93, 93, 93, 93, 93, 93, 93, 93, 93,
    93, 93, 93, 93, 93, 93, 44, 93, 93, 28, 93, 93, 93, 93, 93, 93, 93, 85, 93, 93, 93, 93, 93, 93,
    93, 93, 93, 93, 9, 93, 93, 53, 93, 93, 93, 93, 93, 93, 17, 93, 93, 93, 93, 93, 93, 38, 93, 93,
    93, 93, 93, 93, 93, 93, 93, 93, 93, 93, 93, 72, 26, 93, 93, 93, 93, 93, 93, 93, 93, 93, 51, 93,
    18, 93, 93, 93, 93, 93, 93, 40,
];

/// The number of a word: its place in the list.
#[inline]
pub fn reserved(text: &[u8]) -> Option<u32>
    ensures { result ≡ reserved text.now }
{
    reserved_by_key(key(text), text)
}

/// The same of a text of this key.
#[inline(always)]
pub fn reserved_by_key(key: usize, text: &[u8]) -> Option<u32>
    requires key { key ≡ spec.key text.now }
    requires small { key < 512 }
    ensures { result ≡ reserved text.now }
{
    place_by_key(&WORDS, &BY_KEY, key, text)
}

#[inline]
fn mixed(first: u8, middle: u8, last: u8, count: usize) -> usize
    ensures { result ≡ (first + 17 * (middle + last) + 5 * (count % 64)) % 512 }
{
    (first as usize + 17 * (middle as usize + last as usize) + 5 * (count % 64)) % 512
}

/// A number below 512 that tells the words apart: it mixes the first, the middle and the last byte and the length.
#[inline]
pub fn key(text: &[u8]) -> usize
    ensures key { result ≡ spec.key text.now }
    ensures small { result < 512 }
{
    match text {
        [first, ..] => mixed(
            *first,
            text[text.len() / 2],
            text[text.len() - 1],
            text.len(),
        ),
        [] => 0,
    }
}

// Tries only the word that has the key of the text.
#[inline]
fn place_by_key(words: &[&[u8]], places: &[u8], key: usize, text: &[u8]) -> Option<u32>
    requires key { key ≡ spec.key text.now }
    requires small { key < 512 }
    requires words { map (λ word. word.now) words.now ≡ map (λ word. word.now) WORDS }
    requires places { places.now ≡ BY_KEY }
    ensures { result ≡ reserved text.now }
{
    if key < places.len() {
        word_at(words, u32::from(places[key]), text)
    } else {
        None
    }
}

// The place of a word, where the text is that word.
#[inline]
fn word_at(words: &[&[u8]], place: u32, text: &[u8]) -> Option<u32>
    ensures { result ≡ spec.place_if words.now place text.now }
{
    if (place as usize) < words.len() && words[place as usize] == text {
        Some(place)
    } else {
        None
    }
}
