//! The spellings of the punctuators.

/// How the punctuators are spelled, in the order of their numbers. A list of its own, so that the one of the lexer is
/// compared with it.
const SPELLINGS: [&str; 49] = [
    "{", "}", "[", "]", "[:", ":]", "(", ")", ";", ":", "::", ",", ".", "?", "->", "+", "-", "*",
    "/", "%", "^", "^^", "&", "|", "~", "!", "=", "<", ">", "<=", ">=", "==", "!=", "<<", ">>",
    "&&", "||", "++", "--", "+=", "-=", "*=", "/=", "%=", "^=", "&=", "|=", "<<=", ">>=",
];

/// How the punctuator of a number is spelled.
pub fn spelling(number: u32) -> &'static str {
    match SPELLINGS.get(number as usize) {
        Some(text) => text,
        None => "no punctuator",
    }
}
