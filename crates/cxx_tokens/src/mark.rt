//! The numbers of the punctuators: their places in the list of punctuators ([lex.operators]).

/// `{`
pub const LEFT_BRACE: u32 = 0;

/// `}`
pub const RIGHT_BRACE: u32 = 1;

/// `[`
pub const LEFT_BRACKET: u32 = 2;

/// `]`
pub const RIGHT_BRACKET: u32 = 3;

/// `[:`
pub const LEFT_SPLICE: u32 = 4;

/// `:]`
pub const RIGHT_SPLICE: u32 = 5;

/// `(`
pub const LEFT_PAREN: u32 = 6;

/// `)`
pub const RIGHT_PAREN: u32 = 7;

/// `;`
pub const SEMICOLON: u32 = 8;

/// `:`
pub const COLON: u32 = 9;

/// `::`
pub const SCOPE: u32 = 10;

/// `,`
pub const COMMA: u32 = 11;

/// `.`
pub const DOT: u32 = 12;

/// `?`
pub const QUESTION: u32 = 13;

/// `->`
pub const ARROW: u32 = 14;

/// `+`
pub const PLUS: u32 = 15;

/// `-`
pub const MINUS: u32 = 16;

/// `*`
pub const STAR: u32 = 17;

/// `/`
pub const SLASH: u32 = 18;

/// `%`
pub const PERCENT: u32 = 19;

/// `^`
pub const CARET: u32 = 20;

/// `^^`
pub const REFLECT: u32 = 21;

/// `&`
pub const AMPERSAND: u32 = 22;

/// `|`
pub const PIPE: u32 = 23;

/// `~`
pub const TILDE: u32 = 24;

/// `!`
pub const NOT: u32 = 25;

/// `=`
pub const EQUAL: u32 = 26;

/// `<`
pub const LESS: u32 = 27;

/// `>`
pub const GREATER: u32 = 28;

/// `<=`
pub const LESS_EQUAL: u32 = 29;

/// `>=`
pub const GREATER_EQUAL: u32 = 30;

/// `==`
pub const EQUAL_EQUAL: u32 = 31;

/// `!=`
pub const NOT_EQUAL: u32 = 32;

/// `<<`
pub const SHIFT_LEFT: u32 = 33;

/// `>>`
pub const SHIFT_RIGHT: u32 = 34;

/// `&&`
pub const AND: u32 = 35;

/// `||`
pub const OR: u32 = 36;

/// `++`
pub const INCREMENT: u32 = 37;

/// `--`
pub const DECREMENT: u32 = 38;

/// `+=`
pub const PLUS_EQUAL: u32 = 39;

/// `-=`
pub const MINUS_EQUAL: u32 = 40;

/// `*=`
pub const STAR_EQUAL: u32 = 41;

/// `/=`
pub const SLASH_EQUAL: u32 = 42;

/// `%=`
pub const PERCENT_EQUAL: u32 = 43;

/// `^=`
pub const CARET_EQUAL: u32 = 44;

/// `&=`
pub const AMPERSAND_EQUAL: u32 = 45;

/// `|=`
pub const PIPE_EQUAL: u32 = 46;

/// `<<=`
pub const SHIFT_LEFT_EQUAL: u32 = 47;

/// `>>=`
pub const SHIFT_RIGHT_EQUAL: u32 = 48;
