//! The numbers of the words that the grammar speaks of: their places in the list of words ([lex.key]).

/// `bool`
pub const BOOL: u32 = 4;

/// `break`
pub const BREAK: u32 = 5;

/// `char`
pub const CHAR: u32 = 8;

/// `class`
pub const CLASS: u32 = 12;

/// `const`
pub const CONST: u32 = 14;

/// `consteval`
pub const CONSTEVAL: u32 = 16;

/// `constexpr`
pub const CONSTEXPR: u32 = 17;

/// `continue`
pub const CONTINUE: u32 = 19;

/// `delete`
pub const DELETE: u32 = 26;

/// `else`
pub const ELSE: u32 = 30;

/// `enum`
pub const ENUM: u32 = 31;

/// `explicit`
pub const EXPLICIT: u32 = 32;

/// `false`
pub const FALSE: u32 = 35;

/// `for`
pub const FOR: u32 = 37;

/// `if`
pub const IF: u32 = 40;

/// `inline`
pub const INLINE: u32 = 41;

/// `int`
pub const INT: u32 = 42;

/// `long`
pub const LONG: u32 = 43;

/// `namespace`
pub const NAMESPACE: u32 = 45;

/// `new`
pub const NEW: u32 = 46;

/// `noexcept`
pub const NOEXCEPT: u32 = 47;

/// `nullptr`
pub const NULLPTR: u32 = 48;

/// `private`
pub const PRIVATE: u32 = 50;

/// `protected`
pub const PROTECTED: u32 = 51;

/// `public`
pub const PUBLIC: u32 = 52;

/// `return`
pub const RETURN: u32 = 56;

/// `short`
pub const SHORT: u32 = 57;

/// `signed`
pub const SIGNED: u32 = 58;

/// `sizeof`
pub const SIZEOF: u32 = 59;

/// `static`
pub const STATIC: u32 = 60;

/// `static_assert`
pub const STATIC_ASSERT: u32 = 61;

/// `static_cast`
pub const STATIC_CAST: u32 = 62;

/// `struct`
pub const STRUCT: u32 = 63;

/// `this`
pub const THIS: u32 = 66;

/// `true`
pub const TRUE: u32 = 69;

/// `typename`
pub const TYPENAME: u32 = 73;

/// `unsigned`
pub const UNSIGNED: u32 = 75;

/// `using`
pub const USING: u32 = 76;

/// `void`
pub const VOID: u32 = 78;

/// `while`
pub const WHILE: u32 = 81;
