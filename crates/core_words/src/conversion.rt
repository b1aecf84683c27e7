//! Implicit conversions.

/// Which of the rules of implicit conversions ([conv], [dcl.init]) a conversion uses. The rules, in order:
///
/// 1. none: the types are equal, but for const at the top;
/// 2. a whole number or an unscoped enumeration to an integral type, to `bool` by not being 0;
/// 3. `nullptr` or the literal `0` to a pointer, and a pointer to `bool`;
/// 4. a pointer to one to const;
/// 5. a pointer or reference to a class to one to a base;
/// 6. an array to a pointer to its first element;
/// 7. a place to a reference, and any value to a reference to const;
/// 8. a string literal to `const char*` or to `std::string_view`;
/// 9. a braced list to a class, an array or a scalar.
#[derive(Clone, Copy, Debug, PartialEq, Eq)]
pub struct Conversion {
    pub rules: [bool; 9],
}

impl Conversion {
    /// The conversion that uses no rule.
    pub const NONE: Conversion = Conversion { rules: [false; 9] };
}
