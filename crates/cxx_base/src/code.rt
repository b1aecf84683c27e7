//! The codes of refusals.

/// Why a source or a piece is refused. The letter tells the stage: L the text, S the syntax, P the pieces, N names,
/// T types, V evaluation, M reflection, R a piece that is read. L, S and P refuse the source as a whole.
#[derive(Clone, Copy, Debug, PartialEq, Eq, Hash)]
pub enum Code {
    /// A byte of the source begins no character of UTF-8 ([lex.phases]).
    L1,
    /// No token begins here ([lex.pptoken]), the literal here is out of form ([lex.icon], [lex.ccon], [lex.string]), or a
    /// `#` begins no line that is skipped ([cpp.pre]).
    L2,
    /// No type of an integer literal's list holds its value ([lex.icon]).
    L3,
    /// A string literal or a comment does not end ([lex.string], [lex.comment]).
    L4,
    /// An identifier has more bytes than [`MAX_IDENTIFIER`](crate::MAX_IDENTIFIER), or is not in normalization form C
    /// ([lex.name]).
    L5,
    /// The source has more bytes than [`MAX_SOURCE`](crate::MAX_SOURCE).
    L6,
    /// The tokens are not derived by the grammar.
    S1,
    /// The source is nested in more levels than [`MAX_NESTING`](crate::MAX_NESTING).
    S2,
    /// The source has more pieces than [`MAX_PIECES`](crate::MAX_PIECES).
    P1,
    /// The input has more units than [`MAX_UNITS`](crate::MAX_UNITS).
    P2,
    /// Lookup finds no declaration of a name ([basic.lookup]), or `this` has no meaning here ([expr.prim.this]).
    N1,
    /// A name is declared again in its scope, or defined again, where it may not be ([basic.scope.scope],
    /// [basic.def.odr]).
    N2,
    /// A name is found, but what it names is of another kind than has to stand here.
    N3,
    /// A class, an enumeration or a library type has no such member ([class.qual], [expr.ref]).
    N4,
    /// A member or a base is not accessible ([class.access]).
    N5,
    /// There is no conversion to the type ([conv], [dcl.init]).
    T1,
    /// The number of arguments or of clauses does not fit ([over.match.viable], [dcl.init.list]).
    T2,
    /// The type of an operand does not fit its operator ([expr.compound]).
    T3,
    /// A class has to be complete here, and is not ([class.mem]); nor is `void` ever ([basic.types.general]).
    T4,
    /// What would be changed, or bound to a reference that is not to const, is no place that may be changed
    /// ([basic.lval]); or a later declaration of a function differs from its first one ([dcl.fct], [dcl.constexpr]).
    T5,
    /// A conversion in a braced list is narrowing ([dcl.init.list]).
    T6,
    /// An object of a consteval-only type is no constexpr variable, and no parameter or local variable of a consteval
    /// function or block (P2996R13, [basic.types.general]).
    T7,
    /// The subset lacks this declaration: a static variable that is const and not constexpr, a constexpr variable whose
    /// type has a written destructor in it, a reference as a data member or a static variable, a vector of another type
    /// than `std::meta::info`, or a static data member of a class in the body of a function.
    T8,
    /// The bound of an array is not from 1 to [`MAX_BOUND`](crate::MAX_BOUND) ([dcl.array]).
    T9,
    /// An object has more bytes than [`MAX_OBJECT`](crate::MAX_OBJECT).
    T10,
    /// An operation of whole numbers has no value ([expr.pre], [expr.mul], [expr.shift]). The detail tells why.
    V1,
    /// A place or a length is outside the bounds of its object ([expr.add], [expr.sub], [expr.new]).
    V2,
    /// A null pointer is followed ([expr.unary.op], [expr.ref]).
    V3,
    /// An object is read or written outside its lifetime ([basic.life]).
    V4,
    /// A scalar without a value is read ([basic.indet]).
    V5,
    /// A const object is written ([dcl.type.cv]).
    V6,
    /// An object of another evaluation is written, or is read and is not constexpr ([expr.const]).
    V7,
    /// Storage is released that is not allocated, or in another form than it was allocated ([expr.delete]).
    V8,
    /// Storage that the evaluation allocated is still there at its end ([expr.const]).
    V9,
    /// The result points to an object that does not outlast the evaluation ([expr.const]).
    V10,
    /// Two pointers into different objects are compared or subtracted ([expr.rel], [expr.eq], [expr.add]).
    V11,
    /// The evaluation would take more steps than its limit.
    V12,
    /// The evaluation would have more active calls than its limit.
    V13,
    /// A call has no value ([expr.const], [dcl.constexpr], [stmt.return]). The detail tells why.
    V14,
    /// The condition of a static assertion is false ([dcl.pre]).
    V15,
    /// The condition of a query is not met (P2996R13, [meta.reflection]).
    M1,
    /// A splice is of another kind than has to stand here (P2996R13, [basic.splice]).
    M2,
    /// A splice is of the null reflection (P2996R13, [basic.splice]).
    M3,
    /// A class is injected outside the evaluation of a consteval block (P2996R13, [meta.reflection.define.aggregate];
    /// P3289R1).
    M4,
    /// A class or a function encloses just one of the consteval block and the class that it would complete (P2996R13,
    /// [expr.const]).
    M5,
    /// The class that would be injected is already complete (P2996R13, [meta.reflection.define.aggregate]).
    M6,
    /// A description of a data member fits none: its name, its type or its alignment (P2996R13,
    /// [meta.reflection.define.aggregate]).
    M7,
    /// A piece that is read here is refused. The detail is its number.
    R1,
}
