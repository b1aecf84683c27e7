//! Expressions.

use crate::number::{ExprNo, ListAt, ShapeNo, SlotNo, TextNo, TypeNo, ValueNo};
use crate::word::{Compared, Convert, LibraryOp, NamedBy, PointerOp, UnaryCode};
use core_value::QueryRow;
use cxx_base::{CompareOp, EntityNo, IntKind, IntOp, Place, ScopeNo};

/// An expression: one variant for each tree that elaboration gives, its parts by their numbers. What it costs to evaluate is told
/// beside each, and by `Expr::steps`; a step is paid before the parts are evaluated. Some give a place, others a value. A place is a
/// pointer while code runs: what has a reference as its type gives the place that the reference is bound to. A value of a class or an
/// array is made in the object that it initializes: of a variable, a parameter, a temporary, or a part of one of these.
#[derive(Clone, Copy)]
pub enum Expr {
    /// A literal, or another number that is settled; one that is too large for it is a `Settled`. 1 step.
    Number(i64),
    /// A value that is settled: of a literal, of `^^`, of a splice, or of a call that was evaluated while the tree was elaborated; of a
    /// call whose type is void, `no_value`. Where its type is a reference, it is a pointer, the place that this is bound to: of such a
    /// call, and of the name of a constexpr local reference in a tree that is evaluated while the body around it is elaborated. 1 step.
    Settled(ValueNo),
    /// A string literal: the place of its bytes and a zero behind them ([lex.string]). 1 step.
    Text(TextNo),
    /// The name of a parameter or a local variable: its place. 1 step.
    Local(SlotNo),
    /// The name of a parameter or a local variable that is a reference: the place that it is bound to. 1 step.
    LocalReference(SlotNo),
    /// The name of a constexpr local variable that is no reference, in a tree that is evaluated while the body around it is elaborated:
    /// the place of an object with its value, which the evaluation makes where it has not yet. 1 step.
    SettledLocal {
        slot: SlotNo,
        shape: ShapeNo,
        value: ValueNo,
    },
    /// The name of a static variable: its place. 1 step.
    Static(EntityNo),
    /// The name of a parameter or a local variable of the body under elaboration, in a tree that is evaluated meanwhile: a place that
    /// is neither read nor written. 1 step.
    Foreign(SlotNo),
    /// The same of a reference, which is read where it is named. 1 step.
    ForeignReference(SlotNo),
    /// `this`: the pointer. 1 step.
    This,
    /// `this` of the body under elaboration, in a tree that is evaluated meanwhile. 1 step.
    ForeignThis,
    /// The object that `this` points to, where it is not written: its place. No step.
    ThisObject,
    /// The same of the body under elaboration. No step.
    ForeignThisObject,
    /// The element at hand of the range of a `for`: its place in an array, its value in a vector. No step.
    Element,
    /// The value of a scalar at a place ([conv.lval]). 1 step.
    Read(ExprNo),
    /// The value of an object of a class, or of an array, at a place. No step: who makes the object pays.
    Copy(ExprNo),
    /// A conversion. 1 step, unless it is free: as part of another conversion that was paid, or alone a change of const at the top, of
    /// an array to a pointer, or of a place to a reference.
    Convert {
        how: Convert,
        is_free: bool,
        operand: ExprNo,
    },
    /// A pointer to a class, or the place of an object of it, to a base ([conv.ptr], [dcl.init.ref]). 1 step, unless it is part of
    /// another conversion that was paid, or of a name that is found in a base.
    ToBase {
        is_place: bool,
        is_free: bool,
        path: ListAt,
        operand: ExprNo,
    },
    /// A prefix operator ([expr.unary.op]). 1 step.
    Unary(UnaryCode, ExprNo),
    /// An operator of whole numbers in a kind. 1 step.
    Int(IntOp, IntKind, ExprNo, ExprNo),
    /// A comparison ([expr.rel], [expr.eq]). 1 step, and for views the length of the shorter.
    Compare(CompareOp, Compared, ExprNo, ExprNo),
    /// `p + n`, `n + p`, `p - n` or `p - q` ([expr.add]). 1 step.
    Pointers(PointerOp, ExprNo, ExprNo),
    /// `&&` ([expr.log.and]). 1 step.
    And(ExprNo, ExprNo),
    /// `||` ([expr.log.or]). 1 step.
    Or(ExprNo, ExprNo),
    /// A pointer and a number: the place of an element ([expr.sub]). 1 step.
    Subscript(ExprNo, ExprNo),
    /// `? :` ([expr.cond]). 1 step.
    Conditional(ExprNo, ExprNo, ExprNo),
    /// The place of a part of an object, behind the bases on the way to it; of a member function, the object or a base of it. `.` is 1
    /// step, `->` 2.
    Member {
        object: ExprNo,
        arrow: bool,
        path: ListAt,
    },
    /// The place of a static data member that is named in an object, which is evaluated too. `.` is 1 step, `->` 2.
    StaticMember {
        object: ExprNo,
        arrow: bool,
        variable: EntityNo,
    },
    /// A temporary with a value ([class.temporary]): its place. It ends with the full expression; an extended one with the reference
    /// that it is bound to. Its object is paid.
    Temporary {
        shape: ShapeNo,
        init: ExprNo,
        is_extended: bool,
    },
    /// A full expression in which temporaries are made ([intro.execution]): they end behind it. No step.
    Full(ExprNo),
    /// `new` of one object ([expr.new]): the pointer. 1 step, and its object.
    New {
        shape: ShapeNo,
        init: ExprNo,
    },
    /// `new` of an array of so many elements of one shape; `init` makes the array of them, so it is `Zero`, `Default`, an `ArrayList` or an
    /// `Each`. 1 step, and its object.
    NewArray {
        shape: ShapeNo,
        length: ExprNo,
        init: ExprNo,
    },
    /// `delete` or `delete []` ([expr.delete]). 1 step, and the destructors.
    Delete {
        is_array: bool,
        operand: ExprNo,
    },
    /// A braced list around what it comes to ([dcl.init.list]). 1 step.
    Braced(ExprNo),
    /// A braced list of the parts of a class, each clause with the number of its part, bases first; the other parts are made by their
    /// default initializers, or else as by `Zero` ([dcl.init.aggr]). 1 step.
    ClassList {
        clauses: ListAt,
    },
    /// A braced list of the first elements of an array; the others are made by `rest`, evaluated for each, or else as by `Zero`. 1 step.
    ArrayList {
        clauses: ListAt,
        rest: Option<ExprNo>,
    },
    /// An object for which nothing is written, in a list or parentheses: scalars are zero or null, a vector and a view are empty, an access
    /// context is unprivileged, a class is made by its constructor without parameters, or by the default initializers of its parts, or
    /// else so ([dcl.init.general]). No step of its own.
    Zero,
    /// An object for which no initializer is written at all: the same, but that scalars without a default initializer have no value. A
    /// vector and a view are classes, and are empty here too ([vector.cons], [string.view.cons]). No step of its own.
    Default,
    /// An object of a class for which nothing is written, as with `Zero` or with `Default`, and of which some parts are settled, since a
    /// consteval constructor makes them: each with its number, bases first; all others are made as the word says. No step of its own.
    Parts {
        clauses: ListAt,
        is_zero: bool,
    },
    /// An array each of whose elements is made by the same tree, which is evaluated for each. No step of its own.
    Each(ExprNo),
    /// An argument, a clause, a member initializer or the initializer of a local, where the tree in it does not begin at its first token:
    /// this node has that place, and so has what it makes. Temporaries in it end where they did without it. No step.
    Initializer(ExprNo),
    /// A constructor with its arguments, each with the shape of its parameter ([class.ctor]). 1 step, and the arguments.
    Construct {
        constructor: EntityNo,
        args: ListAt,
    },
    /// A braced list of reflections: a vector. 1 step.
    Infos(ListAt),
    /// The options of a description of a data member, in braces. 1 step.
    SpecOptions {
        name: Option<ExprNo>,
        alignment: Option<ExprNo>,
    },
    /// Several objects that one tree makes, each with its shape, one after the other: all their scalars in a row, under a shape of type
    /// void without a class, whose scalars and leaves are the sums of theirs. No step of its own.
    Objects(ListAt),
    /// What several objects come to, so often, one after the other, as of an array whose elements have them: the same row again and again,
    /// under a shape as of `Objects`. No step of its own.
    Repeated {
        times: u64,
        objects: ExprNo,
    },
    /// A call of a function with its arguments, each with the shape of its parameter ([expr.call]). 1 step, and the arguments.
    Call {
        function: EntityNo,
        args: ListAt,
    },
    /// A call of a member function that is not static, with the place of its object.
    MemberCall {
        function: EntityNo,
        object: ExprNo,
        args: ListAt,
    },
    /// A call of a static member function that is named in an object, which is evaluated and let go.
    DroppingCall {
        function: EntityNo,
        object: ExprNo,
        args: ListAt,
    },
    /// A query with its arguments, and the scope in which it is written (P2996R13). 1 step, its arguments, and the elements of lists.
    Query {
        row: QueryRow,
        scope: ScopeNo,
        args: ListAt,
    },
    /// A query of a type, which is that of `extract`, or of the argument of `reflect_constant`.
    TypedQuery {
        row: QueryRow,
        of: TypeNo,
        scope: ScopeNo,
        arg: ExprNo,
    },
    /// An operation of a vector or a view, which is its object, named behind `.`, behind `->` or by `[ ]`. 1 step, and that of `.` or
    /// `->`.
    Library {
        op: LibraryOp,
        named: NamedBy,
        object: ExprNo,
        arg: Option<ExprNo>,
    },
    /// The object of a constexpr static variable: it is made, and its value is read. Whoever evaluates it pays for the object.
    Variable {
        variable: EntityNo,
        shape: ShapeNo,
        init: ExprNo,
    },
    /// The object of a constexpr local variable, likewise.
    ConstexprLocal {
        slot: SlotNo,
        shape: ShapeNo,
        init: ExprNo,
    },
}

/// An expression, its type, and the place of its first token. What makes an object by a constructor or a list has the place of the tree that
/// makes the object: a part with an initializer of its own that of this initializer, every other one that of the tree that makes the object
/// around it. Where the outermost node of such a tree begins elsewhere, an `Initializer` around it has the place.
#[derive(Clone, Copy)]
pub struct ExprNode {
    pub expr: Expr,
    pub of: TypeNo,
    pub place: Place,
}
