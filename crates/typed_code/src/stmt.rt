//! Statements.

use crate::number::{ExprNo, ListAt, ShapeNo, SlotNo, StmtNo, ValueNo};
use crate::word::{CompoundOp, Stepped};
use cxx_base::Place;

/// A statement: one variant for each that elaboration gives. Assertions, aliases, classes and blocks of a body are settled before it
/// runs, and have none but where a statement is asked for. What each costs is told beside it, and by `Stmt::steps` and
/// `Stmt::turn_steps`.
#[derive(Clone, Copy)]
pub enum Stmt {
    /// Statements in braces ([stmt.block]): the variables that are made in them end behind them, last first. 1 step.
    Block(ListAt),
    /// A statement within a statement that is a scope of its own. No step.
    Scope(StmtNo),
    /// `;` 1 step.
    Empty,
    /// An assertion, an alias, a class or a block, which is settled, as the statement within an `if`, an `else`, a `while` or a `for`. No
    /// step.
    Nothing,
    /// An expression ([stmt.expr]). 1 step.
    Expr(ExprNo),
    /// A local variable ([stmt.dcl]). 1 step, and its object.
    Local {
        slot: SlotNo,
        shape: ShapeNo,
        init: ExprNo,
    },
    /// A constexpr local variable, whose value is settled. No step.
    SettledLocal {
        slot: SlotNo,
        shape: ShapeNo,
        value: ValueNo,
    },
    /// An assignment ([expr.assign]): the left side is a place, the right a value; of a class each scalar is written. 1 step, and the
    /// object.
    Assign {
        shape: ShapeNo,
        left: ExprNo,
        right: ExprNo,
    },
    /// A compound assignment to a whole number or a pointer. 1 step, and the scalar.
    Compound {
        op: CompoundOp,
        left: ExprNo,
        right: ExprNo,
    },
    /// `++` or `--` ([expr.pre.incr], [expr.post.incr]). 1 step, and the scalar.
    Step {
        is_decrement: bool,
        of: Stepped,
        left: ExprNo,
    },
    /// `if` ([stmt.if]). 1 step.
    If {
        condition: ExprNo,
        body: StmtNo,
        otherwise: Option<StmtNo>,
    },
    /// `while` ([stmt.while]). 1 step for each test.
    While {
        condition: ExprNo,
        body: StmtNo,
    },
    /// `for` ([stmt.for]): a scope with its first statement, a condition, what is done after each turn, and the body. 1 step for each
    /// test, also where there is no condition.
    For {
        first: Option<StmtNo>,
        condition: Option<ExprNo>,
        step: Option<StmtNo>,
        body: StmtNo,
    },
    /// `for` over a range ([stmt.ranged]), which is the place of an array or the value of a vector: each element makes the variable. 1
    /// step, and 1 for each element.
    RangeFor {
        slot: SlotNo,
        shape: ShapeNo,
        is_array: bool,
        range: ExprNo,
        init: ExprNo,
        body: StmtNo,
    },
    /// `return` ([stmt.return]). 1 step.
    Return(Option<ExprNo>),
    /// `break` ([stmt.break]). 1 step.
    Break,
    /// `continue` ([stmt.cont]). 1 step.
    Continue,
}

/// A statement, and the place of its first token.
#[derive(Clone, Copy)]
pub struct StmtNode {
    pub stmt: Stmt,
    pub place: Place,
}
