//! What nodes cost.

ghost use Rattle.std.specs.Prelude.{◌≡◌};
ghost use Rattle.typed_code.specs.Steps.{steps_of, stmt_steps_of, turn_steps_of};

use crate::expr::Expr;
use crate::stmt::Stmt;
use crate::word::NamedBy;

impl Expr {
    /// The steps that it costs of its own, which are paid before its parts are evaluated. What the objects that it makes, the bytes of a
    /// view and the elements of a list cost is paid beside.
    pub fn steps(self) -> u32
        ensures { result ≡ steps_of self }
    {
        match self {
            Expr::ThisObject => 0,
            Expr::ForeignThisObject => 0,
            Expr::Element => 0,
            Expr::Copy(_) => 0,
            Expr::Convert {
                how: _,
                is_free,
                operand: _,
            } => if is_free { 0 } else { 1 },
            Expr::ToBase {
                is_place: _,
                is_free,
                path: _,
                operand: _,
            } => if is_free { 0 } else { 1 },
            Expr::Member {
                object: _,
                arrow,
                path: _,
            } => if arrow { 2 } else { 1 },
            Expr::StaticMember {
                object: _,
                arrow,
                variable: _,
            } => if arrow { 2 } else { 1 },
            Expr::Temporary {
                shape: _,
                init: _,
                is_extended: _,
            } => 0,
            Expr::Full(_) => 0,
            Expr::Zero => 0,
            Expr::Default => 0,
            Expr::Parts {
                clauses: _,
                is_zero: _,
            } => 0,
            Expr::Each(_) => 0,
            Expr::Initializer(_) => 0,
            Expr::Objects(_) => 0,
            Expr::Repeated {
                times: _,
                objects: _,
            } => 0,
            Expr::Library {
                op: _,
                named,
                object: _,
                arg: _,
            } => match named {
                NamedBy::Subscript => 1,
                NamedBy::Dot => 2,
                NamedBy::Arrow => 3,
            },
            Expr::Variable {
                variable: _,
                shape: _,
                init: _,
            } => 0,
            Expr::ConstexprLocal {
                slot: _,
                shape: _,
                init: _,
            } => 0,
            _ => 1,
        }
    }
}

impl Stmt {
    /// The steps that it costs once, which are paid before its parts are run. A `while` and a `for` pay for their tests alone.
    pub fn steps(self) -> u32
        ensures { result ≡ stmt_steps_of self }
    {
        match self {
            Stmt::Scope(_) => 0,
            Stmt::Nothing => 0,
            Stmt::SettledLocal {
                slot: _,
                shape: _,
                value: _,
            } => 0,
            Stmt::While {
                condition: _,
                body: _,
            } => 0,
            Stmt::For {
                first: _,
                condition: _,
                step: _,
                body: _,
            } => 0,
            _ => 1,
        }
    }

    /// The steps that are paid before each test of a loop, also where it has no condition, and of a `for` over a range before each element
    /// makes its variable.
    pub fn turn_steps(self) -> u32
        ensures { result ≡ turn_steps_of self }
    {
        match self {
            Stmt::While {
                condition: _,
                body: _,
            } => 1,
            Stmt::For {
                first: _,
                condition: _,
                step: _,
                body: _,
            } => 1,
            Stmt::RangeFor {
                slot: _,
                shape: _,
                is_array: _,
                range: _,
                init: _,
                body: _,
            } => 1,
            _ => 0,
        }
    }
}
