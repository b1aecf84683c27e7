//! Typed trees as flat code: what elaboration gives and evaluation runs.
#![tactic(auto)]

mod basics;
mod code;
mod expr;
mod laws;
mod number;
mod steps;
mod stmt;
mod tables;
mod typed;
mod void;
mod word;

pub use basics::{BASIC_TYPES, BASICS, basic_number_of};
pub use code::TypedCode;
pub use expr::{Expr, ExprNode};
pub use laws::{putting_lets_code_grow, trees_stay};
pub use number::{ExprNo, ListAt, ShapeNo, SlotNo, StmtNo, TextNo, TypeNo, ValueNo};
pub use stmt::{Stmt, StmtNode};
pub use typed::{TypedExpr, TypedStmt};
pub use void::no_value;
pub use word::{Compared, CompoundOp, Convert, LibraryOp, NamedBy, PointerOp, Stepped, UnaryCode};
