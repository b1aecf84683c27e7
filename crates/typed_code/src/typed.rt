//! Whole typed trees.

ghost use Rattle.std.specs.Prelude.{◌≡◌, IfOk};

use crate::code::TypedCode;
use crate::number::{ExprNo, StmtNo};
use cxx_base::Memory;
use sharing::Shared;

/// An expression: its code, and the number of its outermost node.
pub struct TypedExpr {
    pub code: Shared<TypedCode>,
    pub root: ExprNo,
}

impl Drop for TypedExpr {
    fn drop(self) {
        let TypedExpr { code: _, root: _ } = self;
    }
}

impl TypedExpr {
    /// The same expression. It costs a count.
    pub fn copy(&self) -> Result<TypedExpr, Memory>
        ensures { IfOk result (λ copy. copy ≡ self.now) }
    {
        Ok(TypedExpr {
            code: self.code.copy()?,
            root: self.root,
        })
    }
}

/// A statement: its code, the number of its outermost node, and how many slots its local variables take.
pub struct TypedStmt {
    pub code: Shared<TypedCode>,
    pub root: StmtNo,
    pub slots: u32,
}

impl Drop for TypedStmt {
    fn drop(self) {
        let TypedStmt {
            code: _,
            root: _,
            slots: _,
        } = self;
    }
}

impl TypedStmt {
    /// The same statement. It costs a count.
    pub fn copy(&self) -> Result<TypedStmt, Memory>
        ensures { IfOk result (λ copy. copy ≡ self.now) }
    {
        Ok(TypedStmt {
            code: self.code.copy()?,
            root: self.root,
            slots: self.slots,
        })
    }
}
