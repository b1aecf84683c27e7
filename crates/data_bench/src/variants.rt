//! Outcomes of each kind of piece.

use crate::classes::{class_of, number, type_of};
use crate::constants::int_number;
use containers::{Boxed, Items};
use core_outcome::{
    Completion, Constant, Declared, Enumeration, FunctionBody, OpenedBase, Outcome, OutcomeParts,
    Signature,
};
use core_value::{Scalar, Value};
use core_words::{AccessLevel, ConstexprKind};
use cxx_base::{Code, EntityNo, IntKind, Memory, Place, Refusal};
use cxx_type::BasicType;
use sharing::Shared;
use std::alloc::Global;
use typed_code::{
    Expr, ExprNo, ExprNode, ListAt, ShapeNo, Stmt, StmtNo, StmtNode, TypeNo, TypedCode, TypedExpr,
};

/// How many variants there are.
const VARIANTS: u32 = 16;

// The code of `return 1;`.
fn code_of(alloc: Global) -> Result<Shared<TypedCode>, Memory> {
    let place = Place::START;
    let plain = int_number(false)?;
    let mut code = TypedCode::new(alloc);
    let value = code.put_expr(ExprNode {
        expr: Expr::Number(1),
        of: TypeNo(plain),
        place,
    })?;
    code.put_stmt(StmtNode {
        stmt: Stmt::Return(Some(value)),
        place,
    })?;
    Shared::new(alloc, code)
}

fn opening(alloc: Global) -> Result<Declared, Memory> {
    let class = class_of(alloc, 1, 0, Items::new(alloc))?;
    let mut bases = Items::new(alloc);
    bases.push(OpenedBase {
        access: AccessLevel::Public,
        class,
    })?;
    Ok(Declared::Opening(bases))
}

fn signature(alloc: Global) -> Result<Declared, Memory> {
    let signature = Signature {
        returned: Some(type_of(BasicType::Int(IntKind::Int))),
        parameters: Items::new(alloc),
        is_const: false,
        is_static: false,
        evaluated: ConstexprKind::Constexpr,
    };
    Ok(Declared::Signature(Boxed::new(alloc, signature)?))
}

fn body(alloc: Global) -> Result<Declared, Memory> {
    let body = FunctionBody {
        code: code_of(alloc)?,
        root: StmtNo(0),
        parameters: 0,
        slots: 0,
        gives: true,
        inits: ListAt { first: 0, count: 0 },
        class: None,
    };
    Ok(Declared::Body(Boxed::new(alloc, body)?))
}

fn enumeration(alloc: Global) -> Result<Declared, Memory> {
    let enumeration = Enumeration {
        entity: EntityNo(1),
        underlying: IntKind::Int,
        is_scoped: true,
        is_written: false,
        values: Items::from_slice(alloc, &[0, 1])?,
    };
    Ok(Declared::Enumeration(Boxed::new(alloc, enumeration)?))
}

fn constant(alloc: Global) -> Result<Declared, Memory> {
    let constant = Constant {
        code: code_of(alloc)?,
        root: ExprNo(0),
        shape: ShapeNo(int_number(true)?),
        value: Value::Scalar(Scalar::Number(1)),
    };
    Ok(Declared::Constant(Boxed::new(alloc, constant)?))
}

fn declared_of(alloc: Global, n: u32) -> Result<Declared, Memory> {
    match n {
        0 => Ok(Declared::Refused),
        1 => Ok(Declared::Namespace),
        2 => Ok(Declared::Class),
        3 => opening(alloc),
        4 => Ok(Declared::DataMember(Boxed::new(alloc, number())?)),
        5 => Ok(Declared::DefaultInit(TypedExpr {
            code: code_of(alloc)?,
            root: ExprNo(0),
        })),
        6 => signature(alloc),
        7 => body(alloc),
        8 => Ok(Declared::Closing(class_of(alloc, 1, 0, Items::new(alloc))?)),
        9 => enumeration(alloc),
        10 => constant(alloc),
        11 => Ok(Declared::Variable(Boxed::new(alloc, number())?)),
        12 => Ok(Declared::Alias(type_of(BasicType::Info))),
        13 => Ok(Declared::NamespaceAlias(EntityNo(1))),
        14 => Ok(Declared::Assertion),
        _ => Ok(Declared::Block),
    }
}

// Which variant it is.
fn variant_of(declared: &Declared) -> u32 {
    match declared {
        Declared::Refused => 0,
        Declared::Namespace => 1,
        Declared::Class => 2,
        Declared::Opening(_) => 3,
        Declared::DataMember(_) => 4,
        Declared::DefaultInit(_) => 5,
        Declared::Signature(_) => 6,
        Declared::Body(_) => 7,
        Declared::Closing(_) => 8,
        Declared::Enumeration(_) => 9,
        Declared::Constant(_) => 10,
        Declared::Variable(_) => 11,
        Declared::Alias(_) => 12,
        Declared::NamespaceAlias(_) => 13,
        Declared::Assertion => 14,
        Declared::Block => 15,
    }
}

fn refusal_of(alloc: Global, n: u32) -> Result<Option<Boxed<Refusal>>, Memory> {
    if n == 0 {
        let refusal = Refusal::whole(Code::N1, Place::START);
        Ok(Some(Boxed::new(alloc, refusal)?))
    } else {
        Ok(None)
    }
}

// A block completes a class; no other piece does.
fn completions_of(alloc: Global, n: u32) -> Result<Items<Completion>, Memory> {
    let mut completions = Items::new(alloc);
    if n == 15 {
        let class = class_of(alloc, 1, 0, Items::new(alloc))?;
        completions.push(Completion { class })?;
    }
    Ok(completions)
}

fn outcome_of(alloc: Global, n: u32) -> Result<Outcome, Memory> {
    let declared = declared_of(alloc, n)?;
    let completions = completions_of(alloc, n)?;
    let refusal = refusal_of(alloc, n)?;
    Outcome::new(
        alloc,
        OutcomeParts {
            declared,
            completions,
            refusal,
            steps: u64::from(n),
        },
    )
}

fn is_copied(outcome: &Outcome, n: u32) -> Result<bool, Memory> {
    let copy = outcome.copy()?;
    let parts = copy.parts();
    Ok(
        variant_of(&parts.declared) == n
            && parts.steps == u64::from(n)
            && parts.refusal.is_some() == (n == 0)
            && parts.completions.len() == usize::from(n == 15),
    )
}

/// So many outcomes, of each variant in turn: each is copied, and its copy is what it was made of.
pub fn copy(alloc: Global, count: u32) -> Result<bool, Memory> {
    for turn in 0..count {
        let n = turn % VARIANTS;
        let outcome = outcome_of(alloc, n)?;
        if !is_copied(&outcome, n)? {
            return Ok(false);
        }
    }
    Ok(true)
}
