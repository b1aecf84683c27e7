//! Outcomes of many constants.

use containers::{Boxed, Items};
use core_outcome::{Constant, Declared, Outcome, OutcomeParts};
use core_value::{Scalar, Value};
use cxx_base::{EntityNo, IntKind, Memory, Place};
use cxx_type::BasicType;
use sharing::Shared;
use std::alloc::Global;
use typed_code::{Expr, ExprNo, ExprNode, ShapeNo, TypeNo, TypedCode, basic_number_of};

/// The number of int or const int, which every code has without a table.
pub fn int_number(is_const: bool) -> Result<u32, Memory> {
    match basic_number_of(BasicType::Int(IntKind::Int), is_const) {
        Some(number) => Ok(number),
        None => Err(Memory),
    }
}

// The code of `constexpr int a = n;`.
fn code_of(alloc: Global, n: u32) -> Result<(TypedCode, ExprNo), Memory> {
    let plain = int_number(false)?;
    let constant = int_number(true)?;
    let place = Place::START;
    let mut code = TypedCode::new(alloc);
    let literal = code.put_expr(ExprNode {
        expr: Expr::Number(i64::from(n)),
        of: TypeNo(plain),
        place,
    })?;
    let root = code.put_expr(ExprNode {
        expr: Expr::Variable {
            variable: EntityNo(n),
            shape: ShapeNo(constant),
            init: literal,
        },
        of: TypeNo(constant),
        place,
    })?;
    Ok((code, root))
}

fn outcome_of(alloc: Global, n: u32) -> Result<Outcome, Memory> {
    let (mut code, root) = code_of(alloc, n)?;
    code.shrink_to_fit()?;
    let code = Shared::new(alloc, code)?;
    let constant = Constant {
        code,
        root,
        shape: ShapeNo(int_number(true)?),
        value: Value::Scalar(Scalar::Number(i128::from(n))),
    };
    let declared = Declared::Constant(Boxed::new(alloc, constant)?);
    Outcome::new(
        alloc,
        OutcomeParts {
            declared,
            completions: Items::new(alloc),
            refusal: None,
            steps: 2,
        },
    )
}

/// So many outcomes are kept at once, and each is copied. `tests/data` counts what they take.
pub fn keep(alloc: Global, count: u32) -> Result<bool, Memory> {
    let mut outcomes = Items::new(alloc);
    for n in 0..count {
        outcomes.push(outcome_of(alloc, n)?)?;
    }
    let mut copies = Items::new(alloc);
    for outcome in outcomes.as_slice() {
        copies.push(outcome.copy()?)?;
    }
    Ok(copies.len() == outcomes.len())
}
