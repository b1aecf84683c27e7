//! The evaluation of constant expressions ([expr.const]).

ghost use Rattle.std.specs.Prelude.{◌≡◌, IfOk};
ghost use Rattle.cxx_base.specs.declared.operator.IntKind.TheVariants.{Int};
ghost use Rattle.int_kinds.specs.Kind.{IsInRange};
ghost use Rattle.int_kinds.specs.Operate.{applied};
ghost use Rattle.reflect_cli.specs.Chains as chain;
ghost use Rattle.reflect_cli.specs.Values as spec;

use crate::form_tree::{Arithmetic, Link, Literal, Product, Sum};
use cxx_base::Place;
use int_kinds::{ArithFault, IntKind, IntOp, apply};

/// A refused operation: why, and the first token of its tree.
#[derive(Clone, Copy, Debug, PartialEq, Eq)]
pub struct Refused {
    pub fault: ArithFault,
    pub place: Place,
}

fn operator_of(operator: Arithmetic) -> IntOp
    ensures { result ≡ spec.operator_of operator }
{
    match operator {
        Arithmetic::Add => IntOp::Add,
        Arithmetic::Sub => IntOp::Sub,
        Arithmetic::Mul => IntOp::Mul,
        Arithmetic::Div => IntOp::Div,
        Arithmetic::Rem => IntOp::Rem,
    }
}

fn operate(place: Place, operator: Arithmetic, left: i128, right: i128) -> Result<i128, Refused>
    requires left { IsInRange Int left }
    requires right { IsInRange Int right }
    ensures value { result ≡ spec.at_place place (applied (spec.operator_of operator) Int left right) }
    ensures in_range { IfOk result (IsInRange Int) }
{
    match apply(operator_of(operator), IntKind::Int, left, right) {
        Ok(value) => Ok(value),
        Err(fault) => Err(Refused { fault, place }),
    }
}

fn literal_link_value(place: Place, left: i128, link: &Link<Literal>) -> Result<i128, Refused>
    requires { IsInRange Int left }
    ensures value { result ≡ chain.link_value place chain.literal_value left link.now }
    ensures in_range { IfOk result (IsInRange Int) }
{
    operate(place, link.operator, left, i128::from(link.operand.value))
}

#[tactic(auto, using(crate::proofs::Trees::product_is))]
fn product_value(product: &Product) -> Result<i128, Refused>
    ensures value { result ≡ spec.product_value product.now }
    ensures in_range { IfOk result (IsInRange Int) }
{
    let first = i128::from(product.first.value);
    literal_links_value(product.first.place, first, product.rest.as_slice())
}

fn literal_links_value(place: Place, first: i128, links: &[Link<Literal>]) -> Result<i128, Refused>
    requires { IsInRange Int first }
    ensures value { result ≡ chain.links_value place chain.literal_value first links.now }
    ensures in_range { IfOk result (IsInRange Int) }
{
    let mut value = first;
    for link in links {
        match literal_link_value(place, value, link) {
            Ok(result) => value = result,
            Err(refused) => return Err(refused),
        }
    }
    Ok(value)
}

/// The place of the first token of an expression.
#[tactic(auto, using(crate::proofs::Trees::place_is))]
pub fn first_token(sum: &Sum) -> Place
    ensures { result ≡ spec.sum_place sum.now }
{
    sum.first.first.place
}

fn product_link_value(place: Place, left: i128, link: &Link<Product>) -> Result<i128, Refused>
    requires { IsInRange Int left }
    ensures value { result ≡ chain.link_value place spec.product_value left link.now }
    ensures in_range { IfOk result (IsInRange Int) }
{
    match product_value(&link.operand) {
        Ok(right) => operate(place, link.operator, left, right),
        Err(refused) => Err(refused),
    }
}

/// The value of an expression of type `int`, or its first refused operation in order of evaluation.
#[tactic(auto, using(crate::proofs::Trees::sum_is, crate::proofs::Trees::place_is))]
pub fn sum_value(sum: &Sum) -> Result<i128, Refused>
    ensures value { result ≡ spec.sum_value sum.now }
    ensures in_range { IfOk result (IsInRange Int) }
{
    let place = first_token(sum);
    match product_value(&sum.first) {
        Ok(first) => product_links_value(place, first, sum.rest.as_slice()),
        Err(refused) => Err(refused),
    }
}

fn product_links_value(place: Place, first: i128, links: &[Link<Product>]) -> Result<i128, Refused>
    requires { IsInRange Int first }
    ensures value { result ≡ chain.links_value place spec.product_value first links.now }
    ensures in_range { IfOk result (IsInRange Int) }
{
    let mut value = first;
    for link in links {
        match product_link_value(place, value, link) {
            Ok(result) => value = result,
            Err(refused) => return Err(refused),
        }
    }
    Ok(value)
}
