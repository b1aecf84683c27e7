//! From parsed trees to the declarations of the accepted form.

ghost use Rattle.std.specs.Prelude.{◌≡◌, if◌then◌else◌, [], IfOk, Some, None};
ghost use Rattle.cxx_tree.specs.declared.decl.Item.TheVariants as item_of;
ghost use Rattle.reflect_cli.specs.Accepted as spec;

use crate::form_tree::{Arithmetic, Chain, Declaration, Link, Literal, Product, Sum};
use containers::{Boxed, Items};
use cxx_base::{IntKind, IntOp, Memory, Place};
use cxx_tree::{
    BasicTree, BinaryOp, Decl, Evaluated, Expr, Fund, InitTree, IntegerLiteral, Item, Operation,
    Specifiers, TypeTree, VariableTree,
};
use parse_decl::Taker;
use std::alloc::Global;

fn int_literal(place: Place, decimal: bool, value: u64) -> Option<Literal>
    ensures { result ≡ spec.int_literal place decimal value }
{
    if (decimal || value == 0) && value <= 2_147_483_647 {
        Some(Literal {
            place,
            value: value as i32,
        })
    } else {
        None
    }
}

fn literal_of(place: Place, n: IntegerLiteral) -> Option<Literal>
    ensures { result ≡ spec.literal_of place n }
{
    if !n.unsigned && n.longs == 0 {
        int_literal(place, n.decimal, n.n)
    } else {
        None
    }
}

fn literal(x: &Expr) -> Option<Literal>
    ensures { result ≡ spec.literal x.now }
{
    match x {
        Expr::Integer(span, n) => literal_of(span.place, *n),
        _ => None,
    }
}

fn multiplicative(op: BinaryOp) -> Option<Arithmetic>
    ensures { result ≡ spec.multiplicative op }
{
    match op {
        BinaryOp::Int(IntOp::Mul) => Some(Arithmetic::Mul),
        BinaryOp::Int(IntOp::Div) => Some(Arithmetic::Div),
        BinaryOp::Int(IntOp::Rem) => Some(Arithmetic::Rem),
        _ => None,
    }
}

fn additive(op: BinaryOp) -> Option<Arithmetic>
    ensures { result ≡ spec.additive op }
{
    match op {
        BinaryOp::Int(IntOp::Add) => Some(Arithmetic::Add),
        BinaryOp::Int(IntOp::Sub) => Some(Arithmetic::Sub),
        _ => None,
    }
}

fn multiplicative_link(operation: &Operation) -> Option<Link<Literal>>
    ensures { result ≡ spec.link spec.multiplicative spec.literal operation.now }
{
    let Operation::Operation(_, op, x) = operation;
    match (multiplicative(*op), literal(x)) {
        (Some(operator), Some(operand)) => Some(Link { operator, operand }),
        _ => None,
    }
}

// The links so far. Where there are none, the first of so many is at hand, since the operations of a chain are of one line.
fn with_room(
    alloc: Global,
    found: Items<Link<Literal>>,
    count: usize,
) -> Result<Items<Link<Literal>>, Memory>
    ensures { IfOk result (λ after. after ≡ found) }
{
    if found.is_empty() {
        Ok(Items::from_vec(Vec::with_capacity(alloc, count)?))
    } else {
        Ok(found)
    }
}

fn multiplicative_links(
    alloc: Global,
    operations: &[Operation],
) -> Result<Option<Items<Link<Literal>>>, Memory>
    ensures { IfOk result (λ found. found ≡ spec.all_of (spec.link spec.multiplicative spec.literal) [] operations.now) }
{
    let mut found = Items::new(alloc);
    let mut rest = operations;
    while let Some((operation, more)) = rest.split_first() {
        match multiplicative_link(operation) {
            Some(link) => {
                found = with_room(alloc, found, rest.len())?;
                found.push(link)?;
            }
            None => return Ok(None),
        }
        rest = more;
    }
    Ok(Some(found))
}

fn single<T: Drop>(alloc: Global, first: Option<T>) -> Option<Chain<T>>
    ensures { result ≡ spec.chain_with first (Some []) }
{
    match first {
        Some(first) => Some(Chain {
            first,
            rest: Items::new(alloc),
        }),
        None => None,
    }
}

fn joined<T: Drop>(first: Option<T>, rest: Option<Items<Link<T>>>) -> Option<Chain<T>>
    ensures { result ≡ spec.chain_with first rest }
{
    match (first, rest) {
        (Some(first), Some(rest)) => Some(Chain { first, rest }),
        _ => None,
    }
}

// A multiplicative-expression ([expr.mul]).
#[tactic(auto, using(crate::proofs::Rows::product_of_chain), unfolding(crate::specs::Accepted::product))]
fn product(alloc: Global, x: &Expr) -> Result<Option<Product>, Memory>
    ensures { IfOk result (λ found. found ≡ spec.product x.now) }
{
    match x {
        Expr::Chain(_, first, operations) => Ok(joined(
            literal(first.get()),
            multiplicative_links(alloc, operations.as_slice())?,
        )),
        _ => Ok(single(alloc, literal(x))),
    }
}

fn additive_link(alloc: Global, operation: &Operation) -> Result<Option<Link<Product>>, Memory>
    ensures { IfOk result (λ found. found ≡ spec.link spec.additive spec.product operation.now) }
{
    let Operation::Operation(_, op, x) = operation;
    match (additive(*op), product(alloc, x)?) {
        (Some(operator), Some(operand)) => Ok(Some(Link { operator, operand })),
        _ => Ok(None),
    }
}

fn additive_links(
    alloc: Global,
    operations: &[Operation],
) -> Result<Option<Items<Link<Product>>>, Memory>
    ensures { IfOk result (λ found. found ≡ spec.all_of (spec.link spec.additive spec.product) [] operations.now) }
{
    let mut found = Items::from_vec(Vec::with_capacity(alloc, operations.len())?);
    let mut rest = operations;
    while let Some((operation, more)) = rest.split_first() {
        match additive_link(alloc, operation)? {
            Some(link) => found.push(link)?,
            None => return Ok(None),
        }
        rest = more;
    }
    Ok(Some(found))
}

#[tactic(auto, using(crate::proofs::Rows::sum_of_chain))]
fn sum_of_products(alloc: Global, x: &Expr) -> Result<Option<Sum>, Memory>
    ensures { IfOk result (λ found. found ≡ spec.sum_of_products x.now) }
{
    match x {
        Expr::Chain(_, first, operations) => Ok(joined(
            product(alloc, first.get())?,
            additive_links(alloc, operations.as_slice())?,
        )),
        _ => Ok(None),
    }
}

// An additive-expression ([expr.add]).
#[tactic(auto, unfolding(crate::specs::Accepted::sum))]
fn sum(alloc: Global, x: &Expr) -> Result<Option<Sum>, Memory>
    ensures { IfOk result (λ found. found ≡ spec.sum x.now) }
{
    match product(alloc, x)? {
        Some(first) => Ok(Some(Chain {
            first,
            rest: Items::new(alloc),
        })),
        None => sum_of_products(alloc, x),
    }
}

fn is_only_constexpr(words: Specifiers) -> bool
    ensures { result ≡ spec.is_only_constexpr words }
{
    !words.is_inline
        && !words.is_static
        && match words.evaluated {
            Evaluated::Constexpr => true,
            _ => false,
        }
}

fn is_only_int(of: &TypeTree) -> bool
    ensures { result ≡ spec.is_only_int of.now }
{
    match of {
        TypeTree::Type(_, false, BasicTree::Fund(_, Fund::Int(IntKind::Int)), pointers, false) => {
            pointers.is_empty()
        }
        _ => false,
    }
}

fn has_form(x: &VariableTree) -> bool
    ensures { result ≡ spec.has_form x.now }
{
    is_only_constexpr(x.specifiers) && is_only_int(x.of_type.get()) && x.bounds.is_empty()
}

fn initializer_sum(alloc: Global, init: &InitTree) -> Result<Option<Sum>, Memory>
    ensures { IfOk result (λ found. found ≡ spec.initializer (Some init.now)) }
{
    match init {
        InitTree::Equal(x) => sum(alloc, x),
        _ => Ok(None),
    }
}

fn initializer(alloc: Global, init: &Option<Boxed<InitTree>>) -> Result<Option<Sum>, Memory>
    ensures { IfOk result (λ found. found ≡ spec.initializer init.now) }
{
    match init {
        Some(init) => initializer_sum(alloc, init.get()),
        None => Ok(None),
    }
}

fn variable(alloc: Global, x: &VariableTree) -> Result<Option<Declaration>, Memory>
    ensures { IfOk result (λ found. found ≡ spec.variable x.now) }
{
    if !has_form(x) {
        return Ok(None);
    }
    match initializer(alloc, &x.init)? {
        Some(initializer) => Ok(Some(Declaration {
            name: x.name.name,
            initializer,
        })),
        None => Ok(None),
    }
}

fn decl(alloc: Global, x: &Decl) -> Result<Option<Declaration>, Memory>
    ensures { IfOk result (λ found. found ≡ spec.declaration (item_of.Decl x.now)) }
{
    match x {
        Decl::Variable(x) => variable(alloc, x),
        _ => Ok(None),
    }
}

fn declaration(alloc: Global, item: &Item) -> Result<Option<Declaration>, Memory>
    ensures { IfOk result (λ found. found ≡ spec.declaration item.now) }
{
    match item {
        Item::Decl(x) => decl(alloc, x.get()),
        _ => Ok(None),
    }
}

/// The declarations of the items that were taken, as long as each is one.
pub struct Accepting {
    alloc: Global,
    found: Items<Declaration>,
    // Whether each item was a declaration; where one was not, no more are looked at.
    is_accepted: bool,
}

impl Drop for Accepting {
    fn drop(self) {
        let Accepting {
            alloc: _,
            found: _,
            is_accepted: _,
        } = self;
    }
}

impl Accepting {
    /// No items.
    #[tactic(auto, unfolding(crate::specs::Accepted::declarations))]
    pub fn new(alloc: Global) -> Accepting
        ensures { spec.declarations [] ≡ (if result.is_accepted then Some result.found else None) }
    {
        Accepting {
            alloc,
            found: Items::new(alloc),
            is_accepted: true,
        }
    }

    /// The declarations that the items are.
    pub fn into_found(self) -> Option<Items<Declaration>>
        ensures { result ≡ (if self.is_accepted then Some self.found else None) }
    {
        let Accepting {
            alloc: _,
            found,
            is_accepted,
        } = self;
        if is_accepted { Some(found) } else { None }
    }
}

impl Taker for Accepting {
    ghost took = { λ it items. spec.declarations items ≡ (if it.is_accepted then Some it.found else None) };

    #[tactic(auto, using(crate::proofs::Accepts::one_more, crate::proofs::Accepts::no_more, crate::proofs::Accepts::stays_none))]
    fn take(&mut self, item: Item) -> Result<(), Memory> {
        if self.is_accepted {
            match declaration(self.alloc, &item)? {
                Some(x) => {
                    self.found.push(x)?;
                    Ok(())
                }
                None => {
                    self.is_accepted = false;
                    Ok(())
                }
            }
        } else {
            Ok(())
        }
    }
}
