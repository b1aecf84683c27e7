//! The pieces of expressions.

use crate::piece::{Piece, Waiting, piece_of};
use crate::symbols::{binary_text, fund_text, unary_text};
use containers::Boxed;
use cxx_base::Span;
use cxx_tree::{ArgTrees, Expr, NewInit, Operation, Suffix, TypeTree};
use std::alloc::AllocError;

impl<'a> Waiting<'a> {
    /// Adds the pieces of an expression.
    pub fn add_expr(&mut self, x: &'a Expr) -> Result<(), AllocError> {
        match x {
            Expr::Integer(span, n) => self.add_leaf(span, Piece::Integer(n)),
            Expr::Character(span, n) => self.add_leaf(span, Piece::Character(*n)),
            Expr::Text(span, bytes) => self.add_leaf(span, Piece::Text(bytes)),
            Expr::Truth(span, true) => self.add_leaf(span, Piece::Word("true")),
            Expr::Truth(span, false) => self.add_leaf(span, Piece::Word("false")),
            Expr::Nullptr(span) => self.add_leaf(span, Piece::Word("nullptr")),
            Expr::This(span) => self.add_leaf(span, Piece::Word("this")),
            Expr::Name(name) => self.add(Piece::Name(name)),
            Expr::Splice(splice) => self.add(Piece::Splice(splice)),
            Expr::ReflectGlobal(span) => self.add_leaf(span, Piece::Word("^^::")),
            Expr::Paren(span, x) => self.add_one(span, "(paren ", Piece::Expr(x.get()), ")"),
            Expr::Reflect(span, of) => self.add_one(span, "(^^ ", Piece::Type(of.get()), ")"),
            Expr::SizeofType(span, of) => {
                self.add_one(span, "(sizeof type ", Piece::Type(of.get()), ")")
            }
            Expr::SizeofExpr(span, x) => {
                self.add_one(span, "(sizeof expr ", Piece::Expr(x.get()), ")")
            }
            Expr::Delete(span, true, x) => {
                self.add_one(span, "(delete[] ", Piece::Expr(x.get()), ")")
            }
            Expr::Delete(span, false, x) => {
                self.add_one(span, "(delete ", Piece::Expr(x.get()), ")")
            }
            _ => self.add_compound(x),
        }
    }

    // The pieces of an expression of two parts and more.
    fn add_compound(&mut self, x: &'a Expr) -> Result<(), AllocError> {
        match x {
            Expr::Braced(span, basic, list) => self.add_two(
                span,
                "(make ",
                Piece::Basic(basic.get()),
                Piece::Braced(list.get()),
            ),
            Expr::FundCall(span, fund, args) => self.add_two(
                span,
                "(to ",
                Piece::Word(fund_text(*fund)),
                Piece::Args(args),
            ),
            Expr::TypenameCall(span, splice, args) => self.add_two(
                span,
                "(to typename ",
                Piece::Splice(splice),
                Piece::Args(args.get()),
            ),
            Expr::StaticCast(span, to, x) => self.add_two(
                span,
                "(cast ",
                Piece::Type(to.get()),
                Piece::Expr(x.get()),
            ),
            Expr::Unary(span, op, x) => self.add_two(
                span,
                "(",
                Piece::Word(unary_text(*op)),
                Piece::Expr(x.get()),
            ),
            Expr::Extract(span, name, to, x) => self.add_three(
                span,
                "(extract ",
                Piece::Name(name.get()),
                Piece::Type(to.get()),
                Piece::Expr(x.get()),
            ),
            Expr::Conditional(span, condition, on_true, on_false) => self.add_three(
                span,
                "(? ",
                Piece::Expr(condition.get()),
                Piece::Expr(on_true.get()),
                Piece::Expr(on_false.get()),
            ),
            Expr::Postfix(span, first, suffixes) => {
                self.add_postfix(span, first.get(), suffixes.as_slice())
            }
            Expr::Chain(span, first, operations) => {
                self.add_chain(span, first.get(), operations.as_slice())
            }
            Expr::New(span, of, bound, init) => self.add_new(span, of.get(), bound, init),
            _ => Ok(()),
        }
    }

    fn add_postfix(
        &mut self,
        span: &'a Span,
        first: &'a Expr,
        suffixes: &'a [Suffix],
    ) -> Result<(), AllocError> {
        self.add_word(")")?;
        for suffix in suffixes.iter().rev() {
            self.add_suffix(suffix)?;
            self.add_word(" ")?;
        }
        self.add_opening(span, "(post ", Piece::Expr(first))
    }

    fn add_suffix(&mut self, suffix: &'a Suffix) -> Result<(), AllocError> {
        match suffix {
            Suffix::Call(args) => self.add(Piece::Args(args)),
            Suffix::Subscript(span, x) => self.add_one(span, "[", Piece::Expr(x.get()), "]"),
            Suffix::Member(span, is_arrow, member) => {
                self.add_one(span, access_text(*is_arrow), Piece::Identifier(member), "")
            }
            Suffix::MemberSplice(span, is_arrow, splice) => {
                self.add_one(span, access_text(*is_arrow), Piece::Splice(splice), "")
            }
        }
    }

    fn add_chain(
        &mut self,
        span: &'a Span,
        first: &'a Expr,
        operations: &'a [Operation],
    ) -> Result<(), AllocError> {
        self.add_word(")")?;
        for operation in operations.iter().rev() {
            self.add_operation(operation)?;
            self.add_word(" ")?;
        }
        self.add_opening(span, "(chain ", Piece::Expr(first))
    }

    fn add_operation(&mut self, operation: &'a Operation) -> Result<(), AllocError> {
        let Operation::Operation(span, op, x) = operation;
        self.add_further(Piece::Expr(x))?;
        self.add_leaf(span, Piece::Word(binary_text(*op)))
    }

    fn add_new(
        &mut self,
        span: &'a Span,
        of: &'a TypeTree,
        bound: &'a Option<Boxed<Expr>>,
        init: &'a Option<Boxed<NewInit>>,
    ) -> Result<(), AllocError> {
        self.add_word(")")?;
        if let Some(init) = init {
            self.add_further(init_piece(init.get()))?;
        }
        if let Some(bound) = bound {
            self.add_bound(bound.get())?;
        }
        self.add_opening(span, "(new ", Piece::Type(of))
    }

    fn add_bound(&mut self, bound: &'a Expr) -> Result<(), AllocError> {
        self.add_word("]")?;
        self.add(Piece::Expr(bound))?;
        self.add_word(" [")
    }

    /// Adds the pieces of arguments.
    pub fn add_args(&mut self, args: &'a ArgTrees) -> Result<(), AllocError> {
        let ArgTrees::Args(span, list) = args;
        self.add_word(")")?;
        for (n, arg) in list.as_slice().iter().enumerate().rev() {
            self.add(piece_of(arg))?;
            self.add_word(comma_before(n))?;
        }
        self.add_word("(")?;
        self.add(Piece::Span(span))
    }
}

fn access_text(is_arrow: bool) -> &'static str {
    if is_arrow { "->" } else { "." }
}

/// What stands before a part of a list.
pub fn comma_before(n: usize) -> &'static str {
    if n > 0 { ", " } else { "" }
}

fn init_piece<'a>(init: &'a NewInit) -> Piece<'a> {
    match init {
        NewInit::Args(args) => Piece::Args(args),
        NewInit::Braced(list) => Piece::Braced(list),
    }
}
