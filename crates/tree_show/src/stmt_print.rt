//! Bodies as texts: a form with its parts, of which types, expressions and braced lists are the words of the text that
//! their spans tell.

use crate::printer::Printer;
use cxx_base::{IntOp, Span};
use cxx_tree::{
    ArgTree, AssignTree, BodyTree, ClassTree, Expr, ForHead, ForInit, ForRange, ForStep, InitTree,
    LocalTree, Returned, StepOp, Stmt,
};
use std::alloc::{AllocError, Global};

fn compound_text(op: IntOp) -> &'static str {
    match op {
        IntOp::Add => "(+=",
        IntOp::Sub => "(-=",
        IntOp::Mul => "(*=",
        IntOp::Div => "(/=",
        IntOp::Rem => "(%=",
        IntOp::Xor => "(^=",
        IntOp::And => "(&=",
        IntOp::Or => "(|=",
        IntOp::Shl => "(<<=",
        IntOp::Shr => "(>>=",
    }
}

fn step_text(op: StepOp) -> &'static str {
    match op {
        StepOp::PreIncrement => "(++x",
        StepOp::PreDecrement => "(--x",
        StepOp::PostIncrement => "(x++",
        StepOp::PostDecrement => "(x--",
    }
}

fn before_value(value: &ArgTree) -> &'static str {
    match value {
        ArgTree::Expr(_) => ",",
        ArgTree::Braced(_) => ", braced",
    }
}

fn class_span(x: &ClassTree) -> Span {
    match x {
        ClassTree::Declared(span, _, _) => *span,
        ClassTree::Defined(span, _, _, _, _) => *span,
    }
}

impl Printer<'_> {
    fn put_local_init(&mut self, init: &InitTree) -> Result<(), AllocError> {
        match init {
            InitTree::Equal(x) => self.put_with(" equal", x.span()),
            InitTree::EqualBraced(x) => self.put_with(" equal-braced", x.span()),
            InitTree::Braced(x) => self.put_with(" braced", x.span()),
        }
    }

    fn put_local(&mut self, x: &LocalTree) -> Result<(), AllocError> {
        let before = if x.is_constexpr {
            "(local constexpr,"
        } else {
            "(local"
        };
        self.put_with(before, x.of_type.get().span())?;
        self.put_with(",", x.name.span)?;
        self.put_bounds(x.bounds.as_slice())?;
        if let Some(init) = &x.init {
            self.put_local_init(init.get())?;
        }
        self.put(")")
    }

    fn put_assign(&mut self, x: &AssignTree) -> Result<(), AllocError> {
        match x {
            AssignTree::Equal(_, place, value) => {
                self.put_with("(=", place.span())?;
                self.put_last(before_value(value.get()), value.get().span())
            }
            AssignTree::Compound(_, op, place, value) => {
                self.put_with(compound_text(*op), place.span())?;
                self.put_last(",", value.get().span())
            }
            AssignTree::Step(_, op, place) => self.put_last(step_text(*op), place.span()),
        }
    }

    fn put_for_init(&mut self, x: &ForInit) -> Result<(), AllocError> {
        match x {
            ForInit::Local(x) => self.put_local(x),
            ForInit::Assign(x) => self.put_assign(x),
            ForInit::Empty(span) => self.put_words(*span),
        }
    }

    fn put_for_step(&mut self, x: &ForStep) -> Result<(), AllocError> {
        match x {
            ForStep::Assign(x) => self.put_assign(x),
            ForStep::Expr(x) => self.put_words(x.span()),
        }
    }

    fn put_for_head(&mut self, head: &ForHead) -> Result<(), AllocError> {
        self.put("(for")?;
        self.put_for_init(head.first.get())?;
        self.put(" while")?;
        if let Some(condition) = &head.condition {
            self.put_words(condition.get().span())?;
        }
        self.put(" step")?;
        if let Some(step) = &head.step {
            self.put_for_step(step.get())?;
        }
        self.put(" do")
    }

    fn put_range_head(&mut self, head: &ForRange) -> Result<(), AllocError> {
        self.put_with("(each", head.of_type.get().span())?;
        self.put_with(",", head.name.span)?;
        self.put_with(" of", head.over.get().span())?;
        self.put(" do")
    }

    fn put_if_head(&mut self, condition: &Expr) -> Result<(), AllocError> {
        self.put_with("(if", condition.span())?;
        self.put(" then")
    }

    fn put_while_head(&mut self, condition: &Expr) -> Result<(), AllocError> {
        self.put_with("(while", condition.span())?;
        self.put(" do")
    }

    fn put_returned(&mut self, x: &Option<Returned>) -> Result<(), AllocError> {
        match x {
            Some(Returned::Expr(x)) => self.put_last("(return", x.span()),
            Some(Returned::Braced(x)) => self.put_last("(return braced", x.span()),
            None => self.put("(return)"),
        }
    }

    #[cycle(print_statement)]
    fn put_body(&mut self, body: &BodyTree) -> Result<(), AllocError> {
        let BodyTree::Body(_, all) = body;
        self.put("{")?;
        for x in all.as_slice() {
            self.put_stmt(x)?;
        }
        self.put("}")
    }

    // The statement of a head, and the end of the form.
    #[cycle(print_statement)]
    fn put_turn(&mut self, turn: &Stmt) -> Result<(), AllocError> {
        self.put_stmt(turn)?;
        self.put(")")
    }

    #[cycle(print_statement)]
    fn put_else(&mut self, fails: &Stmt) -> Result<(), AllocError> {
        self.put(" else")?;
        self.put_stmt(fails)
    }

    #[cycle(print_statement)]
    fn put_stmt(&mut self, x: &Stmt) -> Result<(), AllocError> {
        match x {
            Stmt::Body(body) => self.put_body(body),
            Stmt::Empty(span) => self.put_words(*span),
            Stmt::Assert(x) => self.put_assert(x),
            Stmt::Alias(x) => self.put_alias(x),
            Stmt::Class(x) => self.put_last("(class", class_span(x.get())),
            Stmt::Block(x) => self.put_last("(block", x.span),
            Stmt::Local(x) => self.put_local(x),
            Stmt::Assign(x) => self.put_assign(x),
            Stmt::Expr(_, x) => self.put_last("(expr", x.span()),
            Stmt::If(_, condition, holds, fails) => {
                self.put_if_head(condition)?;
                self.put_stmt(holds.get())?;
                if let Some(fails) = fails {
                    self.put_else(fails.get())?;
                }
                self.put(")")
            }
            Stmt::While(_, condition, turn) => {
                self.put_while_head(condition)?;
                self.put_turn(turn.get())
            }
            Stmt::For(_, head, turn) => {
                self.put_for_head(head)?;
                self.put_turn(turn.get())
            }
            Stmt::RangeFor(_, head, turn) => {
                self.put_range_head(head)?;
                self.put_turn(turn.get())
            }
            Stmt::Return(_, x) => self.put_returned(x),
            Stmt::Break(span) => self.put_words(*span),
            Stmt::Continue(span) => self.put_words(*span),
        }
    }
}

/// A body as a text, of the text that it is the tree of.
pub fn body_text(alloc: Global, text: &str, body: &BodyTree) -> Result<String, AllocError> {
    let mut printer = Printer::new(alloc, text)?;
    printer.put_body(body)?;
    Ok(printer.into_text())
}
