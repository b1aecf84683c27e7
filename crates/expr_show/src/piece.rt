//! What is still to be printed.

use cxx_base::{Bytes, Span};
use cxx_tree::{
    ArgTree, ArgTrees, BasicTree, BracedTree, Expr, Identifier, IntegerLiteral, NameTree,
    SpliceTree, TypeTree,
};
use std::alloc::{AllocError, Global};

/// A tree, a part of one, or a text that stands between them.
#[derive(Clone, Copy)]
pub enum Piece<'a> {
    Word(&'a str),
    Span(&'a Span),
    Identifier(&'a Identifier),
    Integer(&'a IntegerLiteral),
    Character(u8),
    Text(&'a Bytes),
    Expr(&'a Expr),
    Type(&'a TypeTree),
    Basic(&'a BasicTree),
    Braced(&'a BracedTree),
    Name(&'a NameTree),
    Splice(&'a SpliceTree),
    Args(&'a ArgTrees),
}

/// An argument, or a clause of a braced list.
pub fn piece_of<'a>(arg: &'a ArgTree) -> Piece<'a> {
    match arg {
        ArgTree::Expr(x) => Piece::Expr(x),
        ArgTree::Braced(list) => Piece::Braced(list),
    }
}

/// The pieces that wait. The last is printed next, so what comes first is added last.
pub struct Waiting<'a> {
    pieces: Vec<Piece<'a>>,
}

impl Drop for Waiting<'_> {
    fn drop(self) {
        let Waiting { pieces: _ } = self;
    }
}

impl<'a> Waiting<'a> {
    pub fn new(alloc: Global) -> Waiting<'a> {
        Waiting {
            pieces: Vec::new(alloc),
        }
    }

    /// Adds what is printed before all that waits.
    pub fn add(&mut self, piece: Piece<'a>) -> Result<(), AllocError> {
        self.pieces.push(piece)?;
        Ok(())
    }

    pub fn add_word(&mut self, word: &'a str) -> Result<(), AllocError> {
        self.add(Piece::Word(word))
    }

    /// Takes what is printed next.
    pub fn next(&mut self) -> Option<Piece<'a>> {
        self.pieces.pop()
    }

    /// The beginning of a form: its span, its word and a part.
    pub fn add_opening(
        &mut self,
        span: &'a Span,
        before: &'a str,
        part: Piece<'a>,
    ) -> Result<(), AllocError> {
        self.add(part)?;
        self.add_word(before)?;
        self.add(Piece::Span(span))
    }

    /// A part behind a blank.
    pub fn add_further(&mut self, part: Piece<'a>) -> Result<(), AllocError> {
        self.add(part)?;
        self.add_word(" ")
    }

    /// A form of one piece.
    pub fn add_leaf(&mut self, span: &'a Span, piece: Piece<'a>) -> Result<(), AllocError> {
        self.add(piece)?;
        self.add(Piece::Span(span))
    }

    /// A form with one part between two texts.
    pub fn add_one(
        &mut self,
        span: &'a Span,
        before: &'a str,
        part: Piece<'a>,
        behind: &'a str,
    ) -> Result<(), AllocError> {
        self.add_word(behind)?;
        self.add_opening(span, before, part)
    }

    /// A form with two parts, and a blank between them.
    pub fn add_two(
        &mut self,
        span: &'a Span,
        before: &'a str,
        first: Piece<'a>,
        last: Piece<'a>,
    ) -> Result<(), AllocError> {
        self.add_word(")")?;
        self.add_further(last)?;
        self.add_opening(span, before, first)
    }

    /// A form with three parts, and a blank between each two.
    pub fn add_three(
        &mut self,
        span: &'a Span,
        before: &'a str,
        first: Piece<'a>,
        second: Piece<'a>,
        last: Piece<'a>,
    ) -> Result<(), AllocError> {
        self.add_word(")")?;
        self.add_further(last)?;
        self.add_further(second)?;
        self.add_opening(span, before, first)
    }
}
