//! The pieces of types, names, splices and braced lists.

use crate::expr_forms::comma_before;
use crate::piece::{Piece, Waiting, piece_of};
use crate::symbols::fund_text;
use cxx_base::Span;
use cxx_tree::{
    ArgTree, BasicTree, BracedTree, Designator, Identifier, NameTree, SpliceTree, TypeTree,
};
use std::alloc::AllocError;

impl<'a> Waiting<'a> {
    /// Adds the pieces of a type.
    pub fn add_type(&mut self, of: &'a TypeTree) -> Result<(), AllocError> {
        let TypeTree::Type(span, is_const, basic, pointers, is_reference) = of;
        self.add_word(if *is_reference { "&" } else { "" })?;
        for is_const in pointers.as_slice().iter().rev() {
            self.add_word(if *is_const { "*const" } else { "*" })?;
        }
        self.add_opening(
            span,
            if *is_const { "const " } else { "" },
            Piece::Basic(basic),
        )
    }

    /// Adds the pieces of what a type is made of.
    pub fn add_basic(&mut self, basic: &'a BasicTree) -> Result<(), AllocError> {
        match basic {
            BasicTree::Fund(span, fund) => self.add_leaf(span, Piece::Word(fund_text(*fund))),
            BasicTree::Name(name) => self.add(Piece::Name(name)),
            BasicTree::Typename(span, splice) => {
                self.add_one(span, "typename ", Piece::Splice(splice), "")
            }
            BasicTree::Vector(span, name) => {
                self.add_one(span, "vector<", Piece::Name(name), ">")
            }
        }
    }

    /// Adds the pieces of a name.
    pub fn add_name(&mut self, name: &'a NameTree) -> Result<(), AllocError> {
        for part in name.more.as_slice().iter().rev() {
            self.add(Piece::Identifier(part))?;
            self.add_word("::")?;
        }
        self.add_opening(
            &name.span,
            if name.rooted { "::" } else { "" },
            Piece::Identifier(&name.first),
        )
    }

    /// Adds the pieces of a splice.
    pub fn add_splice(&mut self, splice: &'a SpliceTree) -> Result<(), AllocError> {
        let SpliceTree::Splice(span, x) = splice;
        self.add_one(span, "[:", Piece::Expr(x.get()), ":]")
    }

    /// Adds the pieces of a braced list.
    pub fn add_braced(&mut self, list: &'a BracedTree) -> Result<(), AllocError> {
        match list {
            BracedTree::Clauses(span, clauses) => self.add_clauses(span, clauses.as_slice()),
            BracedTree::Designated(span, designators) => {
                self.add_designators(span, designators.as_slice())
            }
        }
    }

    fn add_clauses(&mut self, span: &'a Span, clauses: &'a [ArgTree]) -> Result<(), AllocError> {
        self.add_word("}")?;
        for (n, clause) in clauses.iter().enumerate().rev() {
            self.add(piece_of(clause))?;
            self.add_word(comma_before(n))?;
        }
        self.add_leaf(span, Piece::Word("{"))
    }

    fn add_designators(
        &mut self,
        span: &'a Span,
        designators: &'a [Designator],
    ) -> Result<(), AllocError> {
        self.add_word("}")?;
        for (n, designator) in designators.iter().enumerate().rev() {
            self.add_designator(designator)?;
            self.add_word(comma_before(n))?;
        }
        self.add_leaf(span, Piece::Word("{"))
    }

    fn add_designator(&mut self, designator: &'a Designator) -> Result<(), AllocError> {
        match designator {
            Designator::Equal(span, member, x) => {
                self.add_designated(span, member, " = ", piece_of(x))
            }
            Designator::Braced(span, member, list) => {
                self.add_designated(span, member, " ", Piece::Braced(list))
            }
        }
    }

    fn add_designated(
        &mut self,
        span: &'a Span,
        member: &'a Identifier,
        between: &'a str,
        value: Piece<'a>,
    ) -> Result<(), AllocError> {
        self.add(value)?;
        self.add_word(between)?;
        self.add_opening(span, ".", Piece::Identifier(member))
    }
}
