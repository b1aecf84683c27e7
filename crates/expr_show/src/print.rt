//! Trees as texts.
//!
//! `(chain a + b)`, `(post f (x) [i] .m)`, `(? a b c)`; the parts of a form stand behind its word, a type is as it is
//! written, and an integer literal that is not decimal has a `#`. What is still to be printed waits in a list, so that
//! a deep tree takes no stack.

use crate::piece::{Piece, Waiting};
use cxx_base::{Name, Names, Span};
use cxx_tree::IntegerLiteral;
use std::alloc::{AllocError, Global};

/// How trees are shown: with the texts of these names, and with the tokens of each node, if `spans` says so.
#[derive(Clone, Copy)]
pub struct Show<'a> {
    pub alloc: Global,
    pub names: &'a Names,
    pub spans: bool,
}

impl Show<'_> {
    /// A tree as a text.
    pub fn print(self, tree: Piece<'_>) -> Result<String, AllocError> {
        let mut out = String::new(self.alloc);
        let mut waiting = Waiting::new(self.alloc);
        waiting.add(tree)?;
        for _ in 0..u64::MAX {
            let Some(piece) = waiting.next() else {
                break;
            };
            self.put(&mut out, &mut waiting, piece)?;
        }
        Ok(out)
    }

    // Prints a piece, or adds its own pieces in its place.
    fn put<'t>(
        self,
        out: &mut String,
        waiting: &mut Waiting<'t>,
        piece: Piece<'t>,
    ) -> Result<(), AllocError> {
        match piece {
            Piece::Word(word) => out.push_str(word),
            Piece::Span(span) => self.put_span(out, span),
            Piece::Identifier(identifier) => put_name(out, self.names, identifier.name),
            Piece::Integer(n) => put_integer(out, n),
            Piece::Character(n) => write!(out, "'{n}"),
            Piece::Text(bytes) => write!(out, "{:?}", bytes.as_slice()),
            tree => waiting.add_parts(tree),
        }
    }

    fn put_span(self, out: &mut String, span: &Span) -> Result<(), AllocError> {
        if self.spans {
            write!(out, "{}-{}:", span.first, span.end)
        } else {
            Ok(())
        }
    }
}

impl<'a> Waiting<'a> {
    // The pieces of a tree.
    fn add_parts(&mut self, tree: Piece<'a>) -> Result<(), AllocError> {
        match tree {
            Piece::Expr(x) => self.add_expr(x),
            Piece::Type(of) => self.add_type(of),
            Piece::Basic(basic) => self.add_basic(basic),
            Piece::Braced(list) => self.add_braced(list),
            Piece::Name(name) => self.add_name(name),
            Piece::Splice(splice) => self.add_splice(splice),
            Piece::Args(args) => self.add_args(args),
            _ => Ok(()),
        }
    }
}

fn put_name(out: &mut String, names: &Names, name: Name) -> Result<(), AllocError> {
    if name.0 < names.len() {
        out.push_str(names.text(name))
    } else {
        out.push_str("no name")
    }
}

fn size_text(longs: u32) -> &'static str {
    match longs {
        0 => "",
        1 => "l",
        _ => "ll",
    }
}

fn put_integer(out: &mut String, n: &IntegerLiteral) -> Result<(), AllocError> {
    let base = if n.decimal { "" } else { "#" };
    let sign = if n.unsigned { "u" } else { "" };
    let size = size_text(n.longs);
    write!(out, "{base}{}{sign}{size}", n.n)
}
