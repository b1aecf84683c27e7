//! Texts of which parts are told by their words.

use cxx_base::Span;
use cxx_tree::{AliasTree, AliasedTree, AssertTree, BoundTree};
use std::alloc::{AllocError, Global};

/// The words of a text, which are its tokens, and what is printed so far. So a span of tokens is a span of words.
pub struct Printer<'a> {
    words: Vec<&'a str>,
    out: String,
}

impl Drop for Printer<'_> {
    fn drop(self) {
        let Printer { words: _, out: _ } = self;
    }
}

impl<'a> Printer<'a> {
    pub fn new(alloc: Global, text: &'a str) -> Result<Printer<'a>, AllocError> {
        let mut words = Vec::new(alloc);
        for word in text.split_whitespace() {
            words.push(word)?;
        }
        Ok(Printer {
            words,
            out: String::new(alloc),
        })
    }

    pub fn into_text(self) -> String {
        let Printer { words: _, out } = self;
        out
    }
}

impl Printer<'_> {
    pub fn put(&mut self, text: &str) -> Result<(), AllocError> {
        self.out.push_str(text)
    }

    pub fn put_if(&mut self, holds: bool, text: &str) -> Result<(), AllocError> {
        self.out.push_str(if holds { text } else { "" })
    }

    /// The words of a span, each behind a blank.
    pub fn put_words(&mut self, span: Span) -> Result<(), AllocError> {
        for n in span.first..span.end {
            if let Some(word) = self.words.get(n as usize) {
                self.out.push(' ')?;
                self.out.push_str(word)?;
            }
        }
        Ok(())
    }

    /// A text, and words behind it.
    pub fn put_with(&mut self, before: &str, span: Span) -> Result<(), AllocError> {
        self.put(before)?;
        self.put_words(span)
    }

    /// The end of a form: a text, words behind it, and `)`.
    pub fn put_last(&mut self, before: &str, span: Span) -> Result<(), AllocError> {
        self.put_with(before, span)?;
        self.put(")")
    }

    pub fn put_assert(&mut self, x: &AssertTree) -> Result<(), AllocError> {
        let before = if x.message.is_some() {
            "(assert message"
        } else {
            "(assert"
        };
        self.put_last(before, x.condition.get().span())
    }

    pub fn put_alias(&mut self, x: &AliasTree) -> Result<(), AllocError> {
        self.put_with("(using", x.name.span)?;
        match &x.of {
            AliasedTree::Type(of) => self.put_last(" type", of.get().span()),
            AliasedTree::Splice(splice) => self.put_last(" splice", splice.span()),
        }
    }

    fn put_bound(&mut self, bound: &BoundTree) -> Result<(), AllocError> {
        self.put(" [")?;
        if let Some(length) = &bound.length {
            self.put_words(length.span())?;
        }
        self.put(" ]")
    }

    pub fn put_bounds(&mut self, bounds: &[BoundTree]) -> Result<(), AllocError> {
        for bound in bounds {
            self.put_bound(bound)?;
        }
        Ok(())
    }
}
