//! What is told of a text.

ghost use Rattle.std.specs.Prelude.{◌≤◌};

use crate::asked::{Asked, Question, Repeated, Rule, rule_of};
use crate::reading::{Start, read};
use cxx_base::{MAX_NESTING, Names, Place, Span};
use cxx_grammar::Within;
use cxx_reading::ExprFault;
use cxx_tokens::Tokens;
use expr_show::{Part, Show};
use parse_decl::{SyntaxFault, body, unit};
use std::alloc::{AllocError, Global};
use tree_show::{body_text, unit_text};

/// A text with its tokens, and what is asked of it.
#[derive(Clone, Copy)]
pub struct Reading<'a> {
    pub alloc: Global,
    pub names: &'a Names,
    pub tokens: &'a Tokens,
    pub text: &'a str,
    pub asked: Asked,
}

impl Reading<'_> {
    // Whether a tree is not printed, but only whether it ends with the text.
    fn is_brief(self) -> bool {
        match self.asked.repeated {
            Repeated::Once => false,
            Repeated::Times(_) => true,
            Repeated::Open(_) => true,
        }
    }

    // What is told of a tree where it is not printed.
    fn ended(self, end: u32) -> Result<String, AllocError> {
        let is_whole = end as usize == self.tokens.list.len();
        String::from_str(self.alloc, if is_whole { "end" } else { "before the end" })
    }

    // The token after a tree, and the tree.
    fn printed(self, end: u32, tree: String) -> Result<String, AllocError> {
        format!(in self.alloc; "{end} {}", tree.as_str())
    }
}

fn tree_text(rule: Rule, spans: bool, reading: Reading<'_>) -> Result<String, ExprFault>
    requires { reading.asked.level ≤ 257 }
{
    let start = Start {
        alloc: reading.alloc,
        tokens: reading.tokens,
        at: reading.asked.at,
        level: reading.asked.level,
    };
    let (tree, end) = read(rule, start)?;
    if reading.is_brief() {
        return Ok(reading.ended(end)?);
    }
    let show = Show {
        alloc: reading.alloc,
        names: reading.names,
        spans,
    };
    Ok(reading.printed(end, tree.text(show)?)?)
}

// What stands in the braces of a body is too deep at the last level, as past it.
fn of_body(reading: Reading<'_>) -> Result<String, ExprFault>
    requires { reading.asked.level ≤ 257 }
{
    let (tree, end) = body(
        reading.alloc,
        reading.tokens,
        reading.asked.at,
        reading.asked.level.min(MAX_NESTING),
        Within::function(),
    )?;
    if reading.is_brief() {
        return Ok(reading.ended(end)?);
    }
    let tree = body_text(reading.alloc, reading.text, &tree)?;
    Ok(reading.printed(end, tree)?)
}

fn refusal(alloc: Global, code: &str, at: Place) -> Result<String, ExprFault> {
    Ok(format!(in alloc; "{code} {}:{}", at.line, at.column)?)
}

fn of_unit(reading: Reading<'_>) -> Result<String, ExprFault> {
    match unit(reading.alloc, reading.tokens) {
        Ok(tree) => {
            if reading.is_brief() {
                return Ok(String::from_str(reading.alloc, "unit")?);
            }
            Ok(unit_text(reading.alloc, reading.text, &tree)?)
        }
        Err(SyntaxFault::S1(at)) => refusal(reading.alloc, "S1", at),
        Err(SyntaxFault::S2(at)) => refusal(reading.alloc, "S2", at),
        Err(SyntaxFault::Memory) => Err(ExprFault::Memory),
    }
}

// The tokens of a part, up to the one after it, and the line and column of its first character.
fn span_text(alloc: Global, span: Option<Span>) -> Result<String, AllocError> {
    match span {
        Some(span) => format!(in alloc;
            "{}-{} {}:{}",
            span.first, span.end, span.place.line, span.place.column
        ),
        None => String::from_str(alloc, "no such part"),
    }
}

fn of_part(part: Part, reading: Reading<'_>) -> Result<String, ExprFault>
    requires { reading.asked.level ≤ 257 }
{
    let start = Start {
        alloc: reading.alloc,
        tokens: reading.tokens,
        at: reading.asked.at,
        level: reading.asked.level,
    };
    let (tree, _) = read(rule_of(part), start)?;
    Ok(span_text(reading.alloc, tree.span_of(part))?)
}

/// What is told of a text.
pub fn told(reading: Reading<'_>) -> Result<String, ExprFault>
    requires { reading.asked.level ≤ 257 }
{
    match reading.asked.question {
        Question::Tree(rule) => tree_text(rule, false, reading),
        Question::Spans(rule) => tree_text(rule, true, reading),
        Question::Body => of_body(reading),
        Question::Unit => of_unit(reading),
        Question::Span(part) => of_part(part, reading),
        Question::Same(_) => Err(ExprFault::S1),
    }
}
