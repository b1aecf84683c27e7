//! What a heading asks of the lines below it.

use cxx_base::TOO_DEEP;
use expr_show::{Part, part_named};
use std::alloc::{AllocError, Global};

/// The rules of expressions and types that are read by public calls. `Behind` is an expression of which the unary expression is
/// read before.
#[derive(Clone, Copy)]
pub enum Rule {
    Expr,
    Type,
    Braced,
    Unary,
    Name,
    Splice,
    Args,
    Behind,
}

#[derive(Clone, Copy)]
pub enum Question {
    Tree(Rule),
    Spans(Rule),
    Body,
    Unit,
    Same(Part),
    Span(Part),
}

/// The rule of the trees in which a part stands.
pub fn rule_of(part: Part) -> Rule {
    match part {
        Part::Expression | Part::Suffix | Part::Operation | Part::Initializer => Rule::Expr,
        Part::Type | Part::Base => Rule::Type,
        Part::Braced | Part::Designator => Rule::Braced,
        Part::Arguments | Part::Argument => Rule::Args,
        Part::Name | Part::Identifier => Rule::Name,
        Part::Splice => Rule::Splice,
    }
}

/// How a line is made a text: as it is, or with its parts repeated, of which those behind the middle may be left out.
#[derive(Clone, Copy)]
pub enum Repeated {
    Once,
    Times(u32),
    Open(u32),
}

/// What is asked, and of which text at which level, not above 257, and from which token.
#[derive(Clone, Copy)]
pub struct Asked {
    pub question: Question,
    pub level: u32,
    pub at: u32,
    pub repeated: Repeated,
}

fn rule_named(name: &str) -> Option<Rule> {
    match name {
        "expression" => Some(Rule::Expr),
        "type" => Some(Rule::Type),
        "braced" => Some(Rule::Braced),
        "unary" => Some(Rule::Unary),
        "name" => Some(Rule::Name),
        "splice" => Some(Rule::Splice),
        "arguments" => Some(Rule::Args),
        "behind" => Some(Rule::Behind),
        _ => None,
    }
}

fn question_of(first: &str, second: &str) -> Option<Question> {
    match first {
        "spans" => Some(Question::Spans(rule_named(second)?)),
        "same" => Some(Question::Same(part_named(second)?)),
        "span" => Some(Question::Span(part_named(second)?)),
        _ => None,
    }
}

// A question of one word.
fn short_question(word: &str) -> Option<Question> {
    match word {
        "body" => Some(Question::Body),
        "unit" => Some(Question::Unit),
        name => Some(Question::Tree(rule_named(name)?)),
    }
}

// What is asked where a number stands behind this word too.
fn with_number(asked: Asked, word: &str, number: &str) -> Option<Asked> {
    let number = number.parse::<u32>().ok()?;
    let mut asked = asked;
    match word {
        "at" => asked.level = number,
        "from" => asked.at = number,
        "times" => asked.repeated = Repeated::Times(number),
        "open" => asked.repeated = Repeated::Open(number),
        _ => return None,
    }
    if asked.level <= TOO_DEEP {
        Some(asked)
    } else {
        None
    }
}

// The word that begins a text, and what stands behind the blank after it.
fn first_word(text: &str) -> (&str, &str) {
    text.split_once(' ').unwrap_or((text, ""))
}

// What a question and the numbers behind it ask.
fn with_numbers(question: Question, numbers: &str) -> Option<Asked> {
    let mut asked = Asked {
        question,
        level: 0,
        at: 0,
        repeated: Repeated::Once,
    };
    let mut rest = numbers;
    for _ in 0..numbers.len() {
        if rest.is_empty() {
            break;
        }
        let (word, behind) = first_word(rest);
        let (number, more) = first_word(behind);
        asked = with_number(asked, word, number)?;
        rest = more;
    }
    Some(asked)
}

fn asked_by(text: &str) -> Option<Asked> {
    let (first, behind) = first_word(text);
    let (second, more) = first_word(behind);
    match question_of(first, second) {
        Some(question) => with_numbers(question, more),
        None => with_numbers(short_question(first)?, behind),
    }
}

/// The questions of a heading, or none where one of them is no question.
pub fn questions(alloc: Global, heading: &str) -> Result<Vec<Asked>, AllocError> {
    let questions = match heading.split_once(", ") {
        Some((questions, _)) => questions,
        None => heading,
    };
    let mut all = Vec::new(alloc);
    for text in questions.split("; ") {
        match asked_by(text) {
            Some(asked) => all.push(asked)?,
            None => return Ok(Vec::new(alloc)),
        }
    }
    Ok(all)
}
