//! Enumerations ([dcl.enum]).

ghost use Rattle.cxx_grammar.specs.Declarations as spec;
ghost use Rattle.cxx_reading.specs.Reading.{Gives};

use crate::specifier::KeyWord;
use containers::Items;
use cxx_base::MAX_NESTING;
use cxx_reading::{ExprFault, eat, expect, expect_word, identifier, if_any, span};
use cxx_tokens::keyword::ENUM;
use cxx_tokens::mark::{COLON, COMMA, EQUAL, LEFT_BRACE, RIGHT_BRACE, SEMICOLON};
use cxx_tree::{EnumTree, EnumeratorTree, Expr, TypeTree};
use parse_expr::{expression, type_at};
use parse_repeat::{Here, Part, boxed_if_any, comma_list, optional};

// The value of an enumerator of an enumeration at this level.
#[derive(Clone, Copy)]
struct Value<'a>(Here<'a>);

impl Part for Value<'_> {
    type Tree = Expr;

    ghost can = { λ _. Unit {0} };

    ghost part = { λ p. spec.enumerator_value p.0.tokens.now p.0.level };

    #[tactic(auto, unfolding(cxx_grammar::specs::Declarations::enumerator_value))]
    fn read(&self, start: u32) -> Result<(Expr, u32), ExprFault> {
        let at = expect(self.0.tokens, EQUAL, start)?;
        expression(self.0.alloc, self.0.tokens, at, self.0.level + 1)
    }
}

// An enumerator of an enumeration at this level.
#[derive(Clone, Copy)]
struct Enumerator<'a>(Here<'a>);

impl Enumerator<'_> {
    #[tactic(auto, unfolding(cxx_grammar::specs::Declarations::enumerator_form))]
    fn form(&self, start: u32) -> Result<(EnumeratorTree, u32), ExprFault>
        ensures { Gives (spec.enumerator_form self.now.0.tokens.now self.now.0.level start) result }
    {
        let (name, at) = identifier(self.0.tokens, start)?;
        let (value, end) = optional(&Value(self.0), at)?;
        let span = span(self.0.tokens, start, end);
        Ok((EnumeratorTree { span, name, value }, end))
    }
}

impl Part for Enumerator<'_> {
    type Tree = EnumeratorTree;

    ghost can = { λ _. Unit {0} };

    ghost part = { λ p. spec.enumerator p.0.tokens.now p.0.level };

    #[tactic(auto, using(crate::proofs::Levels::levels))]
    fn read(&self, start: u32) -> Result<(EnumeratorTree, u32), ExprFault> {
        if self.0.level == MAX_NESTING {
            Err(ExprFault::S2)
        } else {
            self.form(start)
        }
    }
}

#[tactic(auto, unfolding(cxx_grammar::specs::Declarations::some_enumerators, cxx_grammar::specs::Declarations::more_enumerators))]
fn some_enumerators(here: &Here<'_>, start: u32) -> Result<(Items<EnumeratorTree>, u32), ExprFault>
    ensures { Gives (spec.some_enumerators here.now.tokens.now here.now.level start) result }
{
    let one = Enumerator(*here);
    let (found, at) = comma_list(here.alloc, here.tokens, &one, start)?;
    let (_, end) = eat(here.tokens, COMMA, at);
    Ok((found, end))
}

#[tactic(auto, unfolding(cxx_grammar::specs::Declarations::enumerators), using(cxx_reading::proofs::Answers::any_left))]
fn enumerators(here: &Here<'_>, start: u32) -> Result<(Items<EnumeratorTree>, u32), ExprFault>
    ensures { Gives (spec.enumerators here.now.tokens.now here.now.level start) result }
{
    if_any(here.alloc, some_enumerators(here, start), start)
}

// The type that an enumeration at this level stands on.
#[derive(Clone, Copy)]
struct Underlying<'a>(Here<'a>);

impl Part for Underlying<'_> {
    type Tree = TypeTree;

    ghost can = { λ _. Unit {0} };

    ghost part = { λ p. spec.underlying p.0.tokens.now p.0.level };

    #[tactic(auto, unfolding(cxx_grammar::specs::Declarations::underlying))]
    fn read(&self, start: u32) -> Result<(TypeTree, u32), ExprFault> {
        let at = expect(self.0.tokens, COLON, start)?;
        type_at(self.0.alloc, self.0.tokens, at, self.0.level)
    }
}

/// The enumeration with its enumerators ([dcl.enum]) that begins at token number `start`, and the number of the token after it:
/// exactly what the grammar gives. It answers `S1` exactly where none begins, `S2` exactly where it is too deep, or `Memory`.
#[tactic(auto, unfolding(cxx_grammar::specs::Declarations::enumeration))]
pub fn enumeration(here: &Here<'_>, start: u32) -> Result<(EnumTree, u32), ExprFault>
    ensures { Gives (spec.enumeration here.now.tokens.now here.now.level start) result }
{
    let at = expect_word(here.tokens, ENUM, start)?;
    let (key, at) = optional(&KeyWord(here.tokens), at)?;
    let (name, at) = identifier(here.tokens, at)?;
    let on = Underlying(*here);
    let (underlying, at) = boxed_if_any(here.alloc, &on, at)?;
    let at = expect(here.tokens, LEFT_BRACE, at)?;
    let (enumerators, at) = enumerators(here, at)?;
    let at = expect(here.tokens, RIGHT_BRACE, at)?;
    let end = expect(here.tokens, SEMICOLON, at)?;
    let span = span(here.tokens, start, end);
    Ok((
        EnumTree {
            span,
            key,
            name,
            underlying,
            enumerators,
        },
        end,
    ))
}
