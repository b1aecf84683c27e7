//! Laws of the grammar. Each function does nothing, and a call of it gives its caller the laws.

ghost use Rattle.cxx_grammar.specs.Units.{unit};
ghost use Rattle.tree_stands.specs.Laws.{ExpressionsStand, StatementsStand, DeclarationsStand, UnitStands, SpansAreOfTokens, NamesAreOfTokens, NamesHaveTexts};

use cxx_tokens::Tokens;

/// At each level, names, types, splices, arguments, braced lists and expressions stand where they were read.
pub fn expressions_stand_where_they_were_read(tokens: &Tokens)
    ensures { ExpressionsStand tokens.now }
{}

/// At each level, statements stand where they were read, and local variables, assignments, assertions, aliases and bodies.
pub fn statements_stand_where_they_were_read(tokens: &Tokens)
    ensures { StatementsStand tokens.now }
{}

/// At each level, declarations and members stand where they were read, and so do the items of a unit.
pub fn declarations_stand_where_they_were_read(tokens: &Tokens)
    ensures { DeclarationsStand tokens.now }
{}

/// The items of a unit that the tokens derive stand in these, each behind the one before it.
pub fn units_stand_where_they_were_read(tokens: &Tokens)
    ensures { UnitStands tokens.now (unit tokens.now) }
{}

/// What `span` answers of a tree that stands somewhere is the span of the tokens there.
pub fn spans_are_of_tokens(tokens: &Tokens)
    ensures { SpansAreOfTokens tokens.now }
{}

/// Each name of a unit that the tokens derive is that of one of them.
pub fn names_are_of_tokens(tokens: &Tokens)
    ensures { NamesAreOfTokens tokens.now }
{}

/// Each name of a unit that the tokens derive has a text among all names among which the tokens are known, as those of a text are
/// among its names.
pub fn names_have_texts(tokens: &Tokens)
    ensures { NamesHaveTexts tokens.now }
{}
