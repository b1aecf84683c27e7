//! Laws of the grammar.

ghost use Rattle.cxx_grammar.specs.Units.{unit};
ghost use Rattle.cxx_grammar.specs.Laws.{EndsByItself, IsDecided};

use cxx_tokens::Tokens;

/// Each item of a unit takes a token, so the bound on their number says nothing: with more turns the items are the same. What
/// decides is where the items stop that read one after the other.
pub fn units_end_by_themselves(tokens: &Tokens)
    ensures bound { EndsByItself tokens.now }
    ensures decided { IsDecided tokens.now (unit tokens.now) }
{}
