//! What the definition of tokens says of some texts.

ghost use Rattle.cut_rows.specs.Cuts.{HaveTheirCuts};
ghost use Rattle.cut_rows.specs.Rows.{HaveTheirTokens};

/// Some texts have these tokens and no others, or are refused with this code at this place ([lex]).
pub fn texts_have_their_tokens()
    ensures { HaveTheirTokens }
{}

/// Some texts are cut into these gaps and tokens ([lex.phases], [lex.pptoken]).
pub fn texts_have_their_cuts()
    ensures { HaveTheirCuts }
{}
