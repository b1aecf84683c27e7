//! Laws over all rules. Each function does nothing, and a call of it gives its caller the laws.

ghost use Rattle.cxx_reading.specs.Laws.{IsLongest, IsDeepAsEither, IsNothingAsBoth, IsNoFault, IsNotCutOff, EndsAtNothing};

use cxx_tokens::Tokens;

/// A choice gives the form that ends last, and for a tie the first. It is too deep exactly where a form of it is, and
/// nothing begins exactly where none of its forms does.
pub fn choices_take_the_longest<A>()
    ensures longest { IsLongest A }
    ensures deep { IsDeepAsEither A }
    ensures nothing { IsNothingAsBoth A }
{}

/// An optional part, and a repetition, read or are too deep.
pub fn missing_parts_are_no_fault<A>(tokens: &Tokens)
    ensures { IsNoFault A tokens.now }
{}

/// Where each turn of a repetition takes a token, and none begins behind the last one, the bound of the repetition says
/// nothing: with more turns it comes to the same end, and it ends only where its part reads nothing more.
pub fn repetitions_end_by_themselves<A>(tokens: &Tokens)
    ensures bound { IsNotCutOff A tokens.now }
    ensures end { EndsAtNothing A tokens.now }
{}
