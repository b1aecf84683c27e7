//! Laws of the definitions.

ghost use Rattle.std.specs.Prelude.{List};
ghost use Rattle.cxx_base.specs.Texts.{Text};
ghost use Rattle.cxx_tokens.specs.Cutting.{AreOne, IsLexed};
ghost use Rattle.cxx_tokens.specs.Lex.{lex};
ghost use Rattle.cxx_tokens.specs.Munch.{LongestAtItsPlace};
ghost use Rattle.cxx_tokens.specs.Tables.{AreNumbered};
ghost use Rattle.cxx_tokens.specs.Usable.{LexedAreUsable};

/// The numbers of words and punctuators that have a name here are their places in the lists.
#[tactic(auto, unfolding(crate::specs::Tables::words, crate::specs::Tables::punctuators, crate::specs::Tables::numbered_words, crate::specs::Tables::numbered_marks))]
pub fn numbers_are_places()
    ensures { AreNumbered }
{}

/// A text has one cut into gaps and tokens at most, and a source has one answer: its tokens, or why it has none.
pub fn cuts_are_one()
    ensures { AreOne }
{}

/// What reads a source from its start to its end, with the line of the last token as its state, comes to the tokens of the cut
/// or to why there is none.
pub fn scan_is_the_cut()
    ensures { (names : List Text) (bytes : Text) → IsLexed names bytes (lex names bytes) }
{}

/// What users of tokens lean on holds of the tokens of each source that has some.
pub fn tokens_are_usable()
    ensures { LexedAreUsable }
{}

/// The token that the scan finds at the front of a text is of a form of tokens, and no longer front of the text is of
/// one ([lex.pptoken]). Where `[::` stands and no further colon, the token is `[`.
pub fn tokens_are_longest()
    ensures { LongestAtItsPlace }
{}
