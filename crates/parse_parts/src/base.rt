//! Base classes ([class.derived]).

ghost use Rattle.cxx_grammar.specs.Classes as spec;
ghost use Rattle.cxx_reading.specs.Reading.{Gives};

use crate::specifier::AccessWord;
use containers::Items;
use cxx_reading::{ExprFault, expect, expect_word, if_any, longer, span};
use cxx_tokens::keyword::TYPENAME;
use cxx_tokens::mark::COLON;
use cxx_tree::{BaseTree, BasedTree};
use parse_expr::{name_at, splice_at};
use parse_repeat::{Here, Part, comma_list, optional};

// A base of a class at this level.
#[derive(Clone, Copy)]
struct Base<'a>(Here<'a>);

impl Base<'_> {
    #[tactic(auto, unfolding(cxx_grammar::specs::Classes::based_name))]
    fn named(&self, start: u32) -> Result<(BasedTree, u32), ExprFault>
        ensures { Gives (spec.based_name self.now.0.tokens.now self.now.0.level start) result }
    {
        let (x, end) = name_at(self.0.alloc, self.0.tokens, start, self.0.level)?;
        Ok((BasedTree::Name(x), end))
    }

    #[tactic(auto, unfolding(cxx_grammar::specs::Classes::based_splice))]
    fn spliced(&self, start: u32) -> Result<(BasedTree, u32), ExprFault>
        ensures { Gives (spec.based_splice self.now.0.tokens.now self.now.0.level start) result }
    {
        let (x, end) = splice_at(self.0.alloc, self.0.tokens, start, self.0.level)?;
        Ok((BasedTree::Splice(x), end))
    }

    #[tactic(auto, unfolding(cxx_grammar::specs::Classes::based_typename))]
    fn typename(&self, start: u32) -> Result<(BasedTree, u32), ExprFault>
        ensures { Gives (spec.based_typename self.now.0.tokens.now self.now.0.level start) result }
    {
        let at = expect_word(self.0.tokens, TYPENAME, start)?;
        let (x, end) = splice_at(self.0.alloc, self.0.tokens, at, self.0.level)?;
        Ok((BasedTree::Typename(span(self.0.tokens, start, end), x), end))
    }

    #[tactic(auto, unfolding(cxx_grammar::specs::Classes::based), using(cxx_reading::proofs::Choices::choice))]
    fn based(&self, start: u32) -> Result<(BasedTree, u32), ExprFault>
        ensures { Gives (spec.based self.now.0.tokens.now self.now.0.level start) result }
    {
        longer(
            self.named(start),
            longer(self.spliced(start), self.typename(start)),
        )
    }
}

impl Part for Base<'_> {
    type Tree = BaseTree;

    ghost can = { λ _. Unit {0} };

    ghost part = { λ p. spec.base p.0.tokens.now p.0.level };

    #[tactic(auto, unfolding(cxx_grammar::specs::Classes::base))]
    fn read(&self, start: u32) -> Result<(BaseTree, u32), ExprFault> {
        let (access, at) = optional(&AccessWord(self.0.tokens), start)?;
        let (of, end) = self.based(at)?;
        let span = span(self.0.tokens, start, end);
        Ok((BaseTree { span, access, of }, end))
    }
}

#[tactic(auto, unfolding(cxx_grammar::specs::Classes::some_bases, cxx_grammar::specs::Classes::more_bases))]
fn some_bases(here: &Here<'_>, start: u32) -> Result<(Items<BaseTree>, u32), ExprFault>
    ensures { Gives (spec.some_bases here.now.tokens.now here.now.level start) result }
{
    let at = expect(here.tokens, COLON, start)?;
    let one = Base(*here);
    comma_list(here.alloc, here.tokens, &one, at)
}

/// The base classes behind the name of a class ([class.derived]), or none, and the number of the token after them: exactly what
/// the grammar gives. It answers `S2` exactly where one is too deep, or `Memory`.
#[tactic(auto, unfolding(cxx_grammar::specs::Classes::bases), using(cxx_reading::proofs::Answers::any_left))]
pub fn bases(here: &Here<'_>, start: u32) -> Result<(Items<BaseTree>, u32), ExprFault>
    ensures { Gives (spec.bases here.now.tokens.now here.now.level start) result }
{
    if_any(here.alloc, some_bases(here, start), start)
}
