//! Initializers ([dcl.init]).

ghost use Rattle.cxx_grammar.specs.Locals as spec;
ghost use Rattle.cxx_reading.specs.Reading.{Gives, optional};
ghost use Rattle.parse_local.specs.Joined as joined;

use containers::Boxed;
use cxx_reading::{ExprFault, expect, longer, sees, sees_ahead};
use cxx_tokens::mark::{EQUAL, LEFT_BRACE};
use cxx_tree::InitTree;
use parse_expr::{braced_at, expression};
use parse_repeat::{Here, Part, boxed_if_any};

// The initializer of a declarator at this level.
#[derive(Clone, Copy)]
struct Init<'a>(Here<'a>);

impl Init<'_> {
    #[tactic(auto, unfolding(cxx_grammar::specs::Locals::init_equal))]
    fn equal(&self, at: u32) -> Result<(InitTree, u32), ExprFault>
        ensures { Gives (spec.init_equal self.now.0.tokens.now self.now.0.level at) result }
    {
        let at = expect(self.0.tokens, EQUAL, at)?;
        let (x, end) = expression(self.0.alloc, self.0.tokens, at, self.0.level)?;
        Ok((InitTree::Equal(x), end))
    }

    #[tactic(auto, unfolding(cxx_grammar::specs::Locals::init_equal_braced))]
    fn equal_braced(&self, at: u32) -> Result<(InitTree, u32), ExprFault>
        ensures { Gives (spec.init_equal_braced self.now.0.tokens.now self.now.0.level at) result }
    {
        let at = expect(self.0.tokens, EQUAL, at)?;
        let (x, end) = braced_at(self.0.alloc, self.0.tokens, at, self.0.level)?;
        Ok((InitTree::EqualBraced(x), end))
    }

    #[tactic(auto, unfolding(cxx_grammar::specs::Locals::init_braced))]
    fn braced(&self, at: u32) -> Result<(InitTree, u32), ExprFault>
        ensures { Gives (spec.init_braced self.now.0.tokens.now self.now.0.level at) result }
    {
        let (x, end) = braced_at(self.0.alloc, self.0.tokens, at, self.0.level)?;
        Ok((InitTree::Braced(x), end))
    }

    #[tactic(auto, unfolding(crate::specs::Joined::equals), using(cxx_reading::proofs::Choices::choice))]
    fn any_equal(&self, at: u32) -> Result<(InitTree, u32), ExprFault>
        ensures { Gives (joined.equals self.now.0.tokens.now self.now.0.level at) result }
    {
        longer(self.equal(at), self.equal_braced(at))
    }

    // What begins with `=`.
    #[tactic(auto, using(crate::proofs::Inits::equals_elsewhere))]
    fn equals(&self, at: u32) -> Result<(InitTree, u32), ExprFault>
        ensures { Gives (joined.equals self.now.0.tokens.now self.now.0.level at) result }
    {
        if sees_ahead(self.0.tokens, LEFT_BRACE, at, 1) {
            self.any_equal(at)
        } else {
            self.equal(at)
        }
    }
}

impl Part for Init<'_> {
    type Tree = InitTree;

    ghost can = { λ _. Unit {0} };

    ghost part = { λ p. spec.init p.0.tokens.now p.0.level };

    // The first two tokens tell which of the three it is.
    #[tactic(auto, using(crate::proofs::Inits::inits))]
    fn read(&self, at: u32) -> Result<(InitTree, u32), ExprFault> {
        if sees(self.0.tokens, EQUAL, at) {
            self.equals(at)
        } else {
            self.braced(at)
        }
    }
}

/// The initializer that begins at token number `at`, or none, and the number of the token after it: exactly what the grammar
/// gives. It answers `S2` exactly where it is too deep, or `Memory`.
pub fn init_if_any(here: &Here<'_>, at: u32) -> Result<(Option<Boxed<InitTree>>, u32), ExprFault>
    ensures { Gives (optional (spec.init here.now.tokens.now here.now.level) at) result }
{
    boxed_if_any(here.alloc, &Init(*here), at)
}
