//! Member initializers ([class.base.init]).

ghost use Rattle.cxx_grammar.specs.Classes as spec;
ghost use Rattle.cxx_reading.specs.Reading.{Gives};

use containers::Items;
use cxx_reading::{ExprFault, expect, if_any, longer, span};
use cxx_tokens::mark::COLON;
use cxx_tree::{MemberInit, MemberInitValue};
use parse_expr::{args_at, braced_at, name_at};
use parse_repeat::{Here, Part, comma_list};

// A member initializer of a constructor at this level.
#[derive(Clone, Copy)]
struct OneInit<'a>(Here<'a>);

impl OneInit<'_> {
    #[tactic(auto, unfolding(cxx_grammar::specs::Classes::value_args))]
    fn args(&self, start: u32) -> Result<(MemberInitValue, u32), ExprFault>
        ensures { Gives (spec.value_args self.now.0.tokens.now self.now.0.level start) result }
    {
        let (x, end) = args_at(self.0.alloc, self.0.tokens, start, self.0.level)?;
        Ok((MemberInitValue::Args(x), end))
    }

    #[tactic(auto, unfolding(cxx_grammar::specs::Classes::value_braced))]
    fn braced(&self, start: u32) -> Result<(MemberInitValue, u32), ExprFault>
        ensures { Gives (spec.value_braced self.now.0.tokens.now self.now.0.level start) result }
    {
        let (x, end) = braced_at(self.0.alloc, self.0.tokens, start, self.0.level)?;
        Ok((MemberInitValue::Braced(x), end))
    }

    #[tactic(auto, unfolding(cxx_grammar::specs::Classes::init_value), using(cxx_reading::proofs::Choices::choice))]
    fn value(&self, start: u32) -> Result<(MemberInitValue, u32), ExprFault>
        ensures { Gives (spec.init_value self.now.0.tokens.now self.now.0.level start) result }
    {
        longer(self.args(start), self.braced(start))
    }
}

impl Part for OneInit<'_> {
    type Tree = MemberInit;

    ghost can = { λ _. Unit {0} };

    ghost part = { λ p. spec.member_init p.0.tokens.now p.0.level };

    #[tactic(auto, unfolding(cxx_grammar::specs::Classes::member_init))]
    fn read(&self, start: u32) -> Result<(MemberInit, u32), ExprFault> {
        let (name, at) = name_at(self.0.alloc, self.0.tokens, start, self.0.level)?;
        let (value, end) = self.value(at)?;
        let span = span(self.0.tokens, start, end);
        Ok((MemberInit { span, name, value }, end))
    }
}

#[tactic(auto, unfolding(cxx_grammar::specs::Classes::some_inits, cxx_grammar::specs::Classes::more_inits))]
fn some_inits(here: &Here<'_>, start: u32) -> Result<(Items<MemberInit>, u32), ExprFault>
    ensures { Gives (spec.some_inits here.now.tokens.now here.now.level start) result }
{
    let at = expect(here.tokens, COLON, start)?;
    let one = OneInit(*here);
    comma_list(here.alloc, here.tokens, &one, at)
}

/// The member initializers of a constructor ([class.base.init]), or none, and the number of the token after them: exactly what
/// the grammar gives. It answers `S2` exactly where one is too deep, or `Memory`.
#[tactic(auto, unfolding(cxx_grammar::specs::Classes::member_inits), using(cxx_reading::proofs::Answers::any_left))]
pub fn member_inits(here: &Here<'_>, start: u32) -> Result<(Items<MemberInit>, u32), ExprFault>
    ensures { Gives (spec.member_inits here.now.tokens.now here.now.level start) result }
{
    if_any(here.alloc, some_inits(here, start), start)
}
