//! Parameters of functions ([dcl.fct]).

ghost use Rattle.cxx_grammar.specs.Declarations as spec;
ghost use Rattle.cxx_reading.specs.Reading.{Gives};

use containers::{Boxed, Items};
use cxx_reading::{ExprFault, expect, span};
use cxx_tokens::mark::{LEFT_PAREN, RIGHT_PAREN};
use cxx_tree::ParameterTree;
use parse_expr::type_at;
use parse_repeat::{Here, Identifiers, Part, comma_list_if_any, optional};

// A parameter, in the parentheses of a function at this level.
#[derive(Clone, Copy)]
struct Parameter<'a>(Here<'a>);

impl Part for Parameter<'_> {
    type Tree = ParameterTree;

    ghost can = { λ _. Unit {0} };

    ghost part = { λ p. spec.parameter p.0.tokens.now p.0.level };

    #[tactic(auto, unfolding(cxx_grammar::specs::Declarations::parameter))]
    fn read(&self, start: u32) -> Result<(ParameterTree, u32), ExprFault> {
        let (of_type, at) = type_at(self.0.alloc, self.0.tokens, start, self.0.level + 1)?;
        let of_type = Boxed::new(self.0.alloc, of_type)?;
        let (name, end) = optional(&Identifiers(self.0.tokens), at)?;
        let span = span(self.0.tokens, start, end);
        Ok((
            ParameterTree {
                span,
                of_type,
                name,
            },
            end,
        ))
    }
}

/// The parameters with the parentheses around them ([dcl.fct]) that begin at token number `start`, and the number of the token after
/// them: exactly what the grammar gives. It answers `S1` exactly where none begin, `S2` exactly where they are too deep, or `Memory`.
#[tactic(auto, unfolding(cxx_grammar::specs::Declarations::parameters, cxx_grammar::specs::Declarations::parameters_if_any, cxx_grammar::specs::Declarations::some_parameters, cxx_grammar::specs::Declarations::more_parameters))]
pub fn parameters(here: &Here<'_>, start: u32) -> Result<(Items<ParameterTree>, u32), ExprFault>
    ensures { Gives (spec.parameters here.now.tokens.now here.now.level start) result }
{
    let at = expect(here.tokens, LEFT_PAREN, start)?;
    let one = Parameter(*here);
    let (found, at) = comma_list_if_any(here.alloc, here.tokens, &one, at)?;
    let end = expect(here.tokens, RIGHT_PAREN, at)?;
    Ok((found, end))
}
