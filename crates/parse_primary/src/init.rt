//! What may stand behind a type: arguments or a braced list.

ghost use Rattle.cxx_grammar.specs.Unaries as spec;
ghost use Rattle.cxx_grammar.specs.Read.{read};
ghost use Rattle.cxx_reading.specs.Reading.{Gives};

use cxx_reading::{ExprFault, Reader, longer};
use cxx_tree::NewInit;
use parse_level::Deeper;
use parse_list::{args, braced_list};

#[tactic(auto, unfolding(cxx_grammar::specs::Unaries::init_args))]
fn init_args<D: Deeper>(reader: &Reader<'_, D>, start: u32) -> Result<(NewInit, u32), ExprFault>
    requires { D.ready reader.now.deeper reader.now.tokens.now reader.now.level }
    ensures { Gives (spec.init_args reader.now.tokens.now (read reader.now.tokens.now reader.now.level) start) result }
{
    let (x, end) = args(reader, start)?;
    Ok((NewInit::Args(x), end))
}

#[tactic(auto, unfolding(cxx_grammar::specs::Unaries::init_braced))]
fn init_braced<D: Deeper>(reader: &Reader<'_, D>, start: u32) -> Result<(NewInit, u32), ExprFault>
    requires { D.ready reader.now.deeper reader.now.tokens.now reader.now.level }
    ensures { Gives (spec.init_braced reader.now.tokens.now (read reader.now.tokens.now reader.now.level) start) result }
{
    let (x, end) = braced_list(reader, start)?;
    Ok((NewInit::Braced(x), end))
}

/// Arguments or a braced list.
#[tactic(auto, using(cxx_reading::proofs::Choices::choice), unfolding(cxx_grammar::specs::Unaries::new_init))]
pub fn initializer<D: Deeper>(
    reader: &Reader<'_, D>,
    start: u32,
) -> Result<(NewInit, u32), ExprFault>
    requires { D.ready reader.now.deeper reader.now.tokens.now reader.now.level }
    ensures { Gives (spec.new_init reader.now.tokens.now (read reader.now.tokens.now reader.now.level) start) result }
{
    longer(init_args(reader, start), init_braced(reader, start))
}
