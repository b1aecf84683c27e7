//! Translation in order.

ghost use Rattle.std.specs.Prelude.{◌≡◌, IfOk, map};
ghost use Rattle.reflect_cli.specs.Order as spec;

use crate::const_eval::{Refused, first_token, sum_value};
use crate::core_tree::Outcome;
use crate::form_tree::Declaration;
use containers::{Boxed, Items};
use cxx_base::{Code, Memory, Notes, Place, Refusal};
use int_kinds::ArithFault;
use std::alloc::Global;

fn detail_of(fault: ArithFault) -> u64
    ensures { result ≡ spec.detail_of fault }
{
    match fault {
        ArithFault::Overflow => 0,
        ArithFault::ZeroDivisor => 1,
        ArithFault::LeastByMinusOne => 2,
        ArithFault::ShiftCount => 3,
    }
}

// An operation that is refused, in an initializer that begins at the place. There are no calls.
fn refusal_of(place: Place, refused: Refused) -> Refusal
    ensures { result ≡ spec.refusal_of place refused }
{
    Refusal::met(
        Code::V1,
        detail_of(refused.fault),
        place,
        refused.place,
        Notes::NONE,
    )
}

fn outcome_of(alloc: Global, declaration: &Declaration) -> Result<Outcome, Memory>
    ensures { IfOk result (λ outcome. outcome ≡ spec.outcome_of declaration.now) }
{
    match sum_value(&declaration.initializer) {
        Ok(value) => Ok(Outcome::Constant {
            name: declaration.name,
            value,
        }),
        Err(refused) => {
            let refusal = refusal_of(first_token(&declaration.initializer), refused);
            Ok(Outcome::Refused(Boxed::new(alloc, refusal)?))
        }
    }
}

/// The outcomes of the pieces of a source, in order.
pub fn translate_in_order(
    alloc: Global,
    declarations: &[Declaration],
) -> Result<Items<Outcome>, Memory>
    ensures { IfOk result (λ outcomes. outcomes ≡ map spec.outcome_of declarations.now) }
{
    let mut outcomes = Items::new(alloc);
    for declaration in declarations {
        outcomes.push(outcome_of(alloc, declaration)?)?;
    }
    Ok(outcomes)
}
