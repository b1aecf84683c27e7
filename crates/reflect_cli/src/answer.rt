//! The full text that the program writes, and its status.

ghost use Rattle.std.specs.Prelude.{◌≡◌, ◌≤◌, ◌++◌, All, Ok, IfOk, length, if◌then◌else◌};
ghost use Rattle.std.specs.List.{flat_map, count_by};
ghost use Rattle.cxx_base.specs.declared.limits.TheConstants.{MAX_PIECES, MAX_SOURCE};
ghost use Rattle.reflect_cli.specs.Answers.{IsTold};
ghost use Rattle.reflect_cli.specs.Order.{AreNamed};
ghost use Rattle.reflect_cli.specs.Report as report;
ghost use Rattle.reflect_cli.specs.Told as spec;

use crate::core_tree::Outcome;
use crate::piece_order::translate_in_order;
use crate::program::{Program, ProgramFault, program_of};
use crate::report_print::{append_last, append_outcome, append_refusal};
use cxx_base::{Bytes, Memory, Names, Refusal};
use std::alloc::Global;

/// A text, and whether it refuses something.
pub struct Answer {
    pub text: Bytes,
    pub is_refused: bool,
}

impl Drop for Answer {
    fn drop(self) {
        let Answer {
            text: _,
            is_refused: _,
        } = self;
    }
}

impl Answer {
    /// The status with which the program ends once the text is written.
    pub fn status(&self) -> u8
        ensures status { result ≡ (if self.now.is_refused then 1 else 0) }
        ensures success { result ≤ 1 }
    {
        if self.is_refused { 1 } else { 0 }
    }
}

/// The answer to a source that is refused as a whole.
pub fn refused(alloc: Global, refusal: Refusal) -> Result<Answer, Memory>
    ensures { IfOk result (IsTold (spec.refused refusal)) }
{
    let mut text = Bytes::new(alloc);
    append_refusal(&mut text, &refusal)?;
    Ok(Answer {
        text,
        is_refused: true,
    })
}

#[tactic(auto, using(crate::proofs::Named::named_at))]
fn append_outcomes(out: &mut Bytes, names: &Names, outcomes: &[Outcome]) -> Result<u32, Memory>
    requires few { length outcomes.now ≤ MAX_PIECES }
    requires named { All (report.IsNamed names.now) outcomes.now }
    ensures text { IfOk result (λ _. out.new ≡ out.old ++ flat_map (report.outcome_line names.now) outcomes.now) }
    ensures refused { IfOk result (λ n. n ≡ count_by report.is_refused outcomes.now) }
{
    let mut refused = 0;
    for outcome in outcomes {
        append_outcome(out, names, outcome)?;
        if let Outcome::Refused(_) = outcome {
            refused += 1;
        }
    }
    Ok(refused)
}

fn translated(alloc: Global, names: &Names, outcomes: &[Outcome]) -> Result<Answer, Memory>
    requires few { length outcomes.now ≤ MAX_PIECES }
    requires named { All (report.IsNamed names.now) outcomes.now }
    ensures { IfOk result (IsTold (spec.translated names.now outcomes.now)) }
{
    let mut text = Bytes::new(alloc);
    let refused = append_outcomes(&mut text, names, outcomes)?;
    append_last(&mut text, outcomes.len() as u32, refused)?;
    Ok(Answer {
        text,
        is_refused: refused > 0,
    })
}

#[tactic(auto, using(crate::proofs::Named::outcomes_named))]
fn translate(alloc: Global, program: &Program) -> Result<Answer, Memory>
    requires few { length program.now.declarations ≤ MAX_PIECES }
    requires named { AreNamed program.now.names program.now.declarations }
    ensures { IfOk result (IsTold (spec.answer_by (Ok program.now))) }
{
    let outcomes = translate_in_order(alloc, program.declarations.as_slice())?;
    translated(alloc, &program.names, outcomes.as_slice())
}

/// The answer to a source that is no longer than it may be.
#[tactic(auto, using(crate::proofs::WholeSource::not_too_long))]
pub fn answer_to(alloc: Global, bytes: &[u8]) -> Result<Answer, Memory>
    requires { length bytes.now ≤ MAX_SOURCE }
    ensures { IfOk result (IsTold (spec.report_of bytes.now)) }
{
    match program_of(alloc, bytes) {
        Ok(program) => translate(alloc, &program),
        Err(ProgramFault::Refused(refusal)) => refused(alloc, refusal),
        Err(ProgramFault::Memory) => Err(Memory),
    }
}
