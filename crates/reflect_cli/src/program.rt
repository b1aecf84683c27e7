//! From bytes to a program.

ghost use Rattle.std.specs.Prelude.{◌≡◌, ◌≤◌, All, IfOk, IfSome, length};
ghost use Rattle.cxx_base.specs.declared.limits.TheConstants.{MAX_PIECES, MAX_SOURCE};
ghost use Rattle.reflect_cli.specs.Accepted as accepted;
ghost use Rattle.cxx_tokens.specs.Usable.{IsKnown};
ghost use Rattle.reflect_cli.specs.Answers.{GivesProgram, fault_of, syntax_fault_of};
ghost use Rattle.reflect_cli.specs.Order.{AreNamed};
ghost use Rattle.reflect_cli.specs.Program as spec;

use crate::accepted::Accepting;
use crate::form::is_in_form;
use crate::form_tree::Declaration;
use containers::Items;
use cxx_base::{Code, Memory, Names, Place, Refusal};
use cxx_tokens::{LexFault, Tokens, tokens};
use parse_decl::{SyntaxFault, unit_to};
use std::alloc::Global;
use tree_stands::names_have_texts;

/// The names of a source, and its declarations.
pub struct Program {
    pub names: Names,
    pub declarations: Items<Declaration>,
}

impl Drop for Program {
    fn drop(self) {
        let Program {
            names: _,
            declarations: _,
        } = self;
    }
}

/// Why a source has no program.
#[derive(Clone, Copy, Debug, PartialEq, Eq)]
pub enum ProgramFault {
    /// The source as a whole is refused.
    Refused(Refusal),
    /// No memory was found for the program.
    Memory,
}

impl From<Memory> for ProgramFault {
    ghost use Rattle.reflect_cli.specs.declared.program.ProgramFault.TheVariants.{Memory};

    ghost from_gives = { λ _ e. e ≡ Memory };

    fn from(_refused: Memory) -> ProgramFault {
        ProgramFault::Memory
    }
}

/// A refusal of the source as a whole, at its start.
pub fn source_refusal(code: Code) -> Refusal
    ensures { result ≡ spec.source_refusal code }
{
    Refusal::whole(code, Place::START)
}

// Why there is no program of a text that has no tokens: the code of the fault, at its place.
fn fault_of(fault: LexFault) -> ProgramFault
    ensures { result ≡ fault_of fault }
{
    match fault {
        LexFault::L1(place) => ProgramFault::Refused(Refusal::whole(Code::L1, place)),
        LexFault::L2(place) => ProgramFault::Refused(Refusal::whole(Code::L2, place)),
        LexFault::L3(place) => ProgramFault::Refused(Refusal::whole(Code::L3, place)),
        LexFault::L4(place) => ProgramFault::Refused(Refusal::whole(Code::L4, place)),
        LexFault::L5(place) => ProgramFault::Refused(Refusal::whole(Code::L5, place)),
        LexFault::Memory => ProgramFault::Memory,
    }
}

// The same of a text that has no unit.
fn syntax_fault_of(fault: SyntaxFault) -> ProgramFault
    ensures { result ≡ syntax_fault_of fault }
{
    match fault {
        SyntaxFault::S1(place) => ProgramFault::Refused(Refusal::whole(Code::S1, place)),
        SyntaxFault::S2(place) => ProgramFault::Refused(Refusal::whole(Code::S2, place)),
        SyntaxFault::Memory => ProgramFault::Memory,
    }
}

fn formed(
    alloc: Global,
    names: Names,
    declarations: Items<Declaration>,
) -> Result<Program, ProgramFault>
    requires { AreNamed names declarations }
    ensures program { GivesProgram (spec.formed names declarations) result }
    ensures few { IfOk result (λ program. length program.declarations ≤ MAX_PIECES) }
    ensures named { IfOk result (λ program. AreNamed program.names program.declarations) }
{
    if is_in_form(alloc, declarations.as_slice())? {
        Ok(Program {
            names,
            declarations,
        })
    } else {
        Err(ProgramFault::Refused(source_refusal(Code::T8)))
    }
}

fn accepted(
    alloc: Global,
    names: Names,
    found: Option<Items<Declaration>>,
) -> Result<Program, ProgramFault>
    requires { IfSome found (AreNamed names) }
    ensures program { GivesProgram (spec.formed_by names found) result }
    ensures few { IfOk result (λ program. length program.declarations ≤ MAX_PIECES) }
    ensures named { IfOk result (λ program. AreNamed program.names program.declarations) }
{
    match found {
        Some(declarations) => formed(alloc, names, declarations),
        None => Err(ProgramFault::Refused(source_refusal(Code::T8))),
    }
}

#[tactic(auto, using(crate::proofs::Refusals::with_unit, crate::proofs::Refusals::without_unit, crate::proofs::Named::found_named))]
fn parsed(alloc: Global, names: Names, tokens: Tokens) -> Result<Program, ProgramFault>
    requires { All (λ token. IsKnown names token.kind) tokens.list }
    ensures program { GivesProgram (spec.parsed names tokens) result }
    ensures few { IfOk result (λ program. length program.declarations ≤ MAX_PIECES) }
    ensures named { IfOk result (λ program. AreNamed program.names program.declarations) }
{
    names_have_texts(&tokens);
    let mut taker = Accepting::new(alloc);
    let read = unit_to(alloc, &tokens, &mut taker);
    drop(tokens);
    match read {
        Ok(()) => accepted(alloc, names, taker.into_found()),
        Err(fault) => Err(syntax_fault_of(fault)),
    }
}

/// The program of a source text. A text that has no tokens is refused with the code of the lexer's fault at its place, and
/// one of which the grammar derives no unit `S1` or `S2` where the parser says. A unit that is not of the accepted form is
/// refused `T8` at the start of the text.
#[tactic(auto, using(crate::proofs::Refusals::with_tokens, crate::proofs::Refusals::without_tokens), unfolding(crate::specs::Program::program_of))]
pub fn program_of(alloc: Global, bytes: &[u8]) -> Result<Program, ProgramFault>
    requires { length bytes.now ≤ MAX_SOURCE }
    ensures program { (fits : length bytes.now ≤ MAX_SOURCE) → GivesProgram (spec.program_of bytes.now fits) result }
    ensures few { IfOk result (λ program. length program.declarations ≤ MAX_PIECES) }
    ensures named { IfOk result (λ program. AreNamed program.names program.declarations) }
{
    let mut names = Names::of_source(alloc, bytes)?;
    match tokens(alloc, &mut names, bytes) {
        Ok(tokens) => parsed(alloc, names, tokens),
        Err(fault) => Err(fault_of(fault)),
    }
}
