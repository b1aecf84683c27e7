//! The lines of the report.

ghost use Rattle.std.specs.Prelude.{◌≡◌, ◌++◌, ◌<◌, OnOk, decimal, length};
ghost use Rattle.std.specs.Fmt.{signed_decimal};
ghost use Rattle.reflect_cli.specs.Report as spec;

use crate::core_tree::Outcome;
use cxx_base::{Bytes, Code, Memory, Name, Names, Place, Refusal};
use diagnostics::{name, text};
use itoa::Buffer;

fn append_text(out: &mut Bytes, text: &str) -> Result<(), Memory>
    ensures { OnOk result (out.new ≡ out.old ++ text.now) }
{
    out.extend(text.as_bytes())
}

fn append_number(out: &mut Bytes, number: u64) -> Result<(), Memory>
    ensures { OnOk result (out.new ≡ out.old ++ decimal number) }
{
    let mut buffer = Buffer::new();
    append_text(out, buffer.format(number))
}

fn append_value(out: &mut Bytes, value: i128) -> Result<(), Memory>
    ensures { OnOk result (out.new ≡ out.old ++ signed_decimal value) }
{
    let mut buffer = Buffer::new();
    append_text(out, buffer.format(value))
}

fn append_place(out: &mut Bytes, place: Place) -> Result<(), Memory>
    ensures { OnOk result (out.new ≡ out.old ++ spec.place_text place) }
{
    append_number(out, u64::from(place.line))?;
    append_text(out, ":")?;
    append_number(out, u64::from(place.column))
}

fn append_inner(out: &mut Bytes, inner: Option<Place>) -> Result<(), Memory>
    ensures { OnOk result (out.new ≡ out.old ++ spec.inner_text inner) }
{
    match inner {
        None => Ok(()),
        Some(place) => {
            append_text(out, " (at ")?;
            append_place(out, place)?;
            append_text(out, ")")
        }
    }
}

// The refused piece that was read, from which the text of its code goes on.
fn append_subject(out: &mut Bytes, refusal: &Refusal) -> Result<(), Memory>
    ensures { OnOk result (out.new ≡ out.old ++ spec.subject refusal.now.code refusal.now.detail) }
{
    match refusal.code {
        Code::R1 => {
            append_text(out, "piece ")?;
            append_number(out, refusal.detail)
        }
        _ => Ok(()),
    }
}

#[tactic(auto, unfolding(crate::specs::Report::message))]
fn append_message(out: &mut Bytes, refusal: &Refusal) -> Result<(), Memory>
    ensures { OnOk result (out.new ≡ out.old ++ spec.message refusal.now) }
{
    append_subject(out, refusal)?;
    append_text(out, text(refusal))
}

/// The line of a refusal.
#[tactic(auto, unfolding(crate::specs::Report::refusal_line))]
pub fn append_refusal(out: &mut Bytes, refusal: &Refusal) -> Result<(), Memory>
    ensures { OnOk result (out.new ≡ out.old ++ spec.refusal_line refusal.now) }
{
    append_place(out, refusal.place)?;
    append_text(out, ": error ")?;
    append_text(out, name(refusal.code))?;
    append_text(out, ": ")?;
    append_message(out, refusal)?;
    append_inner(out, refusal.inner)?;
    append_text(out, "\n")
}

fn name_text(names: &Names, name: Name) -> &str
    requires { name.0 < length names.now }
    ensures { result.now ≡ spec.name_text names.now name }
{
    names.text(name)
}

#[tactic(auto, unfolding(crate::specs::Report::constant_line))]
fn append_constant(out: &mut Bytes, names: &Names, name: Name, value: i128) -> Result<(), Memory>
    requires { name.0 < length names.now }
    ensures { OnOk result (out.new ≡ out.old ++ spec.constant_line names.now name value) }
{
    append_text(out, "const ")?;
    append_text(out, name_text(names, name))?;
    append_text(out, " : const int = ")?;
    append_value(out, value)?;
    append_text(out, "\n")
}

/// The lines of an outcome, whose name is among these.
pub fn append_outcome(out: &mut Bytes, names: &Names, outcome: &Outcome) -> Result<(), Memory>
    requires { spec.IsNamed names.now outcome.now }
    ensures { OnOk result (out.new ≡ out.old ++ spec.outcome_line names.now outcome.now) }
{
    match outcome {
        Outcome::Constant { name, value } => append_constant(out, names, *name, *value),
        Outcome::Refused(refusal) => append_refusal(out, refusal.get()),
    }
}

/// The last line: how many pieces there are, and how many of them are refused.
#[tactic(auto, unfolding(crate::specs::Report::last_line))]
pub fn append_last(out: &mut Bytes, pieces: u32, refused: u32) -> Result<(), Memory>
    ensures { OnOk result (out.new ≡ out.old ++ spec.last_line pieces refused) }
{
    append_text(out, "pieces ")?;
    append_number(out, u64::from(pieces))?;
    append_text(out, " refused ")?;
    append_number(out, u64::from(refused))?;
    append_text(out, "\n")
}
