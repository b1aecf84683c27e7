//! Lines with their answers.

ghost use Rattle.std.specs.Prelude.{◌≡◌, ◌↔◌, [], ◌∷◌, ◌++◌, IsTrue, OnOk, IsOkUnless, string_bytes};
ghost use Rattle.row_edge.specs.Row.{IsRemark, IsRow, arrow};

use crate::row_fault::RowFault;
use std::alloc::{AllocError, Global};

/// What answers the lines of a text.
pub trait RowAnswers {
    /// Puts the answer to a line at the end of a text that is still empty.
    fn append_answer(alloc: Global, out: &mut String, line: &str) -> Result<(), RowFault>;
}

/// A text, each of its lines with ` => ` and the answer behind it. A line that begins with `#` is a remark and is repeated, and so is
/// an empty one.
pub fn answers_to_rows<A: RowAnswers>(alloc: Global, text: &str) -> Result<String, RowFault>
    ensures { IsOkUnless result RowFault.Memory }
{
    let mut out = String::new(alloc);
    for line in text.lines() {
        append_row::<A>(alloc, &mut out, line)?;
    }
    Ok(out)
}

// A line that begins with `#`, or is empty.
fn is_remark(line: &str) -> bool
    ensures { IsTrue result ↔ IsRemark line.now }
{
    line.is_empty() || line.as_bytes()[0] == b'#'
}

// A line alone.
fn append_line(out: &mut String, line: &str) -> Result<(), AllocError>
    ensures { OnOk result (string_bytes out.new ≡ string_bytes out.old ++ line.now ++ 10 ∷ []) }
{
    out.push_str(line)?;
    out.push_str("\n")
}

// A line with its answer.
fn append_answered(out: &mut String, line: &str, answer: &str) -> Result<(), AllocError>
    ensures { OnOk result (string_bytes out.new ≡ string_bytes out.old ++ line.now ++ arrow ++ answer.now ++ 10 ∷ []) }
{
    out.push_str(line)?;
    out.push_str(" => ")?;
    append_line(out, answer)
}

fn append_row<A: RowAnswers>(alloc: Global, out: &mut String, line: &str) -> Result<(), RowFault>
    ensures row { OnOk result (IsRow line.now (string_bytes out.old) (string_bytes out.new)) }
    ensures memory { IsOkUnless result RowFault.Memory }
{
    if is_remark(line) {
        append_line(out, line)?;
    } else {
        let answer = answer_to::<A>(alloc, line)?;
        append_answered(out, line, answer.as_str())?;
    }
    Ok(())
}

// The answer to a line, of which nothing is left where it is not understood.
fn answer_to<A: RowAnswers>(alloc: Global, line: &str) -> Result<String, RowFault>
    ensures memory { IsOkUnless result RowFault.Memory }
{
    let mut answer = String::new(alloc);
    match A::append_answer(alloc, &mut answer, line) {
        Ok(()) => Ok(answer),
        Err(RowFault::Unread) => Ok(String::from_str(alloc, "not understood")?),
        Err(RowFault::Memory) => Err(RowFault::Memory),
    }
}
