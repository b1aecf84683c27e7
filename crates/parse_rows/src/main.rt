//! What the parsers read of texts, and which trees are the same: each case of standard input with its answer.
//!
//! Groups of cases stand below headings. A heading `== QUESTION[; QUESTION ..][, REMARK]` says what is asked of each line up
//! to the next heading. A line is written again with ` => ` and the answers, with `; ` between them; an empty line asks of an
//! empty text. A `$` in a case stands for the end of a line.
//!
//! A question is one of these:
//!
//! - `RULE`: the number of the token after the tree that the rule reads, and the tree; `S1` where nothing begins there, and
//!   `S2` where it is too deep. A unit has `unit` before its items, and a refusal has its line and column.
//! - `spans RULE`: the same, with the tokens of each node.
//! - `same PART`: by their numbers, from 1, the lines below this heading whose part is the same as that of this line, each
//!   read at another place of a text.
//! - `span PART`: the tokens of a part and its place.
//!
//! Behind it may stand `at LEVEL`, `from TOKEN`, and `times N` or `open N`. With these last two a line is
//! `HEAD@BEFORE@MIDDLE@BEHIND@TAIL`, of which `BEFORE` and `BEHIND` are repeated so often; where it is `open`, `BEHIND` is left
//! out. Of such a text the answer is only whether it is read to its `end`.
//!
//! Status 0: all was answered. 2: the input is no text, or too long. 3: reading failed, 4: writing. 5: memory ran out.
#![tactic(auto)]

mod answer;
mod asked;
mod grown;
mod reading;
mod rows;
mod same;
mod told;

use io_edge::{FromRead, ToWrite};
use row_edge::{RowFault, TextAnswers, run};
use rows::answers;
use std::alloc::Global;
use std::process::ExitCode;

/// The rows of the parsers.
struct ParseRows;

impl TextAnswers for ParseRows {
    fn answers(alloc: Global, text: &str) -> Result<String, RowFault> {
        Ok(answers(alloc, text)?)
    }
}

fn main(rt: HostRuntime) -> ExitCode {
    let mut source = FromRead::new(rt.stdin());
    let mut sink = ToWrite::new(rt.stdout());
    ExitCode::from(run::<ParseRows, _, _>(rt.alloc(), &mut source, &mut sink))
}
