//! The translator's program: it reads a source text, translates it, and writes the report.
#![tactic(auto)]

mod accepted;
mod answer;
mod const_eval;
mod core_tree;
mod form;
mod form_tree;
mod piece_order;
mod program;
mod report_print;
mod run;
mod words;

use io_edge::{FromRead, ToWrite};
use run::run_in_order;
use std::process::ExitCode;
use std::rt::Env;
use std::{env, io};
use words::Words;

/// The status where the words are not text, as for words that are not accepted.
const REFUSED: u8 = 2;

/// The status where memory ran out.
const NO_MEMORY: u8 = 5;

// The words after the program's name.
fn words_of<R: Env + AllocGlobal>(rt: &R) -> Result<Words, u8> {
    let mut words = Words::new(rt.alloc());
    let mut args = match env::args(rt) {
        Ok(args) => args,
        Err(error) => {
            return Err(match error.kind() {
                io::ErrorKind::OutOfMemory => NO_MEMORY,
                _ => REFUSED,
            });
        }
    };
    let _name = args.next();
    for word in args {
        words.push(word.as_str()).map_err(|_refused| NO_MEMORY)?;
    }
    Ok(words)
}

fn main(rt: HostRuntime) -> ExitCode {
    let words = match words_of(&rt) {
        Ok(words) => words,
        Err(status) => return ExitCode::from(status),
    };
    let mut source = FromRead::new(rt.stdin());
    let mut sink = ToWrite::new(rt.stdout());
    ExitCode::from(run_in_order(rt.alloc(), &words, &mut source, &mut sink))
}
