//! Makes data of hostile sources, copies it, compares it and lets it go. The words are what is made, and how many, or `all`, and how often. It is
//! made to be timed from outside, and with a bounded stack.
#![tactic(auto)]

mod classes;
mod constants;
mod reflections;
mod values;
mod variants;

use cxx_base::Memory;
use std::alloc::Global;
use std::process::ExitCode;
use std::rt::Env;
use std::{env, io};

/// The status where memory ran out, or what was copied was not equal.
const FAILED: u8 = 1;

/// The status where the words are not accepted.
const REFUSED: u8 = 2;

// What is made.
#[derive(Clone, Copy)]
enum Made {
    Constants,
    Nested,
    Doubled,
    Crossed,
    Reflections,
    Pushed,
    Wide,
    Empty,
    Variants,
    All,
}

fn made_of(word: &str) -> Option<Made> {
    match word {
        "constants" => Some(Made::Constants),
        "nested" => Some(Made::Nested),
        "doubled" => Some(Made::Doubled),
        "crossed" => Some(Made::Crossed),
        "reflections" => Some(Made::Reflections),
        "pushed" => Some(Made::Pushed),
        "wide" => Some(Made::Wide),
        "empty" => Some(Made::Empty),
        "variants" => Some(Made::Variants),
        "all" => Some(Made::All),
        _ => None,
    }
}

// What is to be made, and how many.
fn words_of<R: Env + AllocGlobal>(rt: &R) -> Option<(Made, u32)> {
    let mut args = env::args(rt).ok()?;
    args.next()?;
    let word = args.next()?;
    let made = made_of(word.as_str())?;
    let count = args.next()?.as_str().parse().ok()?;
    Some((made, count))
}

// Each of these, as large as a source can make it.
fn all(alloc: Global) -> Result<bool, Memory> {
    Ok(
        constants::keep(alloc, 65_536)?
            && classes::nest(alloc, 16_000)?
            && classes::double(alloc, 30)?
            && classes::cross(alloc, 1_000)?
            && reflections::nest(alloc, 100_000)?
            && reflections::push(alloc, 100_000)?
            && values::wide(alloc, 60_000)?
            && values::empty(alloc, 2_147_483_647)?
            && variants::copy(alloc, 16)?,
    )
}

fn all_times(alloc: Global, count: u32) -> Result<bool, Memory> {
    for _ in 0..count {
        if !all(alloc)? {
            return Ok(false);
        }
    }
    Ok(true)
}

// Whether what was copied is equal, where it is compared.
fn answer(alloc: Global, made: Made, count: u32) -> Result<bool, Memory> {
    match made {
        Made::Constants => constants::keep(alloc, count),
        Made::Nested => classes::nest(alloc, count),
        Made::Doubled => classes::double(alloc, count),
        Made::Crossed => classes::cross(alloc, count),
        Made::Reflections => reflections::nest(alloc, count),
        Made::Pushed => reflections::push(alloc, count),
        Made::Wide => values::wide(alloc, count),
        Made::Empty => values::empty(alloc, count),
        Made::Variants => variants::copy(alloc, count),
        Made::All => all_times(alloc, count),
    }
}

fn main(rt: HostRuntime) -> ExitCode {
    let Some((made, count)) = words_of(&rt) else {
        return ExitCode::from(REFUSED);
    };
    let Ok(true) = answer(rt.alloc(), made, count) else {
        return ExitCode::from(FAILED);
    };
    let written: io::Result<()> = println!(rt; "made {count}");
    match written {
        Ok(()) => ExitCode::SUCCESS,
        Err(_) => ExitCode::from(FAILED),
    }
}
