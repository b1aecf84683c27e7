//! Settles pieces by hands in threads, again and again. The words are the number of hands, how often, and `apart` for 65,536 pieces
//! without reads or `chain` for 2,048 of which each reads the two before it. It is made to be timed from outside.
#![tactic(auto)]

ghost use Rattle.std.specs.Prelude.{◌≡◌, ◌≤◌, length, IfOk};

use board_callers::{Ending, Plan, settle_all};
use settle_samples::{Chain, Readless};
use std::alloc::{AllocError, Global};
use std::process::ExitCode;
use std::rt::Env;
use std::sync::Wait;
use std::thread::Threads;
use std::{env, io};

/// The pieces of a board without reads: as many as a program may have.
const PIECES: u32 = 65_536;

/// The pieces of a chain.
const LINKS: u32 = 2_048;

/// The status where a piece was left, an outcome was another or memory ran out.
const FAILED: u8 = 1;

/// The status where the words are not accepted.
const REFUSED: u8 = 2;

/// Which pieces are settled.
#[derive(Clone, Copy)]
enum Kind {
    Apart,
    Linked,
}

// The number of hands, how often, and which pieces.
fn words_of<R: Env + AllocGlobal>(rt: &R) -> Option<(u8, u16, Kind)> {
    let mut args = env::args(rt).ok()?;
    args.next()?;
    let hands = args.next()?.as_str().parse().ok()?;
    let rounds = args.next()?.as_str().parse().ok()?;
    let kind = match args.next()?.as_str() {
        "apart" => Kind::Apart,
        "chain" => Kind::Linked,
        _ => return None,
    };
    Some((hands, rounds, kind))
}

// A plan for each hand. Of pieces without reads each begins at its part and goes up; in a chain all begin at the end and go down.
fn plans_for(alloc: Global, hands: u8, kind: Kind) -> Result<Vec<Plan>, AllocError>
    requires { hands ≤ 32 }
    ensures { IfOk result (λ plans. length plans.items ≡ hands) }
{
    let part = match hands {
        0 => 0,
        some => PIECES / u32::from(some),
    };
    let mut plans = Vec::new(alloc);
    for i in 0..hands {
        plans.push(match kind {
            Kind::Apart => Plan {
                first: part.wrapping_mul(u32::from(i)),
                down: false,
                pieces: u64::MAX,
            },
            Kind::Linked => Plan {
                first: LINKS - 1,
                down: true,
                pieces: u64::MAX,
            },
        })?;
    }
    Ok(plans)
}

// The sum of the outcomes. None where a piece was left.
fn sum_of(ending: Ending<u64>) -> Option<u64> {
    let Ending::Settled(outcomes) = ending else {
        return None;
    };
    let mut sum: u64 = 0;
    for outcome in outcomes.as_slice() {
        sum = sum.wrapping_add(*outcome);
    }
    Some(sum)
}

// The sum that the outcomes have: of the numbers of the pieces, or of a chain, in which each comes to the two before it and one more.
fn sum_expected(kind: Kind) -> u64 {
    let mut sum: u64 = 0;
    match kind {
        Kind::Apart => {
            for k in 0..PIECES {
                sum = sum.wrapping_add(u64::from(k));
            }
        }
        Kind::Linked => {
            let mut last: u64 = 0;
            let mut this: u64 = 1;
            for _ in 0..LINKS {
                sum = sum.wrapping_add(this);
                let next = last.wrapping_add(this).wrapping_add(1);
                last = this;
                this = next;
            }
        }
    }
    sum
}

// Settles all pieces so often. How many these were together.
fn settle_rounds<R: Threads + Wait + Sync>(
    rt: &R,
    alloc: Global,
    kind: Kind,
    plans: &[Plan],
    rounds: u16,
) -> Option<u64>
    requires { (1 ≤ length plans.now) × (length plans.now ≤ 32) }
{
    let expected = sum_expected(kind);
    let mut settled: u64 = 0;
    for _ in 0..rounds {
        let ending = match kind {
            Kind::Apart => settle_all(rt, alloc, &Readless { pieces: PIECES }, plans).ok()?,
            Kind::Linked => settle_all(rt, alloc, &Chain { pieces: LINKS }, plans).ok()?,
        };
        if sum_of(ending)? != expected {
            return None;
        }
        settled = settled.wrapping_add(u64::from(match kind {
            Kind::Apart => PIECES,
            Kind::Linked => LINKS,
        }));
    }
    Some(settled)
}

fn main(rt: HostRuntime) -> ExitCode {
    let Some((hands, rounds, kind)) = words_of(&rt) else {
        return ExitCode::from(REFUSED);
    };
    if hands == 0 || hands > 32 {
        return ExitCode::from(REFUSED);
    }
    let Ok(plans) = plans_for(rt.alloc(), hands, kind) else {
        return ExitCode::from(FAILED);
    };
    let Some(settled) = settle_rounds(&rt, rt.alloc(), kind, plans.as_slice(), rounds) else {
        return ExitCode::from(FAILED);
    };
    let written: io::Result<()> = println!(rt; "settled {settled} pieces, threads {hands}");
    match written {
        Ok(()) => ExitCode::SUCCESS,
        Err(_) => ExitCode::from(FAILED),
    }
}
