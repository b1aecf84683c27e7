//! Clauses with and without a designator, and lists of them.

ghost use Rattle.std.specs.Prelude.{◌≡◌, IfOk};
ghost use Rattle.cxx_grammar.specs.Lists as spec;
ghost use Rattle.cxx_grammar.specs.declared.clause.Clauses.TheVariants as clauses_of;

use containers::Items;
use cxx_grammar::{Clause, Clauses};
use cxx_reading::single;
use cxx_tree::{ArgTree, Designator};
use std::alloc::{AllocError, Global};

/// A list of one clause.
pub fn first_clause(alloc: Global, clause: Clause) -> Result<Clauses, AllocError>
    ensures { IfOk result (λ found. found ≡ spec.first_clause clause) }
{
    match clause {
        Clause::Plain(x) => {
            let found = single(alloc, x)?;
            Ok(Clauses::Plain(found))
        }
        Clause::Designator(x) => {
            let found = single(alloc, x)?;
            Ok(Clauses::Designated(found))
        }
    }
}

fn with_plain(mut found: Items<ArgTree>, clause: Clause) -> Result<Clauses, AllocError>
    ensures { IfOk result (λ all. all ≡ spec.with_clause (clauses_of.Plain found) clause) }
{
    match clause {
        Clause::Plain(x) => {
            found.push(x)?;
            Ok(Clauses::Plain(found))
        }
        Clause::Designator(_) => Ok(Clauses::Mixed),
    }
}

fn with_designator(mut found: Items<Designator>, clause: Clause) -> Result<Clauses, AllocError>
    ensures { IfOk result (λ all. all ≡ spec.with_clause (clauses_of.Designated found) clause) }
{
    match clause {
        Clause::Designator(x) => {
            found.push(x)?;
            Ok(Clauses::Designated(found))
        }
        Clause::Plain(_) => Ok(Clauses::Mixed),
    }
}

/// The list with one more clause behind it.
pub fn with_clause(found: Clauses, clause: Clause) -> Result<Clauses, AllocError>
    ensures { IfOk result (λ all. all ≡ spec.with_clause found clause) }
{
    match found {
        Clauses::Plain(found) => with_plain(found, clause),
        Clauses::Designated(found) => with_designator(found, clause),
        Clauses::Mixed => Ok(Clauses::Mixed),
    }
}
