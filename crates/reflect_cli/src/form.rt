//! The accepted form.

ghost use Rattle.std.specs.Prelude.{◌≡◌, ◌≤◌, true, IfOk, nat_le, [], length};
ghost use Rattle.std.specs.List.{list_all};
ghost use Rattle.reflect_cli.specs.Form as spec;
ghost use Rattle.reflect_cli.specs.Search.{are_new};

use crate::form_tree::{Declaration, Sum};
use cxx_base::library::STD;
use cxx_base::{MAX_PIECES, Memory};
use indexmap::IndexSet;
use std::alloc::Global;

const MAX_LITERALS: usize = 256;

fn is_short(sum: &Sum) -> bool
    ensures { result ≡ nat_le (spec.sum_size sum.now) 256 }
{
    let mut size = sum.first.rest.len().saturating_add(1);
    for link in sum.rest.as_slice() {
        size = size
            .saturating_add(1)
            .saturating_add(link.operand.rest.len());
    }
    size <= MAX_LITERALS
}

fn fits(declaration: &Declaration) -> bool
    ensures { result ≡ spec.fits declaration.now }
{
    declaration.name.0 != STD.0 && is_short(&declaration.initializer)
}

fn are_new(alloc: Global, declarations: &[Declaration]) -> Result<bool, Memory>
    ensures { IfOk result (λ answer. answer ≡ are_new [] (spec.names_in declarations.now)) }
{
    let mut before = IndexSet::new(alloc);
    for declaration in declarations {
        if !before.insert(declaration.name.0)? {
            return Ok(false);
        }
    }
    Ok(true)
}

fn all_fit(declarations: &[Declaration]) -> bool
    ensures { result ≡ list_all spec.fits declarations.now }
{
    declarations.iter().all(fits)
}

/// Whether the declarations are of the accepted form.
#[tactic(auto, using(crate::proofs::Distinct::new_are_distinct), unfolding(crate::specs::Form::is_in_form))]
pub fn is_in_form(alloc: Global, declarations: &[Declaration]) -> Result<bool, Memory>
    ensures answer { IfOk result (λ answer. answer ≡ spec.is_in_form declarations.now) }
    ensures few { IfOk result (λ answer. answer ≡ true → length declarations.now ≤ MAX_PIECES) }
{
    if declarations.len() <= MAX_PIECES && all_fit(declarations) {
        are_new(alloc, declarations)
    } else {
        Ok(false)
    }
}
