//! Lookup.

ghost use Rattle.std.specs.Prelude.{IfOk};
ghost use Rattle.core_lookup.specs.Access as access;
ghost use Rattle.core_lookup.specs.Answers.{Allows, Finds, Stands};
ghost use Rattle.core_lookup.specs.Classes as classes;
ghost use Rattle.core_lookup.specs.Found as find;
ghost use Rattle.core_lookup.specs.Tables.{tables_of};

use crate::step::{AccessStep, ClassStep, FindStep};
use core_tree::Program;
use cxx_base::{EntityNo, Memory, PieceNo, ScopeNo};
use cxx_tree::NameTree;
use outcome_facts::Facts;
use std::alloc::Global;

/// Lookup of names, classes at a point, and access, over what is known of earlier pieces ([basic.lookup], [class.access], P3289R1). Each call answers
/// as its definition does over all facts, or with the next piece that the definition reads and that is not known.
pub trait Lookup {
    /// What a name in a scope finds at the point of a piece. In the piece of a body the names of the body are its own matter: it asks from the scope
    /// around its parameters.
    fn find<F: Facts>(
        &self,
        alloc: Global,
        program: &Program,
        facts: &F,
        at: PieceNo,
        scope: ScopeNo,
        name: &NameTree,
    ) -> Result<FindStep, Memory>
        ensures { IfOk result (λ step. Finds (F.known facts.now) (find.found (tables_of program.now) at.0 scope name.now) step) };

    /// How a class stands at the point of a piece. It takes no memory.
    fn class_at<F: Facts>(
        &self,
        program: &Program,
        facts: &F,
        at: PieceNo,
        class: EntityNo,
    ) -> ClassStep
        ensures { Stands (F.known facts.now) (classes.class_at (λ j. j) (tables_of program.now) at.0 class) result };

    /// Whether the base or member of this place in a class is accessible from a scope, this one alone: who goes over bases asks for each. The places
    /// count the bases in order and then the declared members in order of first declaration, of an injected class the described members. Beyond
    /// these the answer is `No`.
    fn accessible<F: Facts>(
        &self,
        alloc: Global,
        program: &Program,
        facts: &F,
        at: PieceNo,
        from: ScopeNo,
        class: EntityNo,
        index: u32,
    ) -> Result<AccessStep, Memory>
        ensures { IfOk result (λ step. Allows (F.known facts.now) (access.accessible (λ j. j) (tables_of program.now) at.0 from class index) step) };
}
