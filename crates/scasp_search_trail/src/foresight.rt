//! What the present state tells of terms before they are equated.
ghost use Rattle.std.specs.Prelude.{IfOk};
ghost use Rattle.scasp_search_steps.specs.Foresight.{Expects};
ghost use Rattle.scasp_search_trail.specs.States.{state_of};
ghost use Rattle.scasp_syntax.specs.Tm.{var};
ghost use Rattle.scasp_syntax.specs.View.{tm_of};

use crate::parts::Parts;
use crate::trail::Trail;
use scasp_list::Memory;
use scasp_search_steps::{Expected, Foresees};
use scasp_syntax::{Cons, Lit, Term};
use std::alloc::Global;

/// What is known of a variable.
fn variable_expected(alloc: Global, parts: &Parts, x: u64) -> Result<Expected, Memory>
    ensures { IfOk result (Expects (state_of parts.now) (var x)) }
{
    if parts.variables.is_universal(x) {
        return Ok(Expected::Open);
    }
    match parts.store.left_to(alloc, x)? {
        Some(value) => Ok(Expected::Left(value)),
        None => Ok(Expected::Open),
    }
}

/// What is known of a term that the bindings lead no further.
fn reached_expected(alloc: Global, parts: &Parts, reached: &Term) -> Result<Expected, Memory>
    ensures { IfOk result (Expects (state_of parts.now) (tm_of reached.now)) }
{
    match reached {
        Term::Var(x) => variable_expected(alloc, parts, *x),
        Term::Num(value) => Ok(Expected::Number(*value)),
        Term::App(name, args) => Ok(Expected::Name(*name, args.len() as u64)),
    }
}

/// What is known of the term.
#[tactic(auto, using(crate::proofs::ForesightLemmas::same_expected))]
fn expected(alloc: Global, parts: &Parts, term: &Term) -> Result<Expected, Memory>
    ensures { IfOk result (Expects (state_of parts.now) (tm_of term.now)) }
{
    match parts.store.reached(term) {
        Some(reached) => reached_expected(alloc, parts, reached),
        None => Ok(Expected::Open),
    }
}

impl Foresees for Trail {
    ghost use Rattle.std.specs.Prelude.{true};

    ghost foresees = { true };

    fn expected(&self, alloc: Global, term: &Term) -> Result<Expected, Memory> {
        expected(alloc, &self.parts, term)
    }

    fn unclear_opposites(&self, alloc: Global, lit: &Lit) -> Result<Cons, Memory> {
        let parts = &self.parts;
        let bound = parts.store.bound();
        let made = parts
            .loops
            .unclear_opposites(alloc, bound, &parts.variables, lit)?;
        Ok(made)
    }
}
