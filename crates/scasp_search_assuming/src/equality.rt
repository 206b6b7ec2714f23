//! Equations of terms.
ghost use Rattle.std.specs.Prelude.{◌≡◌, IfOk, OnOk};
ghost use Rattle.scasp_hint.specs.Satisfying.{sat};
ghost use Rattle.scasp_search_rules.specs.Successors.Equations.{equate_pairs, equate_terms, equated, equations_of};
ghost use Rattle.scasp_search_rules.specs.Successors.Regions.{before};
ghost use Rattle.scasp_search_state.specs.Going.{Goes};
ghost use Rattle.scasp_syntax.specs.View.{tm_of};

use crate::pairs::pairs_read;
use crate::shapes::variable_app;
use crate::variables::{two_variables, variable_number};
use scasp_list::Memory;
use scasp_search_constraints::SearchErr;
use scasp_search_rules::{Pair, Pairs, Task};
use scasp_search_state::Situation;
use scasp_syntax::Term;
use std::alloc::Global;

/// Whether there is a state in which the sides of a pair that two terms come to are equal.
pub(crate) fn equated<M: Situation>(
    alloc: Global,
    at: &mut M,
    left: &Term,
    right: &Term,
) -> Result<bool, SearchErr>
    ensures now { Goes result (equated sat (M.now at.old) (tm_of left.now) (tm_of right.now)) (M.now at.new) }
    ensures points { IfOk result (λ _. M.points at.new ≡ M.points at.old) }
{
    match (left, right) {
        (Term::Var(x), Term::Var(y)) => two_variables(alloc, at, *x, *y),
        (Term::Var(x), Term::Num(value)) => variable_number(alloc, at, *x, *value),
        (Term::Num(value), Term::Var(y)) => variable_number(alloc, at, *y, *value),
        (Term::Var(x), Term::App(name, args)) => variable_app(alloc, at, *x, *name, args),
        (Term::App(name, args), Term::Var(y)) => variable_app(alloc, at, *y, *name, args),
        (Term::Num(_) | Term::App(_, _), Term::Num(_) | Term::App(_, _)) => Ok(false),
    }
}

/// The pairs are to be equal, and wait.
#[tactic(auto, using(crate::proofs::PairLemmas::last_equation))]
fn put_equations<M: Situation>(at: &mut M, pairs: Vec<Pair>) -> Result<(), Memory>
    ensures now { OnOk result (M.now at.new ≡ before (equations_of pairs.items) (M.now at.old)) }
    ensures points { OnOk result (M.points at.new ≡ M.points at.old) }
{
    let mut pairs = pairs;
    while let Some(Pair { left, right }) = pairs.pop() {
        at.put(Task::Equate(left, right))?;
    }
    Ok(())
}

/// The first of the pairs that the terms come to is acted on, and the others wait.
fn equate_pairs<M: Situation>(alloc: Global, at: &mut M, pairs: Pairs) -> Result<bool, SearchErr>
    ensures now { Goes result (equate_pairs sat (M.now at.old) pairs) (M.now at.new) }
    ensures points { IfOk result (λ _. M.points at.new ≡ M.points at.old) }
{
    if pairs.is_empty() {
        return Ok(true);
    }
    let mut rest = pairs.into_vec();
    let first = rest.remove(0);
    put_equations(at, rest)?;
    equated(alloc, at, &first.left, &first.right)
}

/// Whether there is a state in which the two terms are equal; it is the present one then.
pub fn equate_terms<M: Situation>(
    alloc: Global,
    at: &mut M,
    left: Term,
    right: Term,
) -> Result<bool, SearchErr>
    ensures now { Goes result (equate_terms sat (M.now at.old) (tm_of left) (tm_of right)) (M.now at.new) }
    ensures points { IfOk result (λ _. M.points at.new ≡ M.points at.old) }
{
    let pairs = pairs_read(alloc, at, left, right)?;
    equate_pairs(alloc, at, pairs)
}
