//! Which constraints may split a case.
ghost use Rattle.std.specs.Prelude.{◌≡◌, IfOk};
ghost use Rattle.scasp_lines.specs.Places.{is_universal};
ghost use Rattle.scasp_lines_places.specs.Places.View.{place_of};
ghost use Rattle.scasp_syntax.specs.View.{tm_of};
ghost use Rattle.scasp_unify.specs.Parts.{occurs};
ghost use Rattle.scasp_checker_rules.specs.Splits.{is_equated, is_split_between, is_split_variable, may_split};

use crate::line_faults::within::Universal;
use scasp_checker_answer::{Scope, any_of_terms, has_any, has_either};
use scasp_lines_places::{Replaced, under};
use scasp_list::Memory;
use scasp_syntax::{Con, Term};
use std::alloc::Global;

/// One variable.
#[derive(Drop)]
struct Single {
    x: u64,
}

impl Scope for Single {
    ghost use Rattle.std.specs.Prelude.{nat_eq};

    ghost known = { λ s y. nat_eq s.x y };

    fn knows(&self, _alloc: Global, y: u64) -> Result<bool, Memory> {
        Ok(self.x == y)
    }
}

/// Whether the variable stands in the term. It takes memory for the terms that are still to be seen, and no machine stack.
#[tactic(auto, using(crate::proofs::LineFaultsLemmas::SplitLemmas::single_occurs))]
fn occurs(alloc: Global, x: u64, term: &Term) -> Result<bool, Memory>
    ensures { IfOk result (λ answer. answer ≡ occurs x (tm_of term.now)) }
{
    has_any(alloc, &Single { x }, term)
}

/// Whether the variable is universal, and not in the other side as it is replaced.
fn is_split_variable(
    alloc: Global,
    universal: &Universal,
    x: u64,
    other: &Term,
) -> Result<bool, Memory>
    ensures { IfOk result (λ is. is ≡ is_split_variable (is_universal universal.now.bounds.free universal.now.bounds.top (place_of universal.now.here.now)) (place_of universal.now.here.now).replaced x (tm_of other.now)) }
{
    if !universal.knows(alloc, x)? {
        return Ok(false);
    }
    let replaced = Replaced {
        all: &universal.here.replaced,
    };
    let other = under(alloc, other, &replaced)?;
    Ok(!occurs(alloc, x, &other)?)
}

/// Whether the variable that is the left side, or else the right one, is a universal that is not in the other side; true
/// where no side is a variable.
fn is_equated(
    alloc: Global,
    universal: &Universal,
    left: &Term,
    right: &Term,
) -> Result<bool, Memory>
    ensures { IfOk result (λ is. is ≡ is_equated (is_universal universal.now.bounds.free universal.now.bounds.top (place_of universal.now.here.now)) (place_of universal.now.here.now).replaced (tm_of left.now) (tm_of right.now)) }
{
    match (left, right) {
        (Term::Var(x), _) => is_split_variable(alloc, universal, *x, right),
        (Term::Num(_) | Term::App(_, _), Term::Var(x)) => {
            is_split_variable(alloc, universal, *x, left)
        }
        (Term::Num(_) | Term::App(_, _), Term::Num(_) | Term::App(_, _)) => Ok(true),
    }
}

/// Whether an equation or a disequation of these terms may split a case.
fn is_split_between(
    alloc: Global,
    universal: &Universal,
    left: &Term,
    right: &Term,
) -> Result<bool, Memory>
    ensures { IfOk result (λ is. is ≡ is_split_between (is_universal universal.now.bounds.free universal.now.bounds.top (place_of universal.now.here.now)) (place_of universal.now.here.now).replaced (tm_of left.now) (tm_of right.now)) }
{
    if !has_either(alloc, universal, left, right)? {
        return Ok(false);
    }
    is_equated(alloc, universal, left, right)
}

/// Whether the constraint may split a case: some variable is universal, a shape with parts is excluded only where the
/// parts are written, and a variable is not equated with what has it.
pub fn may_split(alloc: Global, universal: &Universal, con: &Con) -> Result<bool, Memory>
    ensures { IfOk result (λ may. may ≡ may_split (is_universal universal.now.bounds.free universal.now.bounds.top (place_of universal.now.here.now)) (place_of universal.now.here.now).replaced con.now) }
{
    match con {
        Con::Eq(left, right) => is_split_between(alloc, universal, left, right),
        Con::Neq(left, right) => is_split_between(alloc, universal, left, right),
        Con::NotShape(x, _, arity) => {
            if *arity != 0 {
                return Ok(false);
            }
            universal.knows(alloc, *x)
        }
        Con::Num(term) => has_any(alloc, universal, term),
        Con::NotNum(term) => has_any(alloc, universal, term),
        Con::Row(row) => any_of_terms(alloc, universal, row.coeffs().as_slice()),
    }
}
