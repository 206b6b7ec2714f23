//! New variables for the parts of a term, and the negation of a constraint.
ghost use Rattle.std.specs.Prelude.{◌≡◌, length, IfOk};
ghost use Rattle.scasp_syntax.specs.Same.{same_tms};
ghost use Rattle.scasp_syntax.specs.Tm.{items};
ghost use Rattle.scasp_unify.specs.Negations.{negated, new_parts};

use scasp_list::Memory;
use scasp_syntax::{Con, Term, Terms, copy};
use std::alloc::Global;

/// The variables of `count` numbers from `first` on.
#[tactic(auto, using(crate::proofs::PlacesLemmas::PartLemmas::parts_push))]
pub fn new_parts(alloc: Global, first: u64, count: u64) -> Result<Terms, Memory>
    ensures { IfOk result (λ made. made ≡ new_parts first count) }
{
    let mut made = Terms::new(alloc);
    for place in 0..count {
        let x = first.checked_add(place).ok_or(Memory)?;
        made.push(Term::Var(x))?;
    }
    Ok(made)
}

/// Whether the terms are the variables from `first` on, in order.
pub fn are_new_parts(first: u64, terms: &Terms) -> bool
    ensures { result ≡ same_tms terms.now (new_parts first (length (items terms.now))) }
{
    for (place, term) in terms.as_slice().iter().enumerate() {
        match term {
            Term::Var(x) => {
                if *x < first || *x - first != place as u64 {
                    return false;
                }
            }
            Term::Num(_) | Term::App(_, _) => return false,
        }
    }
    true
}

/// The constraint that is true exactly where this one is not; the parts of an excluded shape are variables from `hidden` on.
pub fn negated(alloc: Global, hidden: u64, constraint: &Con) -> Result<Con, Memory>
    ensures { IfOk result (λ made. made ≡ negated hidden constraint.now) }
{
    match constraint {
        Con::Eq(left, right) => Ok(Con::Neq(copy(alloc, left)?, copy(alloc, right)?)),
        Con::Neq(left, right) => Ok(Con::Eq(copy(alloc, left)?, copy(alloc, right)?)),
        Con::NotShape(x, name, size) => Ok(Con::Eq(
            Term::Var(*x),
            Term::App(*name, new_parts(alloc, hidden, *size)?),
        )),
        Con::Num(term) => Ok(Con::NotNum(copy(alloc, term)?)),
        Con::NotNum(term) => Ok(Con::Num(copy(alloc, term)?)),
        Con::Row(row) => Ok(Con::Row(row.negate()?)),
    }
}
