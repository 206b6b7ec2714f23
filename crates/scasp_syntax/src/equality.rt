//! Tests of equality.
ghost use Rattle.std.specs.Prelude.{◌≡◌, IfOk};
ghost use Rattle.scasp_syntax.specs.Same.{same_head, same_tm, same_tms, same_atom, same_lit};
ghost use Rattle.scasp_syntax.specs.Tm.{args_of};
ghost use Rattle.scasp_syntax.specs.View.{tm_of, tms_of};

use crate::atom::{Atom, Lit};
use crate::term::{Term, Terms};
use scasp_name::Memory;
use std::alloc::Global;

/// Whether two terms are equal. It takes memory for the arguments that are still to be compared, and no machine stack.
pub fn same(alloc: Global, first: &Term, second: &Term) -> Result<bool, Memory>
    ensures { IfOk result (λ answer. answer ≡ same_tm (tm_of first.now) (tm_of second.now)) }
{
    if !has_same_head(first, second) {
        return Ok(false);
    }
    match first {
        Term::Var(_) => Ok(true),
        Term::Num(_) => Ok(true),
        Term::App(_, args) => same_lists(alloc, args.as_slice(), arguments(second)),
    }
}

/// Whether two lists of terms are equal, with memory as `same`.
pub fn same_terms(alloc: Global, first: &Terms, second: &Terms) -> Result<bool, Memory>
    ensures { IfOk result (λ answer. answer ≡ same_tms first.now second.now) }
{
    same_lists(alloc, first.as_slice(), second.as_slice())
}

/// Whether two atoms are equal, with memory as `same`.
pub fn same_atom(alloc: Global, first: &Atom, second: &Atom) -> Result<bool, Memory>
    ensures { IfOk result (λ answer. answer ≡ same_atom first.now second.now) }
{
    if first.minus != second.minus || first.name != second.name {
        return Ok(false);
    }
    same_terms(alloc, &first.args, &second.args)
}

/// Whether two literals are equal, with memory as `same`.
pub fn same_lit(alloc: Global, first: &Lit, second: &Lit) -> Result<bool, Memory>
    ensures { IfOk result (λ answer. answer ≡ same_lit first.now second.now) }
{
    if first.positive != second.positive {
        return Ok(false);
    }
    same_atom(alloc, &first.atom, &second.atom)
}

/// Whether the terms are the same variable, the same number, or the same name with any arguments.
fn has_same_head(first: &Term, second: &Term) -> bool
    ensures { result ≡ same_head (tm_of first.now) (tm_of second.now) }
{
    match (first, second) {
        (Term::Var(x), Term::Var(y)) => x == y,
        (Term::Num(left), Term::Num(right)) => left == right,
        (Term::App(left, _), Term::App(right, _)) => left == right,
        (Term::Var(_), Term::Num(_) | Term::App(..))
        | (Term::Num(_), Term::Var(_) | Term::App(..))
        | (Term::App(..), Term::Var(_) | Term::Num(_)) => false,
    }
}

/// The arguments of the term; none of a variable or a number.
fn arguments(term: &Term) -> &[Term]
    ensures { tms_of result.now ≡ args_of (tm_of term.now) }
{
    match term {
        Term::Var(_) => &[],
        Term::Num(_) => &[],
        Term::App(_, args) => args.as_slice(),
    }
}

/// Whether two lists of terms are equal.
fn same_lists(alloc: Global, first: &[Term], second: &[Term]) -> Result<bool, Memory>
    ensures { IfOk result (λ answer. answer ≡ same_tms (tms_of first.now) (tms_of second.now)) }
{
    let mut unseen: Vec<(&[Term], &[Term])> = Vec::new(alloc);
    unseen.push((first, second))?;
    while let Some((left, right)) = unseen.pop() {
        if left.len() != right.len() {
            return Ok(false);
        }
        for (place, term) in left.iter().enumerate() {
            let other = &right[place];
            if !has_same_head(term, other) {
                return Ok(false);
            }
            match term {
                Term::Var(_) => {}
                Term::Num(_) => {}
                Term::App(_, args) => unseen.push((args.as_slice(), arguments(other)))?,
            }
        }
    }
    Ok(true)
}
