//! Whether terms and constraints have known variables alone.
ghost use Rattle.std.specs.Prelude.{◌≡◌, ℕ, Bool, ◌&&◌, nat_lt, IfOk};
ghost use Rattle.std.specs.List.{list_all};
ghost use Rattle.scasp_syntax.specs.View.{tm_of};
ghost use Rattle.scasp_syntax.specs.WellFormed.{are_below};
ghost use Rattle.scasp_lines.specs.Known.{are_known, is_con_known, is_known};

use scasp_list::Memory;
use scasp_num::Coeff;
use scasp_syntax::{Con, Cons, Term, Terms};
use std::alloc::Global;

/// Which variables are known.
pub trait Scope {
    ghost known: { Self → ℕ → Bool };

    /// Whether the variable is known.
    fn knows(&self, alloc: Global, x: u64) -> Result<bool, Memory>
        ensures { IfOk result (λ answer. answer ≡ known self.now x) };
}

/// The variables below a number.
#[derive(Clone, Copy, Debug)]
pub struct Below(pub u64);

impl Scope for Below {
    ghost use Rattle.std.specs.Prelude.{nat_lt};

    ghost known = { λ s x. nat_lt x s.0 };

    fn knows(&self, _alloc: Global, x: u64) -> Result<bool, Memory> {
        Ok(x < self.0)
    }
}

/// Whether each variable of the terms is known. It takes memory for the lists of terms that are still to be seen, and no
/// machine stack.
pub fn are_known<S: Scope>(alloc: Global, scope: &S, terms: &Terms) -> Result<bool, Memory>
    ensures { IfOk result (λ answer. answer ≡ are_known (S.known scope.now) terms.now) }
{
    let mut unseen: Vec<&[Term]> = Vec::new(alloc);
    unseen.push(terms.as_slice())?;
    while let Some(list) = unseen.pop() {
        for term in list {
            match term {
                Term::Var(x) => {
                    if !scope.knows(alloc, *x)? {
                        return Ok(false);
                    }
                }
                Term::Num(_) => {}
                Term::App(_, args) => unseen.push(args.as_slice())?,
            }
        }
    }
    Ok(true)
}

/// Whether each variable of the term is known, with memory as `are_known`.
pub fn is_known<S: Scope>(alloc: Global, scope: &S, term: &Term) -> Result<bool, Memory>
    ensures { IfOk result (λ answer. answer ≡ is_known (S.known scope.now) (tm_of term.now)) }
{
    match term {
        Term::Var(x) => scope.knows(alloc, *x),
        Term::Num(_) => Ok(true),
        Term::App(_, args) => are_known(alloc, scope, args),
    }
}

/// Whether each variable of both terms is known, with memory as `are_known`.
fn are_both_known<S: Scope>(
    alloc: Global,
    scope: &S,
    left: &Term,
    right: &Term,
) -> Result<bool, Memory>
    ensures { IfOk result (λ answer. answer ≡ (is_known (S.known scope.now) (tm_of left.now) && is_known (S.known scope.now) (tm_of right.now))) }
{
    if !is_known(alloc, scope, left)? {
        return Ok(false);
    }
    is_known(alloc, scope, right)
}

/// Whether each of the coefficients' variables is known.
fn are_terms_known<S: Scope>(alloc: Global, scope: &S, coeffs: &[Coeff]) -> Result<bool, Memory>
    ensures { IfOk result (λ answer. answer ≡ list_all (λ j. S.known scope.now j.x) coeffs.now) }
{
    for k in coeffs {
        if !scope.knows(alloc, k.x)? {
            return Ok(false);
        }
    }
    Ok(true)
}

/// Whether each variable of the constraint is known, with memory as `are_known`.
pub fn is_con_known<S: Scope>(alloc: Global, scope: &S, con: &Con) -> Result<bool, Memory>
    ensures { IfOk result (λ answer. answer ≡ is_con_known (S.known scope.now) con.now) }
{
    match con {
        Con::Eq(left, right) => are_both_known(alloc, scope, left, right),
        Con::Neq(left, right) => are_both_known(alloc, scope, left, right),
        Con::NotShape(x, _, _) => scope.knows(alloc, *x),
        Con::Num(term) => is_known(alloc, scope, term),
        Con::NotNum(term) => is_known(alloc, scope, term),
        Con::Row(row) => are_terms_known(alloc, scope, row.coeffs().as_slice()),
    }
}

/// Whether each variable of the constraints is known, with memory as `are_known`.
pub fn are_cons_known<S: Scope>(alloc: Global, scope: &S, cons: &Cons) -> Result<bool, Memory>
    ensures { IfOk result (λ answer. answer ≡ list_all (is_con_known (S.known scope.now)) cons.now) }
{
    for con in cons.as_slice() {
        if !is_con_known(alloc, scope, con)? {
            return Ok(false);
        }
    }
    Ok(true)
}

/// Whether each variable of the terms is below the number.
#[tactic(auto, using(crate::proofs::KnownLemmas::below_known))]
pub fn are_below(alloc: Global, terms: &Terms, bound: u64) -> Result<bool, Memory>
    ensures { IfOk result (λ answer. answer ≡ are_below bound terms.now) }
{
    are_known(alloc, &Below(bound), terms)
}
