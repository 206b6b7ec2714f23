//! Above each variable of terms and constraints.
ghost use Rattle.std.specs.Prelude.{◌≡◌, suc, IfOk};
ghost use Rattle.scasp_checker_rules.specs.PairLists.{above, above_all, above_con, above_cons, above_terms};
ghost use Rattle.scasp_syntax.specs.View.{tm_of};

use scasp_list::Memory;
use scasp_num::Coeff;
use scasp_syntax::{Con, Term, Terms, Walk};
use std::alloc::Global;

/// Above the variable; past the range of numbers it is want of memory.
fn behind(x: u64) -> Result<u64, Memory>
    ensures { IfOk result (λ number. number ≡ suc x) }
{
    x.checked_add(1).ok_or(Memory)
}

/// Above each variable of the term. It takes memory for the terms that are still to be seen, and no machine stack.
fn above(alloc: Global, term: &Term) -> Result<u64, Memory>
    ensures { IfOk result (λ number. number ≡ above (tm_of term.now)) }
{
    match term {
        Term::Var(x) => behind(*x),
        Term::Num(_) => Ok(0),
        Term::App(_, args) => above_all(alloc, args),
    }
}

/// Above each variable of the terms, with memory as `above`.
#[tactic(auto, using(crate::proofs::AboveLemmas::variable_counted, crate::proofs::AboveLemmas::number_passed, crate::proofs::AboveLemmas::args_next, crate::proofs::AboveLemmas::no_args, crate::proofs::AboveLemmas::all_counted, scasp_unify::proofs::PartLemmas::less_left, scasp_unify::proofs::PartLemmas::less_entered))]
pub fn above_all(alloc: Global, terms: &Terms) -> Result<u64, Memory>
    ensures { IfOk result (λ number. number ≡ above_all terms.now) }
{
    let mut number = 0u64;
    let mut left = Walk::over(alloc, terms.as_slice());
    'terms: while let Some(term) = left.next() {
        match term {
            Term::Var(x) => {
                number = number.max(behind(*x)?);
            }
            Term::Num(_) => {}
            Term::App(_, args) => {
                if args.len() == 0 {
                    continue;
                }
                left.enter(args)?;
            }
        }
    }
    Ok(number)
}

/// Above each variable of the coefficients.
fn above_terms(coeffs: &[Coeff]) -> Result<u64, Memory>
    ensures { IfOk result (λ number. number ≡ above_terms coeffs.now) }
{
    let mut number = 0u64;
    for k in coeffs {
        number = number.max(behind(k.x)?);
    }
    Ok(number)
}

/// Above each variable of the constraint.
pub fn above_con(alloc: Global, constraint: &Con) -> Result<u64, Memory>
    ensures { IfOk result (λ number. number ≡ above_con constraint.now) }
{
    match constraint {
        Con::Eq(left, right) | Con::Neq(left, right) => {
            Ok(above(alloc, left)?.max(above(alloc, right)?))
        },
        Con::NotShape(x, _, _) => behind(*x),
        Con::Num(term) | Con::NotNum(term) => above(alloc, term),
        Con::Row(row) => above_terms(row.coeffs().as_slice()),
    }
}

/// Above each variable of the constraints.
pub fn above_cons(alloc: Global, constraints: &[Con]) -> Result<u64, Memory>
    ensures { IfOk result (λ number. number ≡ above_cons constraints.now) }
{
    let mut number = 0u64;
    for constraint in constraints {
        number = number.max(above_con(alloc, constraint)?);
    }
    Ok(number)
}
