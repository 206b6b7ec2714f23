//! Terms with their variables raised.
ghost use Rattle.std.specs.Prelude.{◌≡◌, ◌-◌, ◌^◌, IsTrue, IfOk};
ghost use Rattle.scasp_syntax.specs.Raised.{raised_within};
ghost use Rattle.scasp_syntax.specs.Values.{under, all_under, raised};
ghost use Rattle.scasp_syntax.specs.View.{tm_of};
ghost use Rattle.scasp_syntax.specs.WellFormed.{is_below, are_below};

use crate::rebuilding::{Values, rebuilt};
use crate::term::{Term, Terms};
use scasp_name::Memory;
use std::alloc::Global;

/// Each variable stands for the one whose number is higher by so much, or for the last one.
#[derive(Drop)]
struct Raised {
    by: u64,
}

impl Values for Raised {
    ghost gives = { λ r. raised_within r.by };

    fn value_of(&self, _alloc: Global, x: u64) -> Result<Term, Memory> {
        Ok(Term::Var(x.saturating_add(self.by)))
    }
}

/// The term with each variable number raised by `by`; no sum may pass `u64`. It takes memory for what is still to be made, and no
/// machine stack.
pub fn rename(alloc: Global, term: &Term, by: u64) -> Result<Term, Memory>
    requires { IsTrue (is_below (2 ^ 64 - by) (tm_of term.now)) }
    ensures { IfOk result (λ renamed. tm_of renamed ≡ under (raised by) (tm_of term.now)) }
{
    match term {
        Term::Var(x) => Ok(Term::Var(*x + by)),
        Term::Num(value) => Ok(Term::Num(*value)),
        Term::App(name, args) => Ok(Term::App(*name, rename_terms(alloc, args, by)?)),
    }
}

/// The list of terms with each variable number raised by `by`; no sum may pass `u64`. It takes memory as `rename`.
#[tactic(auto, using(crate::proofs::RaisedLemmas::all_raised))]
pub fn rename_terms(alloc: Global, terms: &Terms, by: u64) -> Result<Terms, Memory>
    requires { IsTrue (are_below (2 ^ 64 - by) terms.now) }
    ensures { IfOk result (λ renamed. renamed ≡ all_under (raised by) terms.now) }
{
    rebuilt(alloc, terms.as_slice(), &Raised { by })
}
