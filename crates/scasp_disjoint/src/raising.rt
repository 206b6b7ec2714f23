//! Constraints with each variable that is not free raised.
ghost use Rattle.std.specs.Prelude.{◌≡◌, ◌++◌, IfOk, OnOk, map};
ghost use Rattle.scasp_checker_rules.specs.PairLists.{con_raised};
ghost use Rattle.scasp_disjoint.specs.Raised.{raising_by};
ghost use Rattle.scasp_syntax.specs.View.{tm_of};

use scasp_lines_places::{Substitution, raised_from, raised_row, under};
use scasp_list::Memory;
use scasp_syntax::{Con, Cons, Term};
use std::alloc::Global;

/// Each variable that is not below `free` raised by `by`, as a substitution.
#[derive(Clone, Copy, Debug)]
pub struct Raising {
    pub free: u64,
    pub by: u64,
}

impl Substitution for Raising {
    ghost gives = { raising_by };

    fn value(&self, _alloc: Global, x: u64) -> Result<Term, Memory> {
        Ok(Term::Var(raised_from(self.free, self.by, x)?))
    }
}

/// The constraint with its variables raised; the variables of a row keep their order.
#[tactic(auto, using(scasp_lines_places::proofs::DuesLemmas::TermLemmas::term_is))]
pub fn con_raised(alloc: Global, raising: &Raising, constraint: &Con) -> Result<Con, Memory>
    ensures { IfOk result (λ made. made ≡ con_raised raising.now.free raising.now.by constraint.now) }
{
    match constraint {
        Con::Eq(left, right) => {
            let left = under(alloc, left, raising)?;
            let right = under(alloc, right, raising)?;
            Ok(Con::Eq(left, right))
        }
        Con::Neq(left, right) => {
            let left = under(alloc, left, raising)?;
            let right = under(alloc, right, raising)?;
            Ok(Con::Neq(left, right))
        }
        Con::NotShape(x, name, size) => {
            Ok(Con::NotShape(raised_from(raising.free, raising.by, *x)?, *name, *size))
        }
        Con::Num(term) => Ok(Con::Num(under(alloc, term, raising)?)),
        Con::NotNum(term) => Ok(Con::NotNum(under(alloc, term, raising)?)),
        Con::Row(row) => Ok(Con::Row(raised_row(alloc, row, raising.free, raising.by)?)),
    }
}

/// Puts the constraints at the end, each with its variables raised.
pub(crate) fn push_raised(
    alloc: Global,
    raising: &Raising,
    constraints: &[Con],
    list: &mut Cons,
) -> Result<(), Memory>
    ensures { OnOk result (list.new ≡ list.old ++ map (con_raised raising.now.free raising.now.by) constraints.now) }
{
    for constraint in constraints {
        list.push(con_raised(alloc, raising, constraint)?)?;
    }
    Ok(())
}
