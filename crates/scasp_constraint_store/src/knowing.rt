//! Constraints whose variables are those of the store.
ghost use Rattle.std.specs.Prelude.{◌≡◌, ◌&&◌, IfOk, length, nat_lt};
ghost use Rattle.std.specs.List.{list_all};
ghost use Rattle.scasp_syntax.specs.View.{tm_of};
ghost use Rattle.scasp_syntax.specs.WellFormed.{is_below};
ghost use Rattle.scasp_unify.specs.Negations.{is_con_below};

use scasp_bind::Bindings;
use scasp_list::Memory;
use scasp_num::Coeff;
use scasp_syntax::{Con, Term};

fn knows_row(count: u64, coeffs: &[Coeff]) -> bool
    ensures { result ≡ list_all (λ k. nat_lt k.x count) coeffs.now }
{
    for coeff in coeffs {
        if coeff.x >= count {
            return false;
        }
    }
    true
}

fn knows_both(variables: &Bindings, left: &Term, right: &Term) -> Result<bool, Memory>
    ensures { IfOk result (λ answer. answer ≡ (is_below (length variables.now.variables) (tm_of left.now) && is_below (length variables.now.variables) (tm_of right.now))) }
{
    let first = variables.knows(left)?;
    let second = variables.knows(right)?;
    Ok(first && second)
}

/// Whether the variables of the constraint are among these.
pub(crate) fn knows(variables: &Bindings, constraint: &Con) -> Result<bool, Memory>
    ensures { IfOk result (λ answer. answer ≡ is_con_below (length variables.now.variables) constraint.now) }
{
    match constraint {
        Con::Eq(left, right) | Con::Neq(left, right) => knows_both(variables, left, right),
        Con::NotShape(x, _, _) => Ok(*x < variables.len()),
        Con::Num(term) | Con::NotNum(term) => variables.knows(term),
        Con::Row(row) => Ok(knows_row(variables.len(), row.coeffs().as_slice())),
    }
}
