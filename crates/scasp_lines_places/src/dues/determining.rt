//! The constraint that a constraint of a clause determines where its variables stand for terms.
ghost use Rattle.std.specs.Prelude.{◌≡◌, ◌≤◌, IfOk};
ghost use Rattle.scasp_lines_places.specs.Dues.Above.{past};
ghost use Rattle.scasp_lines.specs.Determined.{above_values, determined, determined_row, not_shape, put_value, put_values, row_con};
ghost use Rattle.scasp_num.specs.Linear.{Gives};
ghost use Rattle.scasp_syntax.specs.View.{tm_of};

use crate::dues::raised::raised_row;
use crate::dues::simple::simple_differ;
use crate::dues::sums::sum;
use crate::places::{Substitution, under};
use scasp_list::Memory;
use scasp_name::NameId;
use scasp_num::{Coeff, Row, RowErr};
use scasp_syntax::{Con, Term};
use std::alloc::Global;

/// Above the variable that the term is; 0 where it is none.
fn past(term: &Term) -> Result<u64, Memory>
    ensures { IfOk result (λ number. number ≡ past (tm_of term.now)) }
{
    match term {
        Term::Var(y) => y.checked_add(1).ok_or(Memory),
        Term::Num(_) | Term::App(_, _) => Ok(0),
    }
}

/// Above each variable that one of these stands for by itself.
#[tactic(auto, using(crate::proofs::DuesLemmas::AboveLemmas::above_step))]
fn above_values<S: Substitution>(alloc: Global, by: &S, coeffs: &[Coeff]) -> Result<u64, Memory>
    ensures { IfOk result (λ above. above ≡ above_values (S.gives by.now) coeffs.now) }
{
    let mut above = 0u64;
    for k in coeffs {
        let value = by.value(alloc, k.x)?;
        above = above.max(past(&value)?);
    }
    Ok(above)
}

/// The row with the variable, numbered so, replaced by the number or the variable that it stands for.
fn put_value(x: u64, value: &Term, row: &Row) -> Result<Row, RowErr>
    requires { past (tm_of value.now) ≤ x }
    ensures { Gives result (put_value x (tm_of value.now) row.now) }
{
    match value {
        Term::Var(y) => row.join(x, *y),
        Term::Num(number) => row.put(x, number),
        Term::App(_, _) => Err(RowErr::Overflow),
    }
}

/// The row with its variables replaced one by one; they are raised by `raised`.
fn put_values<S: Substitution>(
    alloc: Global,
    by: &S,
    raised: u64,
    coeffs: &[Coeff],
    row: Row,
) -> Result<Row, RowErr>
    requires { above_values (S.gives by.now) coeffs.now ≤ raised }
    ensures { Gives result (put_values (S.gives by.now) raised coeffs.now row) }
{
    let mut row = row;
    for k in coeffs {
        let value = by.value(alloc, k.x)?;
        let x = sum(k.x, raised)?;
        row = put_value(x, &value, &row)?;
    }
    Ok(row)
}

/// The row with its variables replaced one by one, ascending.
fn determined_row<S: Substitution>(alloc: Global, by: &S, row: &Row) -> Result<Row, RowErr>
    ensures { Gives result (determined_row (S.gives by.now) row.now) }
{
    let coeffs = row.coeffs().as_slice();
    let raised = above_values(alloc, by, coeffs)?;
    let start = raised_row(alloc, row, 0, raised)?;
    put_values(alloc, by, raised, coeffs, start)
}

/// The row as a constraint, where it is determined.
fn row_con<S: Substitution>(alloc: Global, by: &S, row: &Row) -> Result<Option<Con>, Memory>
    ensures { IfOk result (λ made. made ≡ row_con (determined_row (S.gives by.now) row.now)) }
{
    match determined_row(alloc, by, row) {
        Ok(row) => Ok(Some(Con::Row(row))),
        Err(RowErr::Overflow) => Ok(None),
        Err(RowErr::Memory) => Err(Memory),
    }
}

fn not_shape(value: &Term, name: NameId, size: u64) -> Option<Con>
    ensures { result ≡ not_shape (tm_of value.now) name size }
{
    match value {
        Term::Var(y) => Some(Con::NotShape(*y, name, size)),
        Term::Num(_) | Term::App(_, _) => None,
    }
}

/// The constraint that a constraint of a clause determines where its variables stand for these terms. A disequation stands
/// in its simple form. None where a row overflows, or has a variable that stands for a term with a name.
#[tactic(auto, using(crate::proofs::DuesLemmas::TermLemmas::term_is))]
pub fn determined<S: Substitution>(
    alloc: Global,
    by: &S,
    constraint: &Con,
) -> Result<Option<Con>, Memory>
    ensures { IfOk result (λ made. made ≡ determined (S.gives by.now) constraint.now) }
{
    match constraint {
        Con::Eq(left, right) => {
            let left = under(alloc, left, by)?;
            let right = under(alloc, right, by)?;
            Ok(Some(Con::Eq(left, right)))
        }
        Con::Neq(left, right) => {
            let left = under(alloc, left, by)?;
            let right = under(alloc, right, by)?;
            Ok(Some(simple_differ(alloc, left, right)?))
        }
        Con::NotShape(x, name, size) => {
            let value = by.value(alloc, *x)?;
            Ok(not_shape(&value, *name, *size))
        }
        Con::Num(term) => Ok(Some(Con::Num(under(alloc, term, by)?))),
        Con::NotNum(term) => Ok(Some(Con::NotNum(under(alloc, term, by)?))),
        Con::Row(row) => row_con(alloc, by, row),
    }
}
