//! What is evident from a list of constraints, without a question.
ghost use Rattle.std.specs.Prelude.{◌≡◌, IfOk, nat_eq};
ghost use Rattle.std.specs.List.{list_all, list_any};
ghost use Rattle.scasp_num.specs.Number.{InRange};
ghost use Rattle.scasp_rows.specs.Steps.{step_of};
ghost use Rattle.scasp_shorten.specs.Evident.{against, clash, clash_at, is_about_numbers, is_evident, is_false_sum, magnitude, row_tells, rows_tell, tells_alone};

use crate::following::{has_variable, is_number_by, tells_number, tells_numbers};
use scasp_checker_answer::same_con;
use scasp_list::Memory;
use scasp_num::Row;
use scasp_rows::{StepErr, is_false, step};
use scasp_syntax::Con;
use std::alloc::Global;

fn magnitude(a: i128) -> i128
    requires { InRange a }
    ensures { result ≡ magnitude a }
{
    if a < 0 { -a } else { a }
}

/// The number `b`, with its sign turned if `a` is above 0.
fn against(a: i128, b: i128) -> i128
    requires { InRange b }
    ensures { result ≡ against a b }
{
    if a > 0 { -b } else { b }
}

/// Whether the sum is made, and is a false row.
fn is_false_sum(alloc: Global, a: i128, p: &Row, b: i128, q: &Row) -> Result<bool, Memory>
    ensures { IfOk result (λ is. is ≡ is_false_sum (step_of a p.now b q.now)) }
{
    match step(alloc, a, p, b, q) {
        Ok(row) => Ok(is_false(&row)),
        Err(StepErr::Overflow | StepErr::Sign) => Ok(false),
        Err(StepErr::Memory) => Err(Memory),
    }
}

/// Whether the sum of two rows without a variable, of which these are the coefficients, is false.
fn clash_at(alloc: Global, a: i128, b: i128, p: &Row, q: &Row) -> Result<bool, Memory>
    requires first { InRange a }
    requires second { InRange b }
    ensures { IfOk result (λ is. is ≡ clash_at a b p.now q.now) }
{
    if q.op().is_equation() {
        return is_false_sum(alloc, magnitude(b), p, against(b, a), q);
    }
    is_false_sum(alloc, against(a, b), p, magnitude(a), q)
}

/// Whether the sum of the two rows without the first variable of the first is false.
fn clash(alloc: Global, p: &Row, q: &Row) -> Result<bool, Memory>
    ensures { IfOk result (λ is. is ≡ clash p.now q.now) }
{
    match p.coeffs().as_slice() {
        [] => Ok(false),
        [k, ..] => clash_at(alloc, p.coefficient(k.x), q.coefficient(k.x), p, q),
    }
}

/// Whether the first row has all variables of the second.
fn has_variables(p: &Row, r: &Row) -> bool
    ensures { result ≡ list_all (λ k. list_any (λ j. nat_eq k.x j.x) p.now.coeffs) r.now.coeffs }
{
    r.coeffs().as_slice().iter().all(|k| has_variable(k.x, p))
}

/// Whether the first row tells the second.
fn row_tells(alloc: Global, p: &Row, r: &Row) -> Result<bool, Memory>
    ensures { IfOk result (λ is. is ≡ row_tells p.now r.now) }
{
    Ok(has_variables(p, r) && clash(alloc, p, &r.negate()?)?)
}

/// Whether both are rows, and the first tells the second.
fn rows_tell(alloc: Global, one: &Con, other: &Con) -> Result<bool, Memory>
    ensures { IfOk result (λ is. is ≡ rows_tell one.now other.now) }
{
    let Con::Row(p) = one else {
        return Ok(false);
    };
    let Con::Row(r) = other else {
        return Ok(false);
    };
    row_tells(alloc, p, r)
}

/// Whether the first constraint alone tells the second.
fn tells_alone(alloc: Global, one: &Con, other: &Con) -> Result<bool, Memory>
    ensures { IfOk result (λ is. is ≡ tells_alone one.now other.now) }
{
    Ok(same_con(alloc, one, other)? || rows_tell(alloc, one, other)?)
}

/// Whether some constraint of the list alone tells this one.
fn is_told_by_one(alloc: Global, list: &[Con], constraint: &Con) -> Result<bool, Memory>
    ensures { IfOk result (λ is. is ≡ list_any (λ d. tells_alone d constraint.now) list.now) }
{
    for one in list {
        if tells_alone(alloc, one, constraint)? {
            return Ok(true);
        }
    }
    Ok(false)
}

/// Whether the constraint says no more than that something is a number, which the list tells.
fn is_about_numbers(list: &[Con], constraint: &Con) -> Result<bool, Memory>
    ensures { IfOk result (λ is. is ≡ is_about_numbers list.now constraint.now) }
{
    match constraint {
        Con::Num(term) => Ok(is_number_by(list, term)),
        Con::NotShape(x, _, _) => Ok(tells_number(list, *x)),
        Con::Row(row) => Ok(tells_numbers(list, row) && is_false(&row.negate()?)),
        Con::Eq(_, _) | Con::Neq(_, _) | Con::NotNum(_) => Ok(false),
    }
}

/// Whether it is evident from the list that the constraint holds.
pub(crate) fn is_evident(alloc: Global, list: &[Con], constraint: &Con) -> Result<bool, Memory>
    ensures { IfOk result (λ is. is ≡ is_evident list.now constraint.now) }
{
    Ok(is_about_numbers(list, constraint)? || is_told_by_one(alloc, list, constraint)?)
}
