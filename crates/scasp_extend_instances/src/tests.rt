//! Constraints at given values, by arithmetic in the range of the numbers.
ghost use Rattle.std.specs.Prelude.{◌≡◌, IfOk};
ghost use Rattle.std.specs.Result.{result_ok};
ghost use Rattle.scasp_checker_rules.specs.BoundedTruth.{bounded_sum, summed};
ghost use Rattle.scasp_extend_instances.specs.View.{Tests, way_of};
ghost use Rattle.scasp_ground.specs.Bounded.{tested};
ghost use Rattle.scasp_rows.specs.Samples.{plus_product};
ghost use Rattle.scasp_syntax.specs.Constraints.{has_shape, is_number};
ghost use Rattle.scasp_syntax.specs.RowTruth.{number_of};
ghost use Rattle.scasp_syntax.specs.Same.{same_tm};
ghost use Rattle.scasp_syntax.specs.Values.{under};
ghost use Rattle.scasp_syntax.specs.View.{tm_of};

use crate::values::{Way, zero};
use scasp_ground::GroundErr;
use scasp_lines_places::under;
use scasp_list::Memory;
use scasp_name::NameId;
use scasp_num::{Coeff, Overflow, Rat, Row};
use scasp_syntax::{Con, Term, same};
use std::alloc::Global;

/// The number that the term is; what is no number counts as 0.
fn number_of(term: &Term) -> Rat
    ensures { result ≡ number_of (tm_of term.now) }
{
    match term {
        Term::Num(number) => *number,
        Term::Var(_) | Term::App(_, _) => zero(),
    }
}

/// The number that the variable's value is; what is no number counts as 0.
fn number_at(way: &Way, x: u64) -> Rat
    ensures { result ≡ number_of (way_of way.now x) }
{
    match way.term(x) {
        Some(term) => number_of(term),
        None => zero(),
    }
}

/// Whether the term is this name with so many arguments.
fn is_shaped(term: &Term, name: NameId, arity: u64) -> bool
    ensures { result ≡ has_shape name arity (tm_of term.now) }
{
    match term {
        Term::App(other, args) => *other == name && args.len() as u64 == arity,
        Term::Var(_) | Term::Num(_) => false,
    }
}

/// Whether the variable's value is this name with so many arguments.
fn has_shape(way: &Way, x: u64, name: NameId, arity: u64) -> bool
    ensures { result ≡ has_shape name arity (way_of way.now x) }
{
    match way.term(x) {
        Some(term) => is_shaped(term, name, arity),
        None => false,
    }
}

/// Whether the term is a number.
fn is_numeric(term: &Term) -> bool
    ensures { result ≡ is_number (tm_of term.now) }
{
    match term {
        Term::Num(_) => true,
        Term::Var(_) | Term::App(_, _) => false,
    }
}

/// Whether the term is a number at these values.
fn is_number(way: &Way, term: &Term) -> bool
    ensures { result ≡ is_number (under (way_of way.now) (tm_of term.now)) }
{
    match term {
        Term::Var(x) => match way.term(*x) {
            Some(value) => is_numeric(value),
            None => true,
        },
        Term::Num(_) => true,
        Term::App(_, _) => false,
    }
}

/// The sum, and the coefficient times the value.
fn plus_product(sum: &Rat, c: i128, value: &Rat) -> Result<Rat, Overflow>
    ensures { result_ok result ≡ plus_product sum.now c value.now }
{
    let product = Rat::new(c, 1)?.mul(value)?;
    sum.add(&product)
}

/// The sum, and each coefficient times its variable's value, in order.
fn summed(way: &Way, coeffs: &[Coeff], constant: &Rat) -> Result<Rat, Overflow>
    ensures { result_ok result ≡ summed (way_of way.now) coeffs.now constant.now }
{
    let mut sum = *constant;
    for k in coeffs {
        sum = plus_product(&sum, k.c, &number_at(way, k.x))?;
    }
    Ok(sum)
}

/// The row's value, as the constant and each coefficient times its variable's value, in order.
fn bounded_sum(way: &Way, row: &Row) -> Result<Rat, Overflow>
    ensures { result_ok result ≡ bounded_sum (way_of way.now) row.now }
{
    let constant = Rat::new(row.constant(), 1)?;
    summed(way, row.coeffs().as_slice(), &constant)
}

/// Whether the terms are equal at these values.
fn are_equal(alloc: Global, way: &Way, left: &Term, right: &Term) -> Result<bool, Memory>
    ensures { IfOk result (λ answer. answer ≡ same_tm (under (way_of way.now) (tm_of left.now)) (under (way_of way.now) (tm_of right.now))) }
{
    let left = under(alloc, left, way)?;
    let right = under(alloc, right, way)?;
    same(alloc, &left, &right)
}

/// Whether the constraint holds at these values. Overflow where it is a row whose sum is past the range of the numbers; never
/// TooLarge.
pub(crate) fn tested(alloc: Global, way: &Way, con: &Con) -> Result<bool, GroundErr>
    ensures { Tests result (tested (way_of way.now) con.now) }
{
    match con {
        Con::Eq(left, right) => Ok(are_equal(alloc, way, left, right)?),
        Con::Neq(left, right) => Ok(!are_equal(alloc, way, left, right)?),
        Con::NotShape(x, name, arity) => Ok(!has_shape(way, *x, *name, *arity)),
        Con::Num(term) => Ok(is_number(way, term)),
        Con::NotNum(term) => Ok(!is_number(way, term)),
        Con::Row(row) => match bounded_sum(way, row) {
            Ok(sum) => Ok(row.op().compares(sum.num())),
            Err(_) => Err(GroundErr::Overflow),
        },
    }
}
