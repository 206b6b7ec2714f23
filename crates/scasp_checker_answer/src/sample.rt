//! Whether the sample meets what is given.
ghost use Rattle.std.specs.Prelude.{◌≡◌, not, IfOk};
ghost use Rattle.std.specs.Result.{result_ok};
ghost use Rattle.std.specs.List.{list_all};
ghost use Rattle.scasp_num.specs.Number.{zero_number};
ghost use Rattle.scasp_num.specs.Linear.{compares};
ghost use Rattle.scasp_rows.specs.Samples.{plus_product};
ghost use Rattle.scasp_rows.specs.Steps.{whole};
ghost use Rattle.scasp_syntax.specs.Constraints.{has_shape, is_number};
ghost use Rattle.scasp_syntax.specs.RowTruth.{number_of};
ghost use Rattle.scasp_syntax.specs.Same.{same_tm};
ghost use Rattle.scasp_syntax.specs.Tm.{items};
ghost use Rattle.scasp_syntax.specs.Values.{giving, under};
ghost use Rattle.scasp_syntax.specs.View.{tm_of};
ghost use Rattle.scasp_cert.specs.Certificate.{certificate_of};
ghost use Rattle.scasp_checker_rules.specs.BoundedTruth.{bounded_sum, compares_so, holds_bounded, summed};
ghost use Rattle.scasp_checker_rules.specs.Faults.{sample_faults};
ghost use Rattle.scasp_checker_answer.specs.Judged.{Judges};

use crate::judged::{CheckErr, want};
use scasp_cert::Cert;
use scasp_checker_rules::Reason;
use scasp_list::Memory;
use scasp_name::NameId;
use scasp_num::{Coeff, Overflow, Rat, Row};
use scasp_syntax::{Con, Cons, Term, Terms, are_ground, instance, same};
use std::alloc::Global;

fn zero() -> Rat
    ensures { result ≡ zero_number }
{
    match Rat::new(0, 1) {
        Ok(zero) => zero,
        Err(_) => unreachable!(),
    }
}

/// The number that the value is; what is no number counts as 0.
fn number_of(value: &Term) -> Rat
    ensures { result ≡ number_of (tm_of value.now) }
{
    match value {
        Term::Num(number) => *number,
        Term::Var(_) => zero(),
        Term::App(_, _) => zero(),
    }
}

/// The number that the variable's value is; what is no number counts as 0.
fn number_at(values: &Terms, x: u64) -> Rat
    ensures { result ≡ number_of (giving (items values.now) x) }
{
    match values.get(x as usize) {
        Some(value) => number_of(value),
        None => zero(),
    }
}

/// Whether the value is this name with so many arguments.
fn is_shaped(value: &Term, name: NameId, arity: u64) -> bool
    ensures { result ≡ has_shape name arity (tm_of value.now) }
{
    match value {
        Term::App(other, args) => *other == name && args.len() as u64 == arity,
        Term::Var(_) => false,
        Term::Num(_) => false,
    }
}

/// Whether the variable's value is this name with so many arguments.
fn has_shape(values: &Terms, x: u64, name: NameId, arity: u64) -> bool
    ensures { result ≡ has_shape name arity (giving (items values.now) x) }
{
    match values.get(x as usize) {
        Some(value) => is_shaped(value, name, arity),
        None => false,
    }
}

/// Whether the value is a number.
fn is_numeric(value: &Term) -> bool
    ensures { result ≡ is_number (tm_of value.now) }
{
    match value {
        Term::Num(_) => true,
        Term::Var(_) => false,
        Term::App(_, _) => false,
    }
}

/// Whether the variable's value is a number.
fn is_number_at(values: &Terms, x: u64) -> bool
    ensures { result ≡ is_number (giving (items values.now) x) }
{
    match values.get(x as usize) {
        Some(value) => is_numeric(value),
        None => false,
    }
}

/// Whether the term is a number under the values.
fn is_number(values: &Terms, term: &Term) -> bool
    ensures { result ≡ is_number (under (giving (items values.now)) (tm_of term.now)) }
{
    match term {
        Term::Var(x) => is_number_at(values, *x),
        Term::Num(_) => true,
        Term::App(_, _) => false,
    }
}

/// The sum, and the coefficient times the value.
fn plus_product(sum: &Rat, c: i128, value: &Rat) -> Result<Rat, Overflow>
    ensures { result_ok result ≡ plus_product sum.now c value.now }
{
    let product = Rat::new(c, 1)?.mul(value)?;
    sum.add(&product)
}

/// The sum, and each coefficient times its variable's value, in order.
fn summed(values: &Terms, coeffs: &[Coeff], constant: &Rat) -> Result<Rat, Overflow>
    ensures { result_ok result ≡ summed (giving (items values.now)) coeffs.now constant.now }
{
    let mut sum = *constant;
    for k in coeffs {
        sum = plus_product(&sum, k.c, &number_at(values, k.x))?;
    }
    Ok(sum)
}

/// The row's value at these values, as the constant and each coefficient times its variable's value, in order. What is no
/// number counts as 0. Overflow where a sum or a product on the way is past the range.
pub fn bounded_sum(values: &Terms, row: &Row) -> Result<Rat, Overflow>
    ensures { result_ok result ≡ bounded_sum (giving (items values.now)) row.now }
{
    let constant = Rat::new(row.constant(), 1)?;
    summed(values, row.coeffs().as_slice(), &constant)
}

/// Whether the row compares so with 0, and no number overflows.
fn is_met(values: &Terms, row: &Row) -> bool
    ensures { result ≡ compares_so row.now.op (bounded_sum (giving (items values.now)) row.now) }
{
    match bounded_sum(values, row) {
        Ok(sum) => row.op().compares(sum.num()),
        Err(_) => false,
    }
}

/// Whether the terms are equal under the values.
fn are_equal(alloc: Global, values: &Terms, left: &Term, right: &Term) -> Result<bool, Memory>
    ensures { IfOk result (λ answer. answer ≡ same_tm (under (giving (items values.now)) (tm_of left.now)) (under (giving (items values.now)) (tm_of right.now))) }
{
    let left = instance(alloc, left, values)?;
    let right = instance(alloc, right, values)?;
    same(alloc, &left, &right)
}

/// Whether the constraint holds under the values, by arithmetic in range.
fn holds_bounded(alloc: Global, values: &Terms, con: &Con) -> Result<bool, Memory>
    ensures { IfOk result (λ answer. answer ≡ holds_bounded (giving (items values.now)) con.now) }
{
    match con {
        Con::Eq(left, right) => are_equal(alloc, values, left, right),
        Con::Neq(left, right) => Ok(!are_equal(alloc, values, left, right)?),
        Con::NotShape(x, name, arity) => Ok(!has_shape(values, *x, *name, *arity)),
        Con::Num(term) => Ok(is_number(values, term)),
        Con::NotNum(term) => Ok(!is_number(values, term)),
        Con::Row(row) => Ok(is_met(values, row)),
    }
}

/// Whether each constraint holds under the values, by arithmetic in range.
fn meets_all(alloc: Global, values: &Terms, cons: &Cons) -> Result<bool, Memory>
    ensures { IfOk result (λ answer. answer ≡ list_all (holds_bounded (giving (items values.now))) cons.now) }
{
    for con in cons.as_slice() {
        if !holds_bounded(alloc, values, con)? {
            return Ok(false);
        }
    }
    Ok(true)
}

/// Tests that the sample is ground and meets what is given, by arithmetic in the range of the numbers.
pub fn accept_sample(alloc: Global, cert: &Cert) -> Result<(), CheckErr>
    ensures { Judges result (sample_faults (certificate_of cert.now)) }
{
    let is_met = are_ground(alloc, &cert.sample)? && meets_all(alloc, &cert.sample, &cert.given)?;
    want(0, Reason::Sample, is_met)
}
