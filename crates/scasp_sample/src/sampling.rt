//! Values for the free variables of a certificate.
ghost use Rattle.std.specs.List.{list_all};
ghost use Rattle.std.specs.Prelude.{◌≡◌, ◌++◌, ◌∷◌, [], IfOk, OnOk};
ghost use Rattle.scasp_sample.specs.Inside.Values.{is_one_of, name_behind, value_at};
ghost use Rattle.scasp_sample.specs.Sampling.{evaluated, is_in_range, point_for, sample, values_from};
ghost use Rattle.scasp_num.specs.Linear.{Gives};
ghost use Rattle.scasp_rows.specs.Samples.{value_in, zero_number};
ghost use Rattle.scasp_syntax.specs.Tm.{items};
ghost use Rattle.scasp_syntax.specs.Values.{giving};
ghost use Rattle.scasp_unify.specs.ResolvedLists.{ResolvesList};

use crate::differing::all_differ;
use crate::plain::all_plain;
use scasp_checker_answer::bounded_sum;
use scasp_list::Memory;
use scasp_name::NameId;
use scasp_num::{Rat, RatPair, RowErr};
use scasp_rows::{LinErr, Point};
use scasp_syntax::{Con, Term, Terms};
use scasp_unify::{Resolver, resolver_of};
use std::alloc::Global;

/// The point that meets the rows and the disequations between numbers; no value where there is none.
fn point_for(alloc: Global, given: &[Con], resolver: &Resolver) -> Result<Point, RowErr>
    requires { ResolvesList resolver.now given.now }
    ensures { Gives result (point_for given.now) }
{
    let rows = all_plain(alloc, given, resolver.bindings.as_slice())?;
    let differ = all_differ(alloc, given, resolver)?;
    match scasp_rows::sample(alloc, &rows, &differ) {
        Ok(Some(point)) => Ok(point),
        Ok(None) => Ok(Point::new(alloc)),
        Err(LinErr::Overflow) => Err(RowErr::Overflow),
        Err(LinErr::Memory) => Err(RowErr::Memory),
    }
}

fn zero() -> Rat
    ensures { result ≡ zero_number }
{
    match Rat::new(0, 1) {
        Ok(zero) => zero,
        Err(_) => unreachable!(),
    }
}

/// The value of the variable in the list; 0 where it has none.
fn value_in(point: &[RatPair], x: u64) -> Rat
    ensures { result ≡ value_in point.now x }
{
    for pair in point {
        if pair.x == x {
            return pair.value;
        }
    }
    zero()
}

/// Puts the value of the variable at the end: its number, or the name. Gives the first name that is left.
fn push_value(
    alloc: Global,
    numbers: &[u64],
    point: &[RatPair],
    name: u64,
    x: u64,
    made: &mut Terms,
) -> Result<u64, Memory>
    ensures made { OnOk result (items made.new ≡ items made.old ++ value_at (is_one_of numbers.now x) point.now name x ∷ []) }
    ensures name { IfOk result (λ next. next ≡ name_behind (is_one_of numbers.now x) name) }
{
    if numbers.contains(&x) {
        made.push(Term::Num(value_in(point, x)))?;
        return Ok(name);
    }
    made.push(Term::App(NameId::new(name), Terms::new(alloc)))?;
    name.checked_add(1).ok_or(Memory)
}

/// Values for so many variables, of which these are numbers; the names start with `fresh`.
fn values(
    alloc: Global,
    numbers: &[u64],
    point: &[RatPair],
    fresh: u64,
    count: u64,
) -> Result<Terms, Memory>
    ensures { IfOk result (λ made. made ≡ values_from (is_one_of numbers.now) point.now fresh 0 count) }
{
    let mut made = Terms::new(alloc);
    let mut name = fresh;
    for x in 0..count {
        name = push_value(alloc, numbers, point, name, x, &mut made)?;
    }
    Ok(made)
}

/// Whether the value of a row is in the range, and each sum on the way to it; no other constraint has a value.
fn is_in_range(values: &Terms, constraint: &Con) -> bool
    ensures { result ≡ is_in_range (giving (items values.now)) constraint.now }
{
    match constraint {
        Con::Row(row) => bounded_sum(values, row).is_ok(),
        Con::Eq(_, _) | Con::Neq(_, _) | Con::NotShape(_, _, _) | Con::Num(_) | Con::NotNum(_) => {
            true
        }
    }
}

/// Whether each row has its value in the range.
fn are_in_range(values: &Terms, given: &[Con]) -> bool
    ensures { result ≡ list_all (is_in_range (giving (items values.now))) given.now }
{
    for constraint in given {
        if !is_in_range(values, constraint) {
            return false;
        }
    }
    true
}

/// The values, where each row can be evaluated at them.
fn evaluated(values: Terms, given: &[Con]) -> Result<Terms, RowErr>
    ensures { Gives result (evaluated given.now values) }
{
    if are_in_range(&values, given) {
        Ok(values)
    } else {
        Err(RowErr::Overflow)
    }
}

/// Values for so many free variables that meet the given constraints: numbers by the sample of the rows, and for each other
/// variable a name of its own, from `fresh` on. Overflow exactly where the arithmetic of the sample overflows, or where that
/// of a given row at these values does.
pub fn sample(alloc: Global, fresh: u64, given: &[Con], count: u64) -> Result<Terms, RowErr>
    ensures { Gives result (sample fresh given.now count) }
{
    let resolver = resolver_of(alloc, given)?;
    let point = point_for(alloc, given, &resolver)?;
    let numbers = resolver.numbers.as_slice();
    let values = values(alloc, numbers, point.as_slice(), fresh, count)?;
    evaluated(values, given)
}
