//! The disequations between numbers of a list of constraints, each as the list of its parts.
ghost use Rattle.std.specs.Prelude.{◌≡◌, List, Option, map};
ghost use Rattle.scasp_sample.specs.Inside.Lists.{AddsLists};
ghost use Rattle.scasp_sample.specs.Sampling.{all_differ, con_differ, part_apart, parts_apart, single, term_apart, variable_apart};
ghost use Rattle.scasp_hint.specs.Sides.{minus_one, one};
ghost use Rattle.scasp_num.specs.Linear.{Gives, Linear};
ghost use Rattle.scasp_num.specs.Number.{zero_number};
ghost use Rattle.scasp_syntax.specs.View.{tm_of};
ghost use Rattle.scasp_syntax.specs.declared.con.Con.{Con as ThisCon};
ghost use Rattle.scasp_unify.specs.ResolvedLists.{ResolvesList};
ghost use Rattle.scasp_unify.specs.ResolvedRows.{resolved_row};
ghost use Rattle.scasp_unify.specs.Resolver.{resolver as resolver_in};
ghost use Rattle.scasp_unify.specs.Solving.{part_of};

use scasp_num::{Op, Rat, RatPair, RatPairs, Row, RowErr, Rows};
use scasp_rows::RowLists;
use scasp_syntax::{Con, Term};
use scasp_unify::{Part, Resolver, are_among_numbers, resolved_row, resolved_sides};
use std::alloc::Global;

fn zero() -> Rat
    ensures { result ≡ zero_number }
{
    match Rat::new(0, 1) {
        Ok(zero) => zero,
        Err(_) => unreachable!(),
    }
}

fn one() -> Rat
    ensures { result ≡ one }
{
    match Rat::new(1, 1) {
        Ok(one) => one,
        Err(_) => unreachable!(),
    }
}

fn minus_one() -> Rat
    ensures { result ≡ minus_one }
{
    match Rat::new(-1, 1) {
        Ok(minus_one) => minus_one,
        Err(_) => unreachable!(),
    }
}

/// The row that says that the variable and the term are different. Overflow where it is too large, or the term has a name.
fn variable_apart(alloc: Global, x: u64, term: &Term) -> Result<Row, RowErr>
    ensures { Gives result (variable_apart x (tm_of term.now)) }
{
    let mut pairs = RatPairs::new(alloc);
    pairs.push(RatPair { x, value: one() })?;
    match term {
        Term::Var(y) => {
            let value = minus_one();
            pairs.push(RatPair { x: *y, value })?;
            Row::normal(alloc, &pairs, &zero(), Op::Ne)
        }
        Term::Num(value) => Row::normal(alloc, &pairs, &value.neg(), Op::Ne),
        Term::App(_, _) => Err(RowErr::Overflow),
    }
}

/// The same, where the term stands on the left.
fn term_apart(alloc: Global, x: u64, term: &Term) -> Result<Row, RowErr>
    ensures { Gives result (term_apart x (tm_of term.now)) }
{
    let mut pairs = RatPairs::new(alloc);
    let value = minus_one();
    pairs.push(RatPair { x, value })?;
    match term {
        Term::Var(y) => {
            let value = one();
            pairs.push(RatPair { x: *y, value })?;
            Row::normal(alloc, &pairs, &zero(), Op::Ne)
        }
        Term::Num(value) => Row::normal(alloc, &pairs, value, Op::Ne),
        Term::App(_, _) => Err(RowErr::Overflow),
    }
}

fn part_apart(alloc: Global, part: &Part) -> Result<Row, RowErr>
    ensures { Gives result (part_apart (part_of part.now)) }
{
    if part.turned {
        term_apart(alloc, part.at, &part.term)
    } else {
        variable_apart(alloc, part.at, &part.term)
    }
}

/// A row for each of the parts.
fn parts_apart(alloc: Global, parts: &[Part]) -> Result<Rows, RowErr>
    ensures { Gives result (parts_apart (map part_of parts.now)) }
{
    let mut rows = Rows::new(alloc);
    for part in parts {
        rows.push(part_apart(alloc, part)?)?;
    }
    Ok(rows)
}

/// Puts a list at the end, where there is one.
fn push_parts(parts: Result<Rows, RowErr>, made: &mut RowLists) -> Result<(), RowErr>
    ensures { (o : Option (List Linear)) → Gives parts o → AddsLists made.old made.new result (single o) }
{
    made.push(parts?)?;
    Ok(())
}

/// Puts the disequation of two terms at the end, where it is between numbers.
fn push_terms(
    alloc: Global,
    left: &Term,
    right: &Term,
    resolver: &Resolver,
    made: &mut RowLists,
) -> Result<(), RowErr>
    ensures { (cs : List ThisCon) → ResolvesList resolver.now cs → AddsLists made.old made.new result (con_differ cs (Con.Neq left.now right.now)) }
{
    match resolved_sides(alloc, left, right, resolver.bindings.as_slice())? {
        Some(parts) => {
            if are_among_numbers(parts.as_slice(), resolver) {
                push_parts(parts_apart(alloc, parts.as_slice()), made)
            } else {
                Ok(())
            }
        }
        None => Ok(()),
    }
}

fn one_row(alloc: Global, row: &Row, resolver: &Resolver) -> Result<Rows, RowErr>
    ensures { (cs : List ThisCon) → ResolvesList resolver.now cs → Gives result (single (resolved_row (resolver_in cs) row.now)) }
{
    let mut rows = Rows::new(alloc);
    rows.push(resolved_row(alloc, row, resolver.bindings.as_slice())?)?;
    Ok(rows)
}

/// Puts the row at the end, where it is a disequation.
fn push_row(
    alloc: Global,
    row: &Row,
    resolver: &Resolver,
    made: &mut RowLists,
) -> Result<(), RowErr>
    ensures { (cs : List ThisCon) → ResolvesList resolver.now cs → AddsLists made.old made.new result (con_differ cs (Con.Row row.now)) }
{
    match row.op() {
        Op::Eq | Op::Lt | Op::Le => Ok(()),
        Op::Ne => push_parts(one_row(alloc, row, resolver), made),
    }
}

fn push_con(
    alloc: Global,
    constraint: &Con,
    resolver: &Resolver,
    made: &mut RowLists,
) -> Result<(), RowErr>
    ensures { (cs : List ThisCon) → ResolvesList resolver.now cs → AddsLists made.old made.new result (con_differ cs constraint.now) }
{
    match constraint {
        Con::Neq(left, right) => push_terms(alloc, left, right, resolver, made),
        Con::Row(row) => push_row(alloc, row, resolver, made),
        Con::Eq(_, _) | Con::NotShape(_, _, _) | Con::Num(_) | Con::NotNum(_) => Ok(()),
    }
}

/// The disequations between numbers, in order.
pub(crate) fn all_differ(
    alloc: Global,
    constraints: &[Con],
    resolver: &Resolver,
) -> Result<RowLists, RowErr>
    requires { ResolvesList resolver.now constraints.now }
    ensures { Gives result (all_differ constraints.now constraints.now) }
{
    let mut made = RowLists::new(alloc);
    for constraint in constraints {
        push_con(alloc, constraint, resolver, &mut made)?;
    }
    Ok(made)
}
