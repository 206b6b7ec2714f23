//! The disequations of a list of constraints, and the rows of their sides.
ghost use Rattle.std.specs.Prelude.{◌≡◌, [], ◌∷◌, List, IfOk, map, option_to_list};
ghost use Rattle.scasp_hint.specs.Sides.{above, below, con_sides, differs, less, minus_one, more, one, parted, parts_sides, row_sides, two_sides};
ghost use Rattle.scasp_hint.specs.Verdicts.{AddsSides, left_above, left_below};
ghost use Rattle.scasp_num.specs.Linear.{Gives};
ghost use Rattle.scasp_num.specs.Number.{zero_number};
ghost use Rattle.scasp_syntax.specs.Values.{under};
ghost use Rattle.scasp_syntax.specs.View.{tm_of};
ghost use Rattle.scasp_syntax.specs.declared.con.Con.{Con as ThisCon};
ghost use Rattle.scasp_unify.specs.Parts.{parts};
ghost use Rattle.scasp_unify.specs.ResolvedLists.{ResolvesList};
ghost use Rattle.scasp_unify.specs.ResolvedRows.{resolved_row};
ghost use Rattle.scasp_unify.specs.Resolver.{resolver as resolved};
ghost use Rattle.scasp_unify.specs.Solving.{part_of, sub_of};

use scasp_list::Memory;
use scasp_num::{Op, Rat, RatPair, RatPairs, Row, RowErr, Rows};
use scasp_syntax::{Con, Term};
use scasp_unify::{Binding, Part, Resolver, are_among_numbers, resolved_row, resolved_sides};
use std::alloc::Global;

/// What a disequation is, resolved.
#[derive(Debug, Drop)]
pub enum Sides {
    /// It has a part that is not between two numbers.
    Mixed,
    /// A row of it is too large.
    Large,
    /// It holds where one of these rows does.
    Listed(Rows),
}

fn zero() -> Rat
    ensures { result ≡ zero_number }
{
    match Rat::new(0, 1) {
        Ok(zero) => zero,
        Err(_) => unreachable!(),
    }
}

fn one() -> Rat
    ensures { result ≡ one }
{
    match Rat::new(1, 1) {
        Ok(one) => one,
        Err(_) => unreachable!(),
    }
}

fn minus_one() -> Rat
    ensures { result ≡ minus_one }
{
    match Rat::new(-1, 1) {
        Ok(minus_one) => minus_one,
        Err(_) => unreachable!(),
    }
}

/// The row that says that `x` is below the term. Overflow where it is too large, or the term is a compound one.
fn less(alloc: Global, x: u64, term: &Term) -> Result<Row, RowErr>
    ensures { Gives result (less x (tm_of term.now)) }
{
    let mut pairs = RatPairs::new(alloc);
    pairs.push(RatPair { x, value: one() })?;
    match term {
        Term::Var(y) => {
            pairs.push(RatPair {
                x: *y,
                value: minus_one(),
            })?;
            Row::normal(alloc, &pairs, &zero(), Op::Lt)
        }
        Term::Num(value) => Row::normal(alloc, &pairs, &value.neg(), Op::Lt),
        Term::App(_, _) => Err(RowErr::Overflow),
    }
}

/// The row that says that `x` is above the term. Overflow where it is too large, or the term is a compound one.
fn more(alloc: Global, x: u64, term: &Term) -> Result<Row, RowErr>
    ensures { Gives result (more x (tm_of term.now)) }
{
    let mut pairs = RatPairs::new(alloc);
    pairs.push(RatPair {
        x,
        value: minus_one(),
    })?;
    match term {
        Term::Var(y) => {
            pairs.push(RatPair {
                x: *y,
                value: one(),
            })?;
            Row::normal(alloc, &pairs, &zero(), Op::Lt)
        }
        Term::Num(value) => Row::normal(alloc, &pairs, value, Op::Lt),
        Term::App(_, _) => Err(RowErr::Overflow),
    }
}

/// The row that says that the left side of the part is below the right one.
fn left_below(alloc: Global, part: &Part) -> Result<Row, RowErr>
    ensures { Gives result (left_below (part_of part.now)) }
{
    if part.turned {
        more(alloc, part.at, &part.term)
    } else {
        less(alloc, part.at, &part.term)
    }
}

/// The row that says that the left side of the part is above the right one.
fn left_above(alloc: Global, part: &Part) -> Result<Row, RowErr>
    ensures { Gives result (left_above (part_of part.now)) }
{
    if part.turned {
        less(alloc, part.at, &part.term)
    } else {
        more(alloc, part.at, &part.term)
    }
}

/// Puts the two rows of the part behind the others.
fn push_part(alloc: Global, part: &Part, rows: &mut Rows) -> Result<(), RowErr>
    ensures { AddsSides rows.old rows.new result (two_sides (left_below (part_of part.now)) (left_above (part_of part.now)) (Some [])) }
{
    rows.push(left_below(alloc, part)?)?;
    rows.push(left_above(alloc, part)?)?;
    Ok(())
}

/// Of each part, that its left side is below the right one, and that it is above.
fn parts_sides(alloc: Global, parts: &[Part]) -> Result<Rows, RowErr>
    ensures { Gives result (parts_sides (map part_of parts.now)) }
{
    let mut rows = Rows::new(alloc);
    for part in parts {
        push_part(alloc, part, &mut rows)?;
    }
    Ok(rows)
}

/// What a disequation between these parts is.
fn parted(alloc: Global, parts: &[Part], resolver: &Resolver) -> Result<Sides, Memory>
    ensures { IfOk result (λ made. (cs : List ThisCon) → ResolvesList resolver.now cs → made ∷ [] ≡ parted cs (Some (map part_of parts.now))) }
{
    if are_among_numbers(parts, resolver) {
        match parts_sides(alloc, parts) {
            Ok(rows) => Ok(Sides::Listed(rows)),
            Err(RowErr::Overflow) => Ok(Sides::Large),
            Err(RowErr::Memory) => Err(Memory),
        }
    } else {
        Ok(Sides::Mixed)
    }
}

/// What a disequation of two terms is; nothing where it is true by itself.
fn term_sides(
    alloc: Global,
    left: &Term,
    right: &Term,
    resolver: &Resolver,
) -> Result<Option<Sides>, Memory>
    ensures { IfOk result (λ made. (cs : List ThisCon) → ResolvesList resolver.now cs
        → option_to_list made ≡ parted cs (parts (under (resolved cs) (tm_of left.now)) (under (resolved cs) (tm_of right.now)))) }
{
    match resolved_sides(alloc, left, right, resolver.bindings.as_slice())? {
        None => Ok(None),
        Some(parts) => Ok(Some(parted(alloc, parts.as_slice(), resolver)?)),
    }
}

/// The two rows that say that the sum of a row is below 0, and above 0.
fn both_sides(alloc: Global, row: &Row) -> Result<Rows, Memory>
    ensures { IfOk result (λ rows. rows ≡ below row.now ∷ above row.now ∷ []) }
{
    let mut rows = Rows::new(alloc);
    rows.push(row.compared(Op::Lt)?)?;
    rows.push(row.compared(Op::Le)?.negate()?)?;
    Ok(rows)
}

/// What a row is as a disequation; nothing where it is none.
fn row_sides(alloc: Global, row: &Row, bindings: &[Binding]) -> Result<Option<Sides>, Memory>
    ensures { IfOk result (λ made. option_to_list made ≡ row_sides row.now.op (resolved_row (sub_of bindings.now) row.now)) }
{
    match row.op() {
        Op::Eq | Op::Lt | Op::Le => Ok(None),
        Op::Ne => match resolved_row(alloc, row, bindings) {
            Ok(resolved) => Ok(Some(Sides::Listed(both_sides(alloc, &resolved)?))),
            Err(RowErr::Overflow) => Ok(Some(Sides::Large)),
            Err(RowErr::Memory) => Err(Memory),
        },
    }
}

/// What the constraint is as a disequation; nothing where it is none, or is true by itself.
fn con_sides(alloc: Global, constraint: &Con, resolver: &Resolver) -> Result<Option<Sides>, Memory>
    ensures { IfOk result (λ made. (cs : List ThisCon) → ResolvesList resolver.now cs → option_to_list made ≡ con_sides cs constraint.now) }
{
    match constraint {
        Con::Neq(left, right) => term_sides(alloc, left, right, resolver),
        Con::Row(row) => row_sides(alloc, row, resolver.bindings.as_slice()),
        Con::Eq(_, _) | Con::NotShape(_, _, _) | Con::Num(_) | Con::NotNum(_) => Ok(None),
    }
}

/// The disequations of the list that are not true by themselves, in order.
pub(crate) fn differs(
    alloc: Global,
    constraints: &[Con],
    resolver: &Resolver,
) -> Result<Vec<Sides>, Memory>
    requires { ResolvesList resolver.now constraints.now }
    ensures { IfOk result (λ all. all.items ≡ differs constraints.now) }
{
    let mut all = Vec::new(alloc);
    for constraint in constraints {
        if let Some(sides) = con_sides(alloc, constraint, resolver)? {
            all.push(sides)?;
        }
    }
    Ok(all)
}
