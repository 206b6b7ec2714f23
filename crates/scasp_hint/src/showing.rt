//! Whether a hint shows that a list of constraints has no valuation.
ghost use Rattle.std.specs.Prelude.{◌≡◌, ◌++◌, ◌∷◌, [], false, length, take, IfOk, OnOk, option_copied};
ghost use Rattle.scasp_hint.specs.AskedRows.{RowsNormal, asked, given_rows, inequalities, resolved_each};
ghost use Rattle.scasp_hint.specs.Showing.{fault_of, row_added, run, run_sides, side_fault, side_numbered, terms_fault};
ghost use Rattle.scasp_hint.specs.Sides.{differs};
ghost use Rattle.scasp_hint.specs.Verdicts.{Judges, Makes};
ghost use Rattle.scasp_num.specs.Linear.{Gives};
ghost use Rattle.scasp_rows.specs.Steps.{row_numbered};
ghost use Rattle.scasp_syntax.specs.Constraints.{Sat};
ghost use Rattle.scasp_syntax.specs.declared.hint.Hint.TheVariants as hints;
ghost use Rattle.scasp_unify.specs.ResolvedLists.{ResolvesList};

use crate::asked::{Asked, ask, inequalities, read_rows};
use crate::fault::{HintErr, HintFault};
use crate::sides::{Sides, differs};
use scasp_num::{Row, Step, StepLists, Steps};
use scasp_rows::{is_false, step};
use scasp_syntax::{Con, Hint};
use scasp_unify::{Resolver, resolver_of};
use std::alloc::Global;

/// The row with this number, counted from 1.
fn row_numbered(rows: &[Row], number: u64) -> Option<&Row>
    ensures { option_copied result ≡ row_numbered rows.now number }
{
    if number == 0 {
        return None;
    }
    rows.get((number - 1) as usize)
}

/// The row that a step adds to the rows.
fn row_added(alloc: Global, rows: &[Row], added: &Step) -> Result<Row, HintErr>
    ensures { Makes result (row_added rows.now added.now) }
{
    let Some(first) = row_numbered(rows, added.p) else {
        return Err(HintErr::Fault(HintFault::Step));
    };
    let Some(second) = row_numbered(rows, added.q) else {
        return Err(HintErr::Fault(HintFault::Step));
    };
    let row = step(alloc, added.a, first, added.b, second)?;
    Ok(row)
}

/// Runs every step over the rows, behind which it puts the row that each step adds. One of these is to be a false
/// constant row.
fn run(alloc: Global, rows: &mut Vec<Row>, steps: &[Step]) -> Result<(), HintErr>
    ensures fault { Judges result (run rows.old.items steps.now false) }
    ensures kept { take (length rows.old.items) rows.new.items ≡ rows.old.items }
{
    let mut is_reached = false;
    for added in steps {
        let row = row_added(alloc, rows.as_slice(), added)?;
        is_reached = is_reached || is_false(&row);
        rows.push(row)?;
    }
    if is_reached {
        Ok(())
    } else {
        Err(HintErr::Fault(HintFault::NotReached))
    }
}

/// Runs the steps over the rows with one side, which is taken away again.
fn run_side(alloc: Global, rows: &mut Vec<Row>, side: &Row, steps: &[Step]) -> Result<(), HintErr>
    ensures fault { Judges result (run (rows.old.items ++ side.now ∷ []) steps.now false) }
    ensures kept { OnOk result (rows.new.items ≡ rows.old.items) }
{
    let count = rows.len();
    rows.push(side.clone()?)?;
    run(alloc, rows, steps)?;
    rows.truncate(count);
    Ok(())
}

/// Runs over the rows with each side its list of steps.
fn run_sides(
    alloc: Global,
    rows: &mut Vec<Row>,
    sides: &[Row],
    lists: &[Steps],
) -> Result<(), HintErr>
    requires { length lists.now ≡ length sides.now }
    ensures { Judges result (run_sides rows.old.items sides.now lists.now) }
{
    for (place, side) in sides.iter().enumerate() {
        run_side(alloc, rows, side, lists[place].as_slice())?;
    }
    Ok(())
}

/// Shows the disequation of this number by a list of steps for each of its sides.
fn show_disequation(
    alloc: Global,
    rows: &mut Vec<Row>,
    sides: Option<&Sides>,
    lists: &[Steps],
) -> Result<(), HintErr>
    ensures { Judges result (side_fault rows.old.items lists.now (option_copied sides.entry)) }
{
    match sides {
        None | Some(Sides::Mixed) => Err(HintErr::Fault(HintFault::Step)),
        Some(Sides::Large) => {
            if lists.len() == 2 {
                Err(HintErr::Fault(HintFault::Overflow))
            } else {
                Err(HintErr::Fault(HintFault::Step))
            }
        }
        Some(Sides::Listed(all)) => {
            if lists.len() != all.len() {
                return Err(HintErr::Fault(HintFault::Step));
            }
            run_sides(alloc, rows, all.as_slice(), lists)
        }
    }
}

/// The disequation with this number, counted from 1.
fn side_numbered(all: &[Sides], number: u64) -> Option<&Sides>
    ensures { option_copied result ≡ side_numbered all.now number }
{
    if number == 0 {
        return None;
    }
    all.get((number - 1) as usize)
}

/// Shows the list by its terms and single rows.
fn show_by_terms(alloc: Global, constraints: &[Con], resolver: &Resolver) -> Result<(), HintErr>
    requires { ResolvesList resolver.now constraints.now }
    ensures { Judges result (fault_of constraints.now hints.Terms) }
{
    match ask(alloc, constraints, resolver)? {
        Asked::ByTerms => Ok(()),
        Asked::Overflows => Err(HintErr::Fault(HintFault::Overflow)),
        Asked::Asks(_) => Err(HintErr::Fault(HintFault::NotReached)),
    }
}

/// Shows the list by steps over its rows.
fn show_by_rows(
    alloc: Global,
    constraints: &[Con],
    resolver: &Resolver,
    steps: &Steps,
) -> Result<(), HintErr>
    requires { ResolvesList resolver.now constraints.now }
    ensures { Judges result (fault_of constraints.now (hints.Rows steps.now)) }
{
    let mut rows = inequalities(alloc, constraints, resolver.bindings.as_slice())?.into_vec();
    run(alloc, &mut rows, steps.as_slice())
}

/// Shows the list by steps for each side of its disequation with this number.
fn show_by_disequation(
    alloc: Global,
    constraints: &[Con],
    resolver: &Resolver,
    number: u64,
    lists: &StepLists,
) -> Result<(), HintErr>
    requires { ResolvesList resolver.now constraints.now }
    ensures { Judges result (fault_of constraints.now (hints.Same number lists.now)) }
{
    let mut rows = inequalities(alloc, constraints, resolver.bindings.as_slice())?.into_vec();
    let all = differs(alloc, constraints, resolver)?;
    show_disequation(
        alloc,
        &mut rows,
        side_numbered(all.as_slice(), number),
        lists.as_slice(),
    )
}

/// Shows the list by the hint.
fn show(alloc: Global, constraints: &[Con], resolver: &Resolver, hint: &Hint) -> Result<(), HintErr>
    requires { ResolvesList resolver.now constraints.now }
    ensures { Judges result (fault_of constraints.now hint.now) }
{
    match hint {
        Hint::Terms => show_by_terms(alloc, constraints, resolver),
        Hint::Rows(steps) => show_by_rows(alloc, constraints, resolver, steps),
        Hint::Same(number, lists) => {
            show_by_disequation(alloc, constraints, resolver, *number, lists)
        }
    }
}

/// Whether the hint shows that the list, sorted or not, has no valuation: Ok exactly where it has no fault, else the
/// first fault of the hint.
pub fn unsat(alloc: Global, constraints: &[Con], hint: &Hint) -> Result<(), HintErr>
    ensures exact { Judges result (fault_of constraints.now hint.now) }
    ensures shown { OnOk result (¬ Sat constraints.now) }
{
    read_rows(constraints);
    let resolver = resolver_of(alloc, constraints)?;
    show(alloc, constraints, &resolver, hint)
}
