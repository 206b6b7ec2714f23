//! The first hint that shows that a list of constraints has no valuation.
ghost use Rattle.std.specs.Prelude.{◌≡◌, ◌≢◌, ◌-◌, ◌++◌, ◌∷◌, [], None, true, length, take, IfNone, IfOk, IfSome, OnOk};
ghost use Rattle.scasp_hint.specs.AskedRows.{RowsNormal};
ghost use Rattle.scasp_hint.specs.Finding.{Found, first_forced, found, found_rows, overflows_in, sides_asked};
ghost use Rattle.scasp_hint.specs.Satisfying.{sat};
ghost use Rattle.scasp_hint.specs.Showing.{HintInRange, fault_of};
ghost use Rattle.scasp_hint.specs.Verdicts.{ArePlain, Finds, Forces};
ghost use Rattle.scasp_list.specs.Each.{Each};
ghost use Rattle.scasp_num.specs.declared.linear.Op.TheVariants as op;
ghost use Rattle.scasp_rows.specs.Elimination.{elimination};
ghost use Rattle.scasp_rows.specs.Points.{NoDisequation};
ghost use Rattle.scasp_rows.specs.Verdicts.{Says, verdict_of};
ghost use Rattle.scasp_syntax.specs.Constraints.{Sat};
ghost use Rattle.scasp_syntax.specs.declared.hint.Hint.{Hint as ThisHint};
ghost use Rattle.scasp_unify.specs.ResolvedLists.{ResolvesList};
ghost use Rattle.scasp_unify.specs.Sorted.{Sorted};

use crate::asked::{Asked, ask, read_rows};
use crate::sides::{Sides, differs};
use scasp_list::Memory;
use scasp_num::{Row, Rows, StepLists};
use scasp_rows::{LinErr, Verdict, eliminate};
use scasp_syntax::{Con, Hint};
use scasp_unify::{Resolver, resolver_of};
use std::alloc::Global;
use std::mem;

/// Puts a copy of the row behind the others.
fn push_copy(rows: &mut Rows, row: &Row) -> Result<(), Memory>
    ensures { OnOk result (rows.new ≡ rows.old ++ row.now ∷ []) }
{
    rows.push(row.clone()?)?;
    Ok(())
}

/// Takes the last row away.
fn remove_last(alloc: Global, rows: &mut Rows)
    ensures { rows.new ≡ take (length rows.old - 1) rows.old }
{
    let mut all = mem::replace(rows, Rows::new(alloc)).into_vec();
    let _last = all.pop();
    *rows = Rows::from(all);
}

/// What is said of the rows with one side, which is taken away again.
fn verdict_with(alloc: Global, rows: &mut Rows, side: &Row) -> Result<Verdict, LinErr>
    requires rows { NoDisequation rows.old }
    requires side { side.now.op ≢ op.Ne }
    ensures verdict { Says result (verdict_of (rows.old ++ side.now ∷ [])) }
    ensures kept { OnOk result (rows.new ≡ rows.old) }
{
    if push_copy(rows, side).is_err() {
        return Err(LinErr::Memory);
    }
    let verdict = eliminate(alloc, rows)?;
    remove_last(alloc, rows);
    Ok(verdict)
}

/// The lists of steps by which each side of a disequation is shown false together with the rows; None where one of them
/// is met.
fn sides_asked(alloc: Global, rows: &mut Rows, sides: &[Row]) -> Result<Option<StepLists>, LinErr>
    requires rows { NoDisequation rows.old }
    requires sides { NoDisequation sides.now }
    ensures forces { Forces result (sides_asked rows.old sides.now) }
    ensures kept { OnOk result (rows.new ≡ rows.old) }
{
    let mut lists = StepLists::new(alloc);
    for side in sides {
        match verdict_with(alloc, rows, side)? {
            Verdict::Sat => return Ok(None),
            Verdict::Unsat(steps) => {
                if lists.push(steps).is_err() {
                    return Err(LinErr::Memory);
                }
            }
        }
    }
    Ok(Some(lists))
}

/// The first of the disequations of which every side is shown false together with the rows.
fn first_forced(
    alloc: Global,
    rows: &mut Rows,
    disequations: &[Sides],
) -> Result<Option<Hint>, LinErr>
    requires rows { NoDisequation rows.old }
    requires sides { Each ArePlain disequations.now }
    ensures { Finds result (first_forced rows.old 1 disequations.now) }
{
    for (place, sides) in disequations.iter().enumerate() {
        match sides {
            Sides::Mixed => {}
            Sides::Large => return Err(LinErr::Overflow),
            Sides::Listed(all) => {
                if let Some(lists) = sides_asked(alloc, rows, all.as_slice())? {
                    return Ok(Some(Hint::Same(place as u64 + 1, lists)));
                }
            }
        }
    }
    Ok(None)
}

/// The first hint of a list of which these rows are asked.
fn found_by_rows(
    alloc: Global,
    constraints: &[Con],
    resolver: &Resolver,
    asked: Rows,
) -> Result<Option<Hint>, LinErr>
    requires resolver { ResolvesList resolver.now constraints.now }
    requires rows { NoDisequation asked }
    ensures { Finds result (found_rows constraints.now asked (elimination asked)) }
{
    let mut rows = asked;
    match eliminate(alloc, &rows)? {
        Verdict::Unsat(steps) => Ok(Some(Hint::Rows(steps))),
        Verdict::Sat => match differs(alloc, constraints, resolver) {
            Ok(all) => first_forced(alloc, &mut rows, all.as_slice()),
            Err(_) => Err(LinErr::Memory),
        },
    }
}

/// The first hint of a list with this resolver.
fn found_by(alloc: Global, constraints: &[Con], resolver: &Resolver) -> Result<Option<Hint>, LinErr>
    requires { ResolvesList resolver.now constraints.now }
    ensures { Finds result (found constraints.now) }
{
    match ask(alloc, constraints, resolver) {
        Ok(Asked::ByTerms) => Ok(Some(Hint::Terms)),
        Ok(Asked::Overflows) => Err(LinErr::Overflow),
        Ok(Asked::Asks(rows)) => found_by_rows(alloc, constraints, resolver, rows),
        Err(_) => Err(LinErr::Memory),
    }
}

/// A hint that shows that the list, sorted or not, has no valuation, `Terms` where that shows it; None where no hint
/// does, and then a sorted list has a valuation. Overflow only where a row of the list, or rows that are asked for it,
/// overflow.
pub fn find(alloc: Global, constraints: &[Con]) -> Result<Option<Hint>, LinErr>
    ensures exact { Finds result (found constraints.now) }
    ensures hint { IfOk result (λ answer. IfSome answer (λ hint. fault_of constraints.now hint ≡ None)) }
    ensures multipliers { IfOk result (λ answer. IfSome answer HintInRange) }
    ensures none { IfOk result (λ answer. IfNone answer ((hint : ThisHint) → fault_of constraints.now hint ≢ None)) }
    ensures sorted { IfOk result (λ answer. IfNone answer (Sorted constraints.now → Sat constraints.now)) }
    ensures overflow { result ≡ Err LinErr.Overflow → overflows_in constraints.now ≡ true }
{
    read_rows(constraints);
    match resolver_of(alloc, constraints) {
        Ok(resolver) => found_by(alloc, constraints, &resolver),
        Err(_) => Err(LinErr::Memory),
    }
}

/// Whether the list passes the test, as a sorted list does exactly where it has a valuation. Overflow only where a row of
/// the list, or rows that are asked for it, overflow.
pub fn is_satisfiable(alloc: Global, constraints: &[Con]) -> Result<bool, LinErr>
    ensures value { IfOk result (λ passes. passes ≡ sat constraints.now) }
    ensures overflow { result ≡ Err LinErr.Overflow → overflows_in constraints.now ≡ true }
{
    read_rows(constraints);
    let answer = find(alloc, constraints)?;
    Ok(answer.is_none())
}
