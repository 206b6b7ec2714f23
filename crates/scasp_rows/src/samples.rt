//! Points that meet rows and disequations.
ghost use Rattle.std.specs.Prelude.{◌≡◌, ◌↔◌, [], ◌∷◌, ◌++◌, IfOk, IfNone, IfSome, IsTrue, OnOk};
ghost use Rattle.scasp_list.specs.Each.{Each};
ghost use Rattle.scasp_num.specs.Linear.{Gives, IsNormal};
ghost use Rattle.scasp_rows.specs.Elimination.{Ends};
ghost use Rattle.scasp_rows.specs.Points.{NoDisequation, RationalPoint};
ghost use Rattle.scasp_rows.specs.Inside.Sampled.{Samples, sample_answer};
ghost use Rattle.scasp_rows.specs.Samples.{alternatives, first_met, first_of, found, if_some, point_of, sample_of, strict, with_all, MeetsBoth, OnlyDisequations, value_in};

use crate::backward::values_from;
use crate::elimination::{all_looked, elimination, variables};
use crate::state::{Halt, State};
use crate::steps::{push_times, whole_product};
use crate::verdict::LinErr;
use scasp_list::{Memory, Sequence};
use scasp_num::{Op, RatPairs, Row, RowErr, Rows};
use std::alloc::Global;

/// Values of variables.
pub type Point = RatPairs;

/// A list of lists of rows.
pub type RowLists = Sequence<Rows>;

/// The row that says that `a` times the sum of `r` is below 0.
#[tactic(auto, using(scasp_num::proofs::Numbers::plain), unfolding(crate::specs::Samples::strict))]
fn strict(alloc: Global, a: i128, r: &Row) -> Result<Row, RowErr>
    ensures { Gives result (strict a r.now) }
{
    let mut terms = RatPairs::new(alloc);
    push_times(&mut terms, a, r.coeffs().as_slice())?;
    let constant = whole_product(a, r.constant())?;
    let row = Row::normal(alloc, &terms, &constant, Op::Lt)?;
    Ok(row)
}

/// Puts each part below 0 and above 0 behind the rows.
fn alternatives(alloc: Global, parts: &[Row]) -> Result<Rows, RowErr>
    ensures { Gives result (alternatives parts.now) }
{
    let mut all = Rows::new(alloc);
    for r in parts {
        let below = strict(alloc, 1, r)?;
        let above = strict(alloc, -1, r)?;
        all.push(below)?;
        all.push(above)?;
    }
    Ok(all)
}

/// A copy of a row.
fn copy(row: &Row) -> Result<Row, Memory>
    ensures value { IfOk result (λ copy. copy ≡ row.now) }
    ensures normal { OnOk result (IsNormal row.now) }
{
    // What is read of a row tells that it is in normal form.
    let _op = row.op();
    Ok(row.clone()?)
}

/// A copy of the rows.
fn copies(alloc: Global, rows: &[Row]) -> Result<Rows, Memory>
    ensures value { IfOk result (λ all. all ≡ rows.now) }
    ensures normal { OnOk result (Each IsNormal rows.now) }
{
    let mut all = Rows::new(alloc);
    for r in rows {
        all.push(copy(r)?)?;
    }
    Ok(all)
}

/// The rows with one more.
fn with_row(alloc: Global, rows: &[Row], row: &Row) -> Result<Rows, Memory>
    ensures { IfOk result (λ all. all ≡ rows.now ++ row.now ∷ []) }
{
    let mut all = copies(alloc, rows)?;
    all.push(copy(row)?)?;
    Ok(all)
}

/// The rows with the first of the alternatives that has a solution with them.
fn first_met(alloc: Global, rows: &[Row], alternatives: &[Row]) -> Result<Option<Rows>, Halt>
    ensures { Ends result (first_met rows.now alternatives.now) }
{
    for a in alternatives {
        let tried = with_row(alloc, rows, a)?;
        match elimination(alloc, tried.as_slice()) {
            Ok(_) => return Ok(Some(tried)),
            Err(Halt::Unsat(_)) => {}
            Err(Halt::Overflow) => return Err(Halt::Overflow),
            Err(Halt::Memory) => return Err(Halt::Memory),
        }
    }
    Ok(None)
}

/// The rows with the first part of a disequation, below 0 or above 0, that has a solution with them.
fn first_of(alloc: Global, rows: &[Row], parts: &[Row]) -> Result<Option<Rows>, Halt>
    ensures { Ends result (first_of rows.now (alternatives parts.now)) }
{
    let all = alternatives(alloc, parts)?;
    first_met(alloc, rows, all.as_slice())
}

/// The rows with what is chosen for each disequation, one by one.
fn with_all(alloc: Global, rows: &[Row], differ: &[Rows]) -> Result<Option<Rows>, Halt>
    ensures exact { Ends result (with_all rows.now differ.now) }
    ensures normal { OnOk result (Each IsNormal rows.now) }
{
    let mut all = copies(alloc, rows)?;
    for parts in differ {
        match first_of(alloc, all.as_slice(), parts.as_slice())? {
            None => return Ok(None),
            Some(more) => all = more,
        }
    }
    Ok(Some(all))
}

/// A point that meets all rows.
#[tactic(auto, unfolding(crate::specs::Samples::point_of))]
fn point_of(alloc: Global, rows: &[Row]) -> Result<RatPairs, Halt>
    ensures { Ends result (point_of rows.now) }
{
    let state = all_looked(alloc, rows)?;
    let variables = variables(alloc, rows)?;
    values_from(alloc, variables.as_slice(), state)
}

/// A point that meets all rows, if there is one.
fn found(alloc: Global, rows: &[Row]) -> Result<Option<RatPairs>, Halt>
    ensures { Ends result (found (point_of rows.now)) }
{
    match point_of(alloc, rows) {
        Ok(point) => Ok(Some(point)),
        Err(Halt::Unsat(_)) => Ok(None),
        Err(Halt::Overflow) => Err(Halt::Overflow),
        Err(Halt::Memory) => Err(Halt::Memory),
    }
}

/// A point that meets all rows and of each disequation some part, if there is one.
#[tactic(auto, unfolding(crate::specs::Samples::sample_of))]
fn sample_of(alloc: Global, rows: &[Row], differ: &[Rows]) -> Result<Option<RatPairs>, Halt>
    ensures exact { Ends result (sample_of rows.now differ.now) }
    ensures normal { OnOk result (Each IsNormal rows.now) }
{
    match with_all(alloc, rows, differ)? {
        None => Ok(None),
        Some(more) => found(alloc, more.as_slice()),
    }
}

/// A point that meets all rows, of which none may be a disequation, and of each disequation of `differ`, given
/// by its parts, some part; None exactly where there is none. The disequations are taken in order: for each,
/// the first part that has a solution, below 0 and then above 0, is added to the rows. Then the variables are
/// eliminated in ascending order, and take values in descending order: by the first equation with the
/// variable, or else the greatest lower bound where it equals the least upper bound, the middle of the two,
/// one above the only bound or one below it, or 0. Overflow exactly where an elimination overflows, or a
/// formula of these values on bounded rationals.
pub fn sample(alloc: Global, rows: &Rows, differ: &RowLists) -> Result<Option<Point>, LinErr>
    requires rows { NoDisequation rows.now }
    requires differ { Each OnlyDisequations differ.now }
    ensures exact { Samples result (sample_answer rows.now differ.now) }
    ensures met { IfOk result (λ answer. IfSome answer (λ point. MeetsBoth (value_in point) rows.now differ.now)) }
    ensures none { IfOk result (λ answer. IfNone answer ((v : RationalPoint) → ¬ MeetsBoth v rows.now differ.now)) }
{
    match sample_of(alloc, rows.as_slice(), differ.as_slice()) {
        Ok(point) => Ok(point),
        Err(Halt::Unsat(_)) => Ok(None),
        Err(Halt::Overflow) => Err(LinErr::Overflow),
        Err(Halt::Memory) => Err(LinErr::Memory),
    }
}

/// Whether all parts of the disequations are so, as `sample` needs.
pub fn are_disequations(differ: &RowLists) -> bool
    ensures { IsTrue result ↔ Each OnlyDisequations differ.now }
{
    for parts in differ.as_slice() {
        if !have_disequations(parts.as_slice()) {
            return false;
        }
    }
    true
}

/// Whether the rows are disequations alone.
fn have_disequations(parts: &[Row]) -> bool
    ensures { IsTrue result ↔ OnlyDisequations parts.now }
{
    for row in parts {
        if !row.op().is_disequation() {
            return false;
        }
    }
    true
}
