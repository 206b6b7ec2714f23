//! The projection of a list of constraints.
ghost use Rattle.std.specs.Prelude.{◌≡◌, ◌↔◌, ◌++◌, [], ◌∷◌, IfOk, filter, option_copied, option_to_list};
ghost use Rattle.std.specs.List.{list_any};
ghost use Rattle.scasp_hint.specs.AskedRows.{RowsNormal, given_rows, inequalities};
ghost use Rattle.scasp_hint.specs.Finding.{found};
ghost use Rattle.scasp_list.specs.Each.{Each};
ghost use Rattle.scasp_num.specs.Linear.{Gives};
ghost use Rattle.scasp_num.specs.SameRow.{same_row};
ghost use Rattle.scasp_syntax.specs.Constraints.{Sat};
ghost use Rattle.scasp_syntax.specs.Values.{Valuation};
ghost use Rattle.scasp_syntax.specs.declared.con.Con.TheVariants as con;
ghost use Rattle.scasp_unify.specs.Sorted.{Sorted};
ghost use Rattle.scasp_project.specs.Meaning.{Extends, IfAlternatives, IsNoEquation, MeetsOne};
ghost use Rattle.scasp_unify.specs.ResolvedLists.{ResolvesList};
ghost use Rattle.scasp_project.specs.Inside.CodeReading.{reading};
ghost use Rattle.scasp_project.specs.Projection.{Projects, all_kept, alternatives, asked_kept, choice_kept, is_new, kept, projected_by, projection, remaining, stays};

use crate::choices::{are_too_many, choices};
use crate::dropped::{has_dropped_variable, row_has_dropped};
use crate::elimination::{copied, eliminate_dropped};
use scasp_hint::find;
use scasp_list::Memory;
use scasp_num::{Row, RowErr, Rows};
use scasp_rows::LinErr;
use scasp_syntax::{Con, ConLists, Cons, DeepCopy, VarList};
use scasp_unify::{Resolver, resolver_of};
use std::alloc::Global;

/// What a list of constraints says of the variables that are kept.
#[derive(Debug, Drop)]
pub enum Projected {
    /// What it says holds where one of these lists does.
    Alternatives(ConLists),
    /// There are too many parts of disequations to choose from, or one of which rows cannot speak.
    TooMany,
}

/// The row that the constraint is, if it is one.
fn given_row(constraint: &Con) -> Option<&Row>
    ensures { option_to_list (option_copied result) ≡ given_rows (constraint.now ∷ []) }
{
    match constraint {
        Con::Row(row) => Some(row),
        Con::Eq(_, _) | Con::Neq(_, _) | Con::NotShape(_, _, _) | Con::Num(_) | Con::NotNum(_) => {
            None
        }
    }
}

/// Reads each row of the list: what is read of a row tells that it is in normal form.
fn read_rows(constraints: &[Con])
    ensures { RowsNormal constraints.now }
{
    for constraint in constraints {
        if let Some(row) = given_row(constraint) {
            let _op = row.op();
        }
    }
}

/// The rows of the list that are no disequations.
fn inequalities(alloc: Global, constraints: &[Con]) -> Result<Rows, Memory>
    ensures { IfOk result (λ rows. rows ≡ inequalities (given_rows constraints.now)) }
{
    let mut rows = Rows::new(alloc);
    for constraint in constraints {
        if let Some(row) = given_row(constraint) {
            if !row.op().is_disequation() {
                rows.push(copied(row)?)?;
            }
        }
    }
    Ok(rows)
}

/// Whether the constraint is no row with a variable that is not kept.
fn stays(keep: &[u64], constraint: &Con) -> bool
    ensures { result ≡ stays keep.now constraint.now }
{
    match given_row(constraint) {
        Some(row) => !row_has_dropped(keep, row),
        None => true,
    }
}

/// Whether the row is none of those of the list.
fn is_new(constraints: &[Con], row: &Row) -> bool
    ensures { result ≡ is_new constraints.now row.now }
{
    for constraint in constraints {
        if let Some(given) = given_row(constraint) {
            if row.is_same(given) {
                return false;
            }
        }
    }
    true
}

/// The constraints that are no rows with a variable that is not kept.
fn staying(alloc: Global, keep: &[u64], constraints: &[Con]) -> Result<Cons, Memory>
    ensures { IfOk result (λ left. left ≡ filter (stays keep.now) constraints.now) }
{
    let mut left = Cons::new(alloc);
    for constraint in constraints {
        if stays(keep, constraint) {
            left.push(constraint.copy(alloc)?)?;
        }
    }
    Ok(left)
}

/// The choice without its rows that have a variable which is not kept, and behind it the rows that are left and were not
/// given.
fn remaining(alloc: Global, keep: &[u64], constraints: &[Con], rows: &[Row]) -> Result<Cons, Memory>
    ensures { IfOk result (λ left. left ≡ remaining keep.now constraints.now rows.now) }
{
    let mut left = staying(alloc, keep, constraints)?;
    for row in rows {
        if is_new(constraints, row) {
            left.push(Con::Row(copied(row)?))?;
        }
    }
    Ok(left)
}

/// What speaks of kept variables alone.
fn kept(
    alloc: Global,
    keep: &[u64],
    resolver: &Resolver,
    constraints: &[Con],
) -> Result<Cons, Memory>
    ensures { IfOk result (λ left. left ≡ kept (reading resolver.now keep.now) constraints.now) }
{
    let mut left = Cons::new(alloc);
    for constraint in constraints {
        if !has_dropped_variable(alloc, keep, resolver, constraint)? {
            left.push(constraint.copy(alloc)?)?;
        }
    }
    Ok(left)
}

/// What is kept of the list, if no hint shows that it has no valuation.
fn asked_kept(
    alloc: Global,
    keep: &[u64],
    resolver: &Resolver,
    constraints: &[Con],
) -> Result<Option<Cons>, RowErr>
    ensures { Gives result (asked_kept (reading resolver.now keep.now) constraints.now) }
{
    match find(alloc, constraints) {
        Ok(None) => Ok(Some(kept(alloc, keep, resolver, constraints)?)),
        Ok(Some(_)) => Ok(None),
        Err(LinErr::Overflow) => Err(RowErr::Overflow),
        Err(LinErr::Memory) => Err(RowErr::Memory),
    }
}

/// The list that a choice leaves of kept variables, if any.
fn choice_kept(
    alloc: Global,
    keep: &[u64],
    resolver: &Resolver,
    choice: &[Con],
) -> Result<Option<Cons>, RowErr>
    ensures { Gives result (choice_kept (reading resolver.now keep.now) choice.now) }
{
    let rows = inequalities(alloc, choice)?;
    match eliminate_dropped(alloc, keep, &rows) {
        Ok(Some(left)) => {
            let asked = remaining(alloc, keep, choice, left.as_slice())?;
            asked_kept(alloc, keep, resolver, asked.as_slice())
        }
        Ok(None) => Ok(None),
        Err(LinErr::Overflow) => Err(RowErr::Overflow),
        Err(LinErr::Memory) => Err(RowErr::Memory),
    }
}

/// The lists that the choices leave of kept variables.
fn all_kept(
    alloc: Global,
    keep: &[u64],
    resolver: &Resolver,
    choices: &[Cons],
) -> Result<ConLists, RowErr>
    ensures { Gives result (all_kept (reading resolver.now keep.now) choices.now) }
{
    let mut lists = ConLists::new(alloc);
    for choice in choices {
        if let Some(list) = choice_kept(alloc, keep, resolver, choice.as_slice())? {
            lists.push(list)?;
        }
    }
    Ok(lists)
}

/// The alternatives of a list that has not too many.
fn alternatives(
    alloc: Global,
    keep: &[u64],
    resolver: &Resolver,
    constraints: &[Con],
) -> Result<ConLists, RowErr>
    ensures { Gives result (alternatives (reading resolver.now keep.now) constraints.now) }
{
    let choices = choices(alloc, keep, resolver, constraints)?;
    all_kept(alloc, keep, resolver, choices.as_slice())
}

/// The projection of a list that is read so.
fn projected_by(
    alloc: Global,
    keep: &[u64],
    resolver: &Resolver,
    constraints: &[Con],
) -> Result<Projected, RowErr>
    ensures { Gives result (projected_by (reading resolver.now keep.now) constraints.now) }
{
    if are_too_many(alloc, keep, resolver, constraints)? {
        return Ok(Projected::TooMany);
    }
    Ok(Projected::Alternatives(alternatives(alloc, keep, resolver, constraints)?))
}

/// The projection of a list with this resolver.
fn projection(
    alloc: Global,
    keep: &[u64],
    resolver: &Resolver,
    constraints: &[Con],
) -> Result<Projected, RowErr>
    requires { ResolvesList resolver.now constraints.now }
    ensures { Gives result (projection constraints.now keep.now) }
{
    projected_by(alloc, keep, resolver, constraints)
}

/// The projection of the constraints on the variables that are kept. A valuation of these can be extended to one of all
/// variables that meets the constraints exactly where it meets one of the alternatives. Each disequation that speaks of
/// a dropped number gives an alternative for each of its parts, twice where that is between numbers (below and above),
/// and in each the dropped numbers are eliminated (Fourier 1826, Motzkin 1936). One that is found to have no valuation
/// is left out: where the constraints are sorted each alternative has one. TooMany exactly where these disequations
/// have together more than 6 parts, or one of their parts speaks of a dropped number and is not between numbers.
/// Overflow only where an elimination overflows, or the list that it leaves where it is asked for a valuation.
pub fn project(constraints: &Cons, keep: &VarList) -> Result<Projected, LinErr>
    ensures exact { Projects result (projection constraints.now keep.now) }
    ensures extends { IfOk result (λ answer. IfAlternatives answer (λ lists. Each IsNoEquation constraints.now → Sorted constraints.now
        → (v : Valuation) → Extends keep.now v constraints.now ↔ MeetsOne v.of lists)) }
    ensures possible { IfOk result (λ answer. IfAlternatives answer (λ lists. Each IsNoEquation constraints.now → Sorted constraints.now → Each Sat lists)) }
{
    let alloc = constraints.allocator();
    let list = constraints.as_slice();
    read_rows(list);
    let resolver = match resolver_of(alloc, list) {
        Ok(resolver) => resolver,
        Err(_) => return Err(LinErr::Memory),
    };
    match projection(alloc, keep.as_slice(), &resolver, list) {
        Ok(answer) => Ok(answer),
        Err(RowErr::Overflow) => Err(LinErr::Overflow),
        Err(RowErr::Memory) => Err(LinErr::Memory),
    }
}
