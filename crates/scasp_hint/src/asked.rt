//! What is looked at in a list of constraints.
ghost use Rattle.std.specs.Prelude.{◌≡◌, ◌∷◌, [], IfOk, option_copied, option_to_list};
ghost use Rattle.scasp_hint.specs.AskedRows.{RowsNormal, are_opposite, asked, asked_by, given_rows, inequalities, resolved_each, rows_seen};
ghost use Rattle.scasp_num.specs.Linear.{Gives};
ghost use Rattle.scasp_num.specs.SameRow.{same_row};
ghost use Rattle.std.specs.List.{list_any};
ghost use Rattle.scasp_unify.specs.Resolver.{resolver};
ghost use Rattle.scasp_unify.specs.ResolvedLists.{ResolvesList};
ghost use Rattle.scasp_unify.specs.Solving.{sub_of};

use scasp_list::Memory;
use scasp_num::{Row, RowErr, Rows};
use scasp_rows::is_false;
use scasp_syntax::Con;
use scasp_unify::{Binding, Resolver, fails_by_terms, resolved_row};
use std::alloc::Global;

/// The rows of a list, resolved in order.
#[derive(Debug, Drop)]
pub enum RowsView {
    /// One of them is a false constant row, and none before it is too large.
    FalseRow,
    /// One of them is too large, and none before it is a false constant row.
    LargeRow,
    /// All of them.
    AllRows(Rows),
}

/// What is asked of a list.
#[derive(Debug, Drop)]
pub enum Asked {
    /// Nothing: its terms or single rows show that it has no valuation.
    ByTerms,
    /// Nothing: a row is too large when it is resolved.
    Overflows,
    /// Whether rational values meet these rows.
    Asks(Rows),
}

/// The row that the constraint is, if it is one.
pub(crate) fn given_row(constraint: &Con) -> Option<&Row>
    ensures { option_to_list (option_copied result) ≡ given_rows (constraint.now ∷ []) }
{
    match constraint {
        Con::Row(row) => Some(row),
        Con::Eq(_, _) | Con::Neq(_, _) | Con::NotShape(_, _, _) | Con::Num(_) | Con::NotNum(_) => {
            None
        }
    }
}

/// Reads each row of the list: what is read of a row tells that it is in normal form.
pub(crate) fn read_rows(constraints: &[Con])
    ensures { RowsNormal constraints.now }
{
    for constraint in constraints {
        if let Some(row) = given_row(constraint) {
            let _op = row.op();
        }
    }
}

/// The rows of the list, as the bindings resolve them, up to the first that is too large or a false constant row.
fn rows_seen(alloc: Global, constraints: &[Con], bindings: &[Binding]) -> Result<RowsView, Memory>
    ensures { IfOk result (λ view. view ≡ rows_seen (sub_of bindings.now) (given_rows constraints.now)) }
{
    let mut rows = Rows::new(alloc);
    for constraint in constraints {
        if let Some(row) = given_row(constraint) {
            match resolved_row(alloc, row, bindings) {
                Ok(resolved) => {
                    if is_false(&resolved) {
                        return Ok(RowsView::FalseRow);
                    }
                    rows.push(resolved)?;
                }
                Err(RowErr::Overflow) => return Ok(RowsView::LargeRow),
                Err(RowErr::Memory) => return Err(Memory),
            }
        }
    }
    Ok(RowsView::AllRows(rows))
}

/// Whether the row is among those.
fn stands(rows: &[Row], row: &Row) -> bool
    ensures { result ≡ list_any (same_row row.now) rows.now }
{
    rows.iter().any(|other| row.is_same(other))
}

/// Whether the negation of one of the rows is among all of them.
fn are_opposite(all: &[Row], rows: &[Row]) -> Result<bool, Memory>
    ensures { IfOk result (λ answer. answer ≡ are_opposite all.now rows.now) }
{
    for row in rows {
        let negation = row.negate()?;
        if stands(all, &negation) {
            return Ok(true);
        }
    }
    Ok(false)
}

/// The rows of the list that are no disequations, as the bindings resolve them. Overflow exactly where one of them is
/// too large.
pub(crate) fn inequalities(
    alloc: Global,
    constraints: &[Con],
    bindings: &[Binding],
) -> Result<Rows, RowErr>
    ensures { Gives result (resolved_each (sub_of bindings.now) (inequalities (given_rows constraints.now))) }
{
    let mut rows = Rows::new(alloc);
    for constraint in constraints {
        if let Some(row) = given_row(constraint) {
            if !row.op().is_disequation() {
                rows.push(resolved_row(alloc, row, bindings)?)?;
            }
        }
    }
    Ok(rows)
}

/// What is asked of a list whose terms do not show that it has no valuation.
fn ask_rows(alloc: Global, constraints: &[Con], bindings: &[Binding]) -> Result<Asked, Memory>
    requires { sub_of bindings.now ≡ resolver constraints.now }
    ensures { IfOk result (λ answer. answer ≡ asked_by constraints.now (rows_seen (resolver constraints.now) (given_rows constraints.now))) }
{
    match rows_seen(alloc, constraints, bindings)? {
        RowsView::FalseRow => Ok(Asked::ByTerms),
        RowsView::LargeRow => Ok(Asked::Overflows),
        RowsView::AllRows(rows) => {
            if are_opposite(rows.as_slice(), rows.as_slice())? {
                return Ok(Asked::ByTerms);
            }
            match inequalities(alloc, constraints, bindings) {
                Ok(all) => Ok(Asked::Asks(all)),
                Err(RowErr::Overflow) => Ok(Asked::Overflows),
                Err(RowErr::Memory) => Err(Memory),
            }
        }
    }
}

/// What is asked of a list.
pub(crate) fn ask(alloc: Global, constraints: &[Con], resolver: &Resolver) -> Result<Asked, Memory>
    requires { ResolvesList resolver.now constraints.now }
    ensures { IfOk result (λ answer. answer ≡ asked constraints.now) }
{
    if fails_by_terms(alloc, constraints, resolver)? {
        return Ok(Asked::ByTerms);
    }
    ask_rows(alloc, constraints, resolver.bindings.as_slice())
}
