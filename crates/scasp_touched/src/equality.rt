//! Whether two clauses are equal, and two queries but for what their variables are called.
ghost use Rattle.std.specs.Prelude.{◌≡◌, ◌&&◌, nat_eq, IfOk};
ghost use Rattle.std.specs.Cmp.Lexicographic.{pointwise};
ghost use Rattle.std.specs.Option.{option_eq};
ghost use Rattle.scasp_syntax.specs.Same.{same_atom as is_same_atom};
ghost use Rattle.scasp_num.specs.SameRow.{same_row};
ghost use Rattle.scasp_touched.specs.Same as spec;

use scasp_list::Memory;
use scasp_syntax::{Atom, Clause, Item, Items, Lin, Query, Term, same, same_atom, same_lit};
use std::alloc::Global;

/// Two terms, each with its other one.
fn same_sides(
    alloc: Global,
    left: &Term,
    right: &Term,
    other_left: &Term,
    other_right: &Term,
) -> Result<bool, Memory>
    ensures { IfOk result (λ answer. answer ≡ (spec.same_term left.now other_left.now && spec.same_term right.now other_right.now)) }
{
    if !same(alloc, left, other_left)? {
        return Ok(false);
    }
    same(alloc, right, other_right)
}

/// Whether two linear items are equal.
fn same_linear(first: &Lin, second: &Lin) -> bool
    ensures { result ≡ (pointwise nat_eq first.now.vars second.now.vars && same_row first.now.row second.now.row) }
{
    first.vars.as_slice() == second.vars.as_slice() && first.row.is_same(&second.row)
}

/// Whether two items are equal.
fn same_item(alloc: Global, first: &Item, second: &Item) -> Result<bool, Memory>
    ensures { IfOk result (λ answer. answer ≡ spec.same_item first.now second.now) }
{
    match first {
        Item::Call(literal) => {
            let Item::Call(other) = second else {
                return Ok(false);
            };
            same_lit(alloc, literal, other)
        }
        Item::Equal(t, s) => {
            let Item::Equal(u, r) = second else {
                return Ok(false);
            };
            same_sides(alloc, t, s, u, r)
        }
        Item::Differ(t, s) => {
            let Item::Differ(u, r) = second else {
                return Ok(false);
            };
            same_sides(alloc, t, s, u, r)
        }
        Item::Linear(linear) => {
            Ok(matches!(second, Item::Linear(other) if same_linear(linear, other)))
        }
    }
}

/// Whether two bodies are equal.
fn same_items(alloc: Global, first: &Items, second: &Items) -> Result<bool, Memory>
    ensures { IfOk result (λ answer. answer ≡ pointwise spec.same_item first.now second.now) }
{
    let others = second.as_slice();
    if first.len() != others.len() {
        return Ok(false);
    }
    for (place, item) in first.as_slice().iter().enumerate() {
        if !same_item(alloc, item, &others[place])? {
            return Ok(false);
        }
    }
    Ok(true)
}

/// Whether two heads are equal, or both are missing.
fn same_head(alloc: Global, first: &Option<Atom>, second: &Option<Atom>) -> Result<bool, Memory>
    ensures { IfOk result (λ answer. answer ≡ option_eq is_same_atom first.now second.now) }
{
    match (first, second) {
        (None, None) => Ok(true),
        (Some(head), Some(other)) => same_atom(alloc, head, other),
        (None, Some(_)) | (Some(_), None) => Ok(false),
    }
}

/// Whether two clauses are equal. It takes memory for the arguments that are still to be compared, and no machine stack.
///
/// # Errors
///
/// Want of memory.
pub fn same_clause(alloc: Global, first: &Clause, second: &Clause) -> Result<bool, Memory>
    ensures { IfOk result (λ answer. answer ≡ spec.same_clause first.now second.now) }
{
    if first.vars != second.vars || !same_head(alloc, &first.head, &second.head)? {
        return Ok(false);
    }
    same_items(alloc, &first.body, &second.body)
}

/// Whether two queries have the same items and as many variables, with memory as `same_clause`.
///
/// # Errors
///
/// Want of memory.
pub fn same_query(alloc: Global, first: &Query, second: &Query) -> Result<bool, Memory>
    ensures { IfOk result (λ answer. answer ≡ spec.same_query first.now second.now) }
{
    if first.names.len() != second.names.len() {
        return Ok(false);
    }
    same_items(alloc, &first.body, &second.body)
}
