//! Lists of constraints with the values put in that their rows fix.
ghost use Rattle.std.specs.Prelude.{◌≡◌, IfOk, is_some, map};
ghost use Rattle.std.specs.List.{list_all};
ghost use Rattle.scasp_fixed.specs.Fixed.{are_read, is_read, telling, telling_by};
ghost use Rattle.scasp_search_rules.specs.Successors.Reading.{con_under};
ghost use Rattle.scasp_syntax.specs.Tm.{items};
ghost use Rattle.scasp_unify.specs.ResolvedRows.{resolved_row};
ghost use Rattle.scasp_unify.specs.Solving.{sub_of};

use crate::values::values_found;
use scasp_list::Memory;
use scasp_num::{Row, RowErr};
use scasp_search_terms::constraints::read_con;
use scasp_syntax::{Con, ConLists, Cons, Terms};
use scasp_unify::{Binding, resolved_row};
use std::alloc::Global;

/// What is told of lists of which one holds.
#[derive(Drop)]
pub struct Told {
    /// The numbers that their rows fix.
    pub values: Vec<Binding>,
    /// What the lists say of the other variables.
    pub lists: ConLists,
}

/// Whether the row with the values put in is within range.
fn is_row_read(alloc: Global, values: &[Binding], row: &Row) -> Result<bool, Memory>
    ensures { IfOk result (λ is. is ≡ is_some (resolved_row (sub_of values.now) row.now)) }
{
    match resolved_row(alloc, row, values) {
        Ok(_) => Ok(true),
        Err(RowErr::Overflow) => Ok(false),
        Err(RowErr::Memory) => Err(Memory),
    }
}

/// Whether the constraint, if it is a row, is within range with the values put in.
fn is_read(alloc: Global, values: &[Binding], constraint: &Con) -> Result<bool, Memory>
    ensures { IfOk result (λ is. is ≡ is_read (sub_of values.now) constraint.now) }
{
    match constraint {
        Con::Row(row) => is_row_read(alloc, values, row),
        Con::Eq(_, _) | Con::Neq(_, _) | Con::NotShape(_, _, _) | Con::Num(_) | Con::NotNum(_) => {
            Ok(true)
        }
    }
}

/// Whether all rows of the list are within range with the values put in.
fn are_read(alloc: Global, values: &[Binding], list: &[Con]) -> Result<bool, Memory>
    ensures { IfOk result (λ are. are ≡ are_read (sub_of values.now) list.now) }
{
    for constraint in list {
        if !is_read(alloc, values, constraint)? {
            return Ok(false);
        }
    }
    Ok(true)
}

/// Whether all rows of the lists are.
fn are_all_read(alloc: Global, values: &[Binding], lists: &[Cons]) -> Result<bool, Memory>
    ensures { IfOk result (λ are. are ≡ list_all (are_read (sub_of values.now)) lists.now) }
{
    for list in lists {
        if !are_read(alloc, values, list.as_slice())? {
            return Ok(false);
        }
    }
    Ok(true)
}

/// The list with the values put in.
fn with_values(alloc: Global, values: &[Binding], list: &[Con]) -> Result<Cons, Memory>
    ensures { IfOk result (λ made. made ≡ map (con_under (sub_of values.now)) list.now) }
{
    let mut made = Cons::new(alloc);
    for constraint in list {
        made.push(read_con(alloc, constraint, values)?)?;
    }
    Ok(made)
}

/// Each of the lists with the values put in.
fn all_with_values(alloc: Global, values: &[Binding], lists: &[Cons]) -> Result<ConLists, Memory>
    ensures { IfOk result (λ made. made ≡ map (map (con_under (sub_of values.now))) lists.now) }
{
    let mut made = ConLists::new(alloc);
    for list in lists {
        made.push(with_values(alloc, values, list.as_slice())?)?;
    }
    Ok(made)
}

/// What is told of the lists by these values: no value, and the lists as they are, if a row passes its range.
fn told_by(alloc: Global, values: Vec<Binding>, lists: ConLists) -> Result<Told, Memory>
    ensures told_values { IfOk result (λ t. t.values.items ≡ (telling_by values.items lists).values) }
    ensures told_lists { IfOk result (λ t. t.lists ≡ (telling_by values.items lists).lists) }
{
    if values.as_slice().len() == 0 || !are_all_read(alloc, values.as_slice(), lists.as_slice())? {
        let values = Vec::new(alloc);
        return Ok(Told { values, lists });
    }
    let lists = all_with_values(alloc, values.as_slice(), lists.as_slice())?;
    Ok(Told { values, lists })
}

/// What is told of lists of which one holds, and of which this sample meets one: each number of the sample that is fixed
/// in every list, by equations and by rows `=<` that are tight with the sample, and the lists with these numbers put in.
/// A list of more than 32 constraints fixes none. Where a number is put into a row and that overflows, no value is told and the lists are as
/// they were.
pub fn tell(lists: ConLists, sample: &Terms) -> Result<Told, Memory>
    ensures told_values { IfOk result (λ t. t.values.items ≡ (telling lists (items sample.now)).values) }
    ensures told_lists { IfOk result (λ t. t.lists ≡ (telling lists (items sample.now)).lists) }
{
    let alloc = lists.allocator();
    let values = values_found(alloc, lists.as_slice(), sample.as_slice())?;
    told_by(alloc, values, lists)
}
