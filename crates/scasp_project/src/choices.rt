//! The choices of a list: each disequation that speaks of a dropped number replaced by one of its parts.
ghost use Rattle.std.specs.Prelude.{◌≡◌, ◌++◌, [], ◌∷◌, IfOk, OnOk, Some, map, nat_lt};
ghost use Rattle.std.specs.List.{list_any, sum_by};
ghost use Rattle.scasp_hint.specs.Sides.{above, below};
ghost use Rattle.scasp_num.specs.Linear.{Gives};
ghost use Rattle.scasp_syntax.specs.View.{tm_of};
ghost use Rattle.scasp_syntax.specs.declared.con.Con.TheVariants as con;
ghost use Rattle.scasp_unify.specs.Parts.{left_side, right_side};
ghost use Rattle.scasp_unify.specs.SimpleForm.{differ};
ghost use Rattle.scasp_unify.specs.Solving.{part_of};
ghost use Rattle.scasp_project.specs.Choices.{are_too_many, choices, chosen, count_by, crossed, has_mixed, is_mixed, mixed_by, options, options_by, part_count, part_options, part_rows, parts_options, row_count, row_options};
ghost use Rattle.scasp_project.specs.Dropped.{is_between, is_number_by, parts_in};
ghost use Rattle.scasp_project.specs.Inside.CodeReading.{AddsOptions, numbers_of, reading};

use crate::dropped::{is_number, part_has_dropped_number, row_has_dropped, speak_of_dropped};
use crate::part_rows::{left_above, left_below};
use scasp_list::Memory;
use scasp_num::{Op, Row, RowErr};
use scasp_syntax::{Con, ConLists, Cons, DeepCopy, Term, copy};
use scasp_unify::{Part, Resolver, resolved_sides};
use std::alloc::Global;

/// As many parts may be chosen from.
const LIMIT: usize = 6;

/// Whether the term is a number, or a variable of which the list says so.
fn is_number_term(resolver: &Resolver, term: &Term) -> bool
    ensures { result ≡ is_number_by (numbers_of resolver.now) (tm_of term.now) }
{
    match term {
        Term::Var(y) => is_number(resolver, *y),
        Term::Num(_) => true,
        Term::App(_, _) => false,
    }
}

/// Whether both sides of the part are numbers.
fn is_between(resolver: &Resolver, part: &Part) -> bool
    ensures { result ≡ is_between (numbers_of resolver.now) (part_of part.now) }
{
    is_number(resolver, part.at) && is_number_term(resolver, &part.term)
}

/// Puts the rows that say that one side of the part is below the other behind the options.
fn push_part_rows(alloc: Global, part: &Part, found: &mut Cons) -> Result<(), RowErr>
    ensures { AddsOptions found.old found.new result (part_rows (part_of part.now)) }
{
    found.push(Con::Row(left_below(alloc, part)?))?;
    found.push(Con::Row(left_above(alloc, part)?))?;
    Ok(())
}

/// The disequation of the two sides of the part.
fn differing(alloc: Global, part: &Part) -> Result<Con, Memory>
    ensures { IfOk result (λ made. made ≡ differ (left_side (part_of part.now)) (right_side (part_of part.now))) }
{
    let term = copy(alloc, &part.term)?;
    if part.turned {
        Ok(Con::Neq(term, Term::Var(part.at)))
    } else {
        Ok(Con::Neq(Term::Var(part.at), term))
    }
}

/// Puts what the part may be replaced by behind the options.
fn push_part_options(
    alloc: Global,
    resolver: &Resolver,
    part: &Part,
    found: &mut Cons,
) -> Result<(), RowErr>
    ensures { AddsOptions found.old found.new result (part_options (numbers_of resolver.now) (part_of part.now)) }
{
    if is_between(resolver, part) {
        return push_part_rows(alloc, part, found);
    }
    found.push(differing(alloc, part)?)?;
    Ok(())
}

/// What a disequation with these parts may be replaced by.
fn parts_options(alloc: Global, resolver: &Resolver, parts: &[Part]) -> Result<Cons, RowErr>
    ensures { Gives result (parts_options (numbers_of resolver.now) (map part_of parts.now)) }
{
    let mut found = Cons::new(alloc);
    for part in parts {
        push_part_options(alloc, resolver, part, &mut found)?;
    }
    Ok(found)
}

/// The constraint alone.
fn only(alloc: Global, constraint: &Con) -> Result<Cons, Memory>
    ensures { IfOk result (λ made. made ≡ constraint.now ∷ []) }
{
    let mut made = Cons::new(alloc);
    made.push(constraint.copy(alloc)?)?;
    Ok(made)
}

/// What a disequation with these parts, which is the constraint, may be replaced by.
fn some_options(
    alloc: Global,
    keep: &[u64],
    resolver: &Resolver,
    constraint: &Con,
    parts: &[Part],
) -> Result<Cons, RowErr>
    ensures { Gives result (options_by (reading resolver.now keep.now) constraint.now (Some (map part_of parts.now))) }
{
    if speak_of_dropped(alloc, keep, resolver, parts)? {
        return parts_options(alloc, resolver, parts);
    }
    Ok(only(alloc, constraint)?)
}

/// What the disequation of these terms may be replaced by.
fn sides_options(
    alloc: Global,
    keep: &[u64],
    resolver: &Resolver,
    constraint: &Con,
    left: &Term,
    right: &Term,
) -> Result<Cons, RowErr>
    ensures { Gives result (options_by (reading resolver.now keep.now) constraint.now (parts_in (reading resolver.now keep.now) left.now right.now)) }
{
    match resolved_sides(alloc, left, right, resolver.bindings.as_slice())? {
        None => Ok(only(alloc, constraint)?),
        Some(parts) => some_options(alloc, keep, resolver, constraint, parts.as_slice()),
    }
}

/// The rows that say that the sum of a row is below 0, and above 0.
fn both_sides(alloc: Global, row: &Row) -> Result<Cons, Memory>
    ensures { IfOk result (λ made. made ≡ con.Row (below row.now) ∷ con.Row (above row.now) ∷ []) }
{
    let mut made = Cons::new(alloc);
    made.push(Con::Row(row.compared(Op::Lt)?))?;
    made.push(Con::Row(row.compared(Op::Le)?.negate()?))?;
    Ok(made)
}

/// What the row may be replaced by.
fn row_options(alloc: Global, keep: &[u64], row: &Row) -> Result<Cons, Memory>
    ensures { IfOk result (λ made. made ≡ row_options keep.now row.now.op row.now) }
{
    if row.op().is_disequation() && row_has_dropped(keep, row) {
        return both_sides(alloc, row);
    }
    let mut made = Cons::new(alloc);
    made.push(Con::Row(row.clone()?))?;
    Ok(made)
}

/// What the constraint may be replaced by.
fn options(
    alloc: Global,
    keep: &[u64],
    resolver: &Resolver,
    constraint: &Con,
) -> Result<Cons, RowErr>
    ensures { Gives result (options (reading resolver.now keep.now) constraint.now) }
{
    match constraint {
        Con::Neq(left, right) => sides_options(alloc, keep, resolver, constraint, left, right),
        Con::Row(row) => Ok(row_options(alloc, keep, row)?),
        Con::Eq(_, _) | Con::NotShape(_, _, _) | Con::Num(_) | Con::NotNum(_) => {
            Ok(only(alloc, constraint)?)
        }
    }
}

/// Puts the list with each of the options behind it behind the lists.
fn push_extended(
    alloc: Global,
    list: &Cons,
    options: &[Con],
    lists: &mut ConLists,
) -> Result<(), Memory>
    ensures { OnOk result (lists.new ≡ lists.old ++ map (λ o. list.now ++ o ∷ []) options.now) }
{
    for option in options {
        let mut extended = list.copy(alloc)?;
        extended.push(option.copy(alloc)?)?;
        lists.push(extended)?;
    }
    Ok(())
}

/// Each of the lists with each of the options behind it.
fn crossed(alloc: Global, lists: &[Cons], options: &[Con]) -> Result<ConLists, Memory>
    ensures { IfOk result (λ all. all ≡ crossed lists.now options.now) }
{
    let mut all = ConLists::new(alloc);
    for list in lists {
        push_extended(alloc, list, options, &mut all)?;
    }
    Ok(all)
}

/// The lists, each with one option for each of the constraints.
pub(crate) fn choices(
    alloc: Global,
    keep: &[u64],
    resolver: &Resolver,
    constraints: &[Con],
) -> Result<ConLists, RowErr>
    ensures { Gives result (choices (reading resolver.now keep.now) constraints.now) }
{
    let mut lists = ConLists::new(alloc);
    lists.push(Cons::new(alloc))?;
    for constraint in constraints {
        let options = options(alloc, keep, resolver, constraint)?;
        lists = crossed(alloc, lists.as_slice(), options.as_slice())?;
    }
    Ok(lists)
}

/// Whether the part speaks of a dropped number and is not between numbers.
fn is_mixed(alloc: Global, keep: &[u64], resolver: &Resolver, part: &Part) -> Result<bool, Memory>
    ensures { IfOk result (λ answer. answer ≡ is_mixed (reading resolver.now keep.now) (part_of part.now)) }
{
    Ok(part_has_dropped_number(alloc, keep, resolver, part)? && !is_between(resolver, part))
}

/// Whether one of the parts is so.
fn some_mixed(
    alloc: Global,
    keep: &[u64],
    resolver: &Resolver,
    parts: &[Part],
) -> Result<bool, Memory>
    ensures { IfOk result (λ answer. answer ≡ list_any (is_mixed (reading resolver.now keep.now)) (map part_of parts.now)) }
{
    for part in parts {
        if is_mixed(alloc, keep, resolver, part)? {
            return Ok(true);
        }
    }
    Ok(false)
}

/// Whether the disequation has a part that speaks of a dropped number and is not between numbers.
fn has_mixed(
    alloc: Global,
    keep: &[u64],
    resolver: &Resolver,
    constraint: &Con,
) -> Result<bool, Memory>
    ensures { IfOk result (λ answer. answer ≡ has_mixed (reading resolver.now keep.now) constraint.now) }
{
    match constraint {
        Con::Neq(left, right) => {
            match resolved_sides(alloc, left, right, resolver.bindings.as_slice())? {
                None => Ok(false),
                Some(parts) => some_mixed(alloc, keep, resolver, parts.as_slice()),
            }
        }
        Con::Eq(_, _) | Con::NotShape(_, _, _) | Con::Num(_) | Con::NotNum(_) | Con::Row(_) => {
            Ok(false)
        }
    }
}

/// Whether one of the constraints has a part that speaks of a dropped number and is not between numbers.
fn any_mixed(
    alloc: Global,
    keep: &[u64],
    resolver: &Resolver,
    constraints: &[Con],
) -> Result<bool, Memory>
    ensures { IfOk result (λ answer. answer ≡ list_any (has_mixed (reading resolver.now keep.now)) constraints.now) }
{
    for constraint in constraints {
        if has_mixed(alloc, keep, resolver, constraint)? {
            return Ok(true);
        }
    }
    Ok(false)
}

/// The number of these parts, where they speak of a dropped number; else 0.
fn some_count(
    alloc: Global,
    keep: &[u64],
    resolver: &Resolver,
    parts: &[Part],
) -> Result<usize, Memory>
    ensures { IfOk result (λ count. count ≡ count_by (reading resolver.now keep.now) (Some (map part_of parts.now))) }
{
    if speak_of_dropped(alloc, keep, resolver, parts)? {
        Ok(parts.len())
    } else {
        Ok(0)
    }
}

/// The number of parts of the disequation of these terms, where it speaks of a dropped number; else 0.
fn sides_count(
    alloc: Global,
    keep: &[u64],
    resolver: &Resolver,
    left: &Term,
    right: &Term,
) -> Result<usize, Memory>
    ensures { IfOk result (λ count. count ≡ count_by (reading resolver.now keep.now) (parts_in (reading resolver.now keep.now) left.now right.now)) }
{
    match resolved_sides(alloc, left, right, resolver.bindings.as_slice())? {
        None => Ok(0),
        Some(parts) => some_count(alloc, keep, resolver, parts.as_slice()),
    }
}

/// 1 where the row is a disequation with a dropped variable, else 0.
fn row_count(keep: &[u64], row: &Row) -> usize
    ensures { result ≡ row_count keep.now row.now.op row.now }
{
    if row.op().is_disequation() && row_has_dropped(keep, row) {
        1
    } else {
        0
    }
}

/// The number of parts of the constraint that are to be chosen from.
fn part_count(
    alloc: Global,
    keep: &[u64],
    resolver: &Resolver,
    constraint: &Con,
) -> Result<usize, Memory>
    ensures { IfOk result (λ count. count ≡ part_count (reading resolver.now keep.now) constraint.now) }
{
    match constraint {
        Con::Neq(left, right) => sides_count(alloc, keep, resolver, left, right),
        Con::Row(row) => Ok(row_count(keep, row)),
        Con::Eq(_, _) | Con::NotShape(_, _, _) | Con::Num(_) | Con::NotNum(_) => Ok(0),
    }
}

/// Whether more than six parts are to be chosen from.
fn has_many_parts(
    alloc: Global,
    keep: &[u64],
    resolver: &Resolver,
    constraints: &[Con],
) -> Result<bool, Memory>
    ensures { IfOk result (λ answer. answer ≡ nat_lt 6 (sum_by (part_count (reading resolver.now keep.now)) constraints.now)) }
{
    let mut count = 0usize;
    for constraint in constraints {
        count = count.saturating_add(part_count(alloc, keep, resolver, constraint)?);
        if count > LIMIT {
            return Ok(true);
        }
    }
    Ok(false)
}

/// Whether there are too many parts to choose from, or one of which rows cannot speak.
pub(crate) fn are_too_many(
    alloc: Global,
    keep: &[u64],
    resolver: &Resolver,
    constraints: &[Con],
) -> Result<bool, Memory>
    ensures { IfOk result (λ answer. answer ≡ are_too_many (reading resolver.now keep.now) constraints.now) }
{
    Ok(
        any_mixed(alloc, keep, resolver, constraints)?
            || has_many_parts(alloc, keep, resolver, constraints)?,
    )
}
