//! The bindings that an equation makes.
ghost use Rattle.std.specs.Prelude.{◌≡◌, ◌++◌, length, map, option_map, IfOk, OnOk, None, Some};
ghost use Rattle.scasp_syntax.specs.Values.{under};
ghost use Rattle.scasp_syntax.specs.View.{tm_of};
ghost use Rattle.scasp_unify.specs.Parts.{both_parts, left_side, parts, right_side};
ghost use Rattle.scasp_unify.specs.Resolver.{resolver};
ghost use Rattle.scasp_unify.specs.Solving.{part_of, sub_of};
ghost use Rattle.scasp_unify.specs.Unification.{parts_under, term_vars};
ghost use Rattle.scasp_constraint_store.specs.Bound.{bindings_by, bindings_of, bound_by};

use scasp_list::Memory;
use scasp_search_terms::constraints::push_vars;
use scasp_search_terms::reading::read;
use scasp_syntax::{Con, Term, VarList};
use scasp_unify::{Binding, Part, resolved_sides, resolver_of};
use std::alloc::Global;

/// The parts of a part whose sides stand under the bindings; None where they clash.
fn part_under(alloc: Global, part: &Part, bindings: &[Binding]) -> Result<Option<Vec<Part>>, Memory>
    ensures { IfOk result (λ found. option_map (λ v. map part_of v.items) found
        ≡ parts (under (sub_of bindings.now) (left_side (part_of part.now))) (under (sub_of bindings.now) (right_side (part_of part.now)))) }
{
    let variable = Term::Var(part.at);
    if part.turned {
        resolved_sides(alloc, &part.term, &variable, bindings)
    } else {
        resolved_sides(alloc, &variable, &part.term, bindings)
    }
}

/// Puts the parts behind those of the list.
fn append(parts: Vec<Part>, list: &mut Vec<Part>) -> Result<(), Memory>
    ensures { OnOk result (list.new.items ≡ list.old.items ++ parts.items) }
{
    for part in parts {
        list.push(part)?;
    }
    Ok(())
}

/// The parts of all these parts under the bindings; None where one of them clashes.
fn parts_under(
    alloc: Global,
    parts: &[Part],
    bindings: &[Binding],
) -> Result<Option<Vec<Part>>, Memory>
    ensures { IfOk result (λ found. option_map (λ v. map part_of v.items) found ≡ parts_under (sub_of bindings.now) (map part_of parts.now)) }
{
    let mut found = Vec::new(alloc);
    for part in parts {
        match part_under(alloc, part, bindings)? {
            None => return Ok(None),
            Some(more) => append(more, &mut found)?,
        }
    }
    Ok(Some(found))
}

/// The bindings that parts make, in order, where at most so many are needed; None where a part clashes.
fn bound_by(alloc: Global, count: usize, parts: Vec<Part>) -> Result<Option<Vec<Binding>>, Memory>
    ensures { IfOk result (λ made. option_map (λ v. v.items) made ≡ bound_by count (map part_of parts.items)) }
{
    let mut made = Vec::new(alloc);
    let mut left = parts;
    for _ in 0..count {
        if left.is_empty() {
            return Ok(Some(made));
        }
        let first = left.remove(0);
        made.push(Binding {
            x: first.at,
            term: first.term,
        })?;
        let latest = made.len() - 1;
        match parts_under(alloc, left.as_slice(), &made.as_slice()[latest..])? {
            None => return Ok(None),
            Some(rest) => left = rest,
        }
    }
    if left.is_empty() {
        Ok(Some(made))
    } else {
        Ok(None)
    }
}

/// How many times a variable stands in one of the terms.
fn count_variables(alloc: Global, left: &Term, right: &Term) -> Result<usize, Memory>
    ensures { IfOk result (λ count. count ≡ length (term_vars (tm_of left.now) ++ term_vars (tm_of right.now))) }
{
    let mut all = VarList::new(alloc);
    push_vars(left, &mut all)?;
    push_vars(right, &mut all)?;
    Ok(all.len())
}

/// The bindings that an equation makes, in order; None where its sides do not unify.
fn bindings_by(alloc: Global, left: &Term, right: &Term) -> Result<Option<Vec<Binding>>, Memory>
    ensures { IfOk result (λ made. option_map (λ v. v.items) made ≡ bindings_by (tm_of left.now) (tm_of right.now)) }
{
    let count = count_variables(alloc, left, right)?;
    match resolved_sides(alloc, left, right, &[])? {
        None => Ok(None),
        Some(parts) => bound_by(alloc, count, parts),
    }
}

/// The bindings that the constraint makes behind the list, in order: none where it is no equation, or one that does not
/// unify.
pub(crate) fn bindings_of(
    alloc: Global,
    list: &[Con],
    constraint: &Con,
) -> Result<Vec<Binding>, Memory>
    ensures { IfOk result (λ made. made.items ≡ bindings_of list.now constraint.now) }
{
    match constraint {
        Con::Eq(left, right) => {
            let resolver = resolver_of(alloc, list)?;
            let bindings = resolver.bindings.as_slice();
            let left = read(alloc, left, bindings)?;
            let right = read(alloc, right, bindings)?;
            match bindings_by(alloc, &left, &right)? {
                None => Ok(Vec::new(alloc)),
                Some(made) => Ok(made),
            }
        }
        Con::Neq(_, _) | Con::NotShape(_, _, _) | Con::Num(_) | Con::NotNum(_) | Con::Row(_) => {
            Ok(Vec::new(alloc))
        }
    }
}
