//! Unification of two terms over bindings.
ghost use Rattle.std.specs.Prelude.{◌≡◌, ◌≢◌, ◌<◌, [], ◌∷◌, length, map, take, IfOk, IfSome, MatchOption, is_some, option_map};
ghost use Rattle.scasp_syntax.specs.Values.{under};
ghost use Rattle.scasp_syntax.specs.View.{tm_of};
ghost use Rattle.scasp_unify.specs.Parts.{parts};
ghost use Rattle.scasp_unify.specs.Resolver.{extended};
ghost use Rattle.scasp_unify.specs.Solving.{Clashes, LeadsTo, Solves, part_of, resolved_parts, sub_of};
ghost use Rattle.scasp_unify.specs.Unification.{Absorbs, unifier};

use crate::bindings::{Binding, resolve};
use crate::parts::{Part, find_parts};
use scasp_list::Memory;
use scasp_syntax::Term;
use std::alloc::Global;

/// The parts of an equation between two terms, as the bindings resolve them; None where they clash.
pub fn resolved_sides(
    alloc: Global,
    left: &Term,
    right: &Term,
    bindings: &[Binding],
) -> Result<Option<Vec<Part>>, Memory>
    ensures { IfOk result (λ found. option_map (λ v. map part_of v.items) found
        ≡ parts (under (sub_of bindings.now) (tm_of left.now)) (under (sub_of bindings.now) (tm_of right.now))) }
{
    let first = resolve(alloc, left, bindings)?;
    let second = resolve(alloc, right, bindings)?;
    let mut found = Vec::new(alloc);
    if find_parts(alloc, &first, &second, &mut found)? {
        Ok(Some(found))
    } else {
        Ok(None)
    }
}

/// The parts of a part, as the bindings resolve it; None where it clashes.
fn resolved_parts(
    alloc: Global,
    part: &Part,
    bindings: &[Binding],
) -> Result<Option<Vec<Part>>, Memory>
    ensures { IfOk result (λ found. option_map (λ v. map part_of v.items) found ≡ resolved_parts (sub_of bindings.now) (part_of part.now)) }
{
    let mut found = Vec::new(alloc);
    let variable = resolve(alloc, &Term::Var(part.at), bindings)?;
    let term = resolve(alloc, &part.term, bindings)?;
    let is_whole = if part.turned {
        find_parts(alloc, &term, &variable, &mut found)?
    } else {
        find_parts(alloc, &variable, &term, &mut found)?
    };
    if is_whole { Ok(Some(found)) } else { Ok(None) }
}

/// Binds the first variable of a part, as the bindings resolve it, and gives the parts that are left; None where it
/// clashes. Nothing is bound where no part is left.
fn bind_first(
    alloc: Global,
    part: &Part,
    bindings: &mut Vec<Binding>,
) -> Result<Option<Vec<Part>>, Memory>
    requires { Absorbs (sub_of bindings.old.items) (sub_of bindings.old.items) }
    ensures found { IfOk result (λ left. MatchOption left
        (Clashes (sub_of bindings.old.items) (part_of part.now ∷ []))
        (λ parts. LeadsTo (sub_of bindings.old.items) (part_of part.now ∷ []) (sub_of bindings.new.items) (map part_of parts.items))) }
    ensures resolved { IfOk result (λ left. Absorbs (sub_of bindings.new.items) (sub_of bindings.new.items)) }
    ensures longer { IfOk result (λ left. IfSome left (λ parts. parts.items ≢ [] → length bindings.old.items < length bindings.new.items)) }
    ensures kept { take (length bindings.old.items) bindings.new.items ≡ bindings.old.items }
{
    let Some(mut found) = resolved_parts(alloc, part, bindings.as_slice())? else {
        return Ok(None);
    };
    if found.is_empty() {
        return Ok(Some(found));
    }
    let first = found.remove(0);
    bindings.push(Binding {
        x: first.at,
        term: first.term,
    })?;
    Ok(Some(found))
}

/// Solves the parts in order; false where one of them clashes. What is left of a part is solved before the parts behind it.
fn solve(alloc: Global, parts: Vec<Part>, bindings: &mut Vec<Binding>) -> Result<bool, Memory>
    requires { Absorbs (sub_of bindings.old.items) (sub_of bindings.old.items) }
    ensures solved { IfOk result (λ is_solved. Solves is_solved (sub_of bindings.old.items) (map part_of parts.items) (sub_of bindings.new.items)) }
    ensures resolved { IfOk result (λ is_solved. Absorbs (sub_of bindings.new.items) (sub_of bindings.new.items)) }
    ensures kept { take (length bindings.old.items) bindings.new.items ≡ bindings.old.items }
{
    let mut left = parts;
    left.reverse();
    'parts: while let Some(part) = left.pop() {
        let Some(mut rest) = bind_first(alloc, &part, bindings)? else {
            return Ok(false);
        };
        rest.reverse();
        left.append(&mut rest)?;
    }
    Ok(true)
}

/// Unifies two terms, as the bindings resolve them; false where they do not unify, and then nothing more is bound. Of
/// two unbound variables the left one is bound to the right one. The first part of the resolved terms is bound as it
/// stands.
pub(crate) fn unify(
    alloc: Global,
    left: &Term,
    right: &Term,
    bindings: &mut Vec<Binding>,
) -> Result<bool, Memory>
    requires { Absorbs (sub_of bindings.old.items) (sub_of bindings.old.items) }
    ensures unified { IfOk result (λ is_unified. is_unified
        ≡ is_some (unifier (under (sub_of bindings.old.items) (tm_of left.now)) (under (sub_of bindings.old.items) (tm_of right.now)))) }
    ensures bound { IfOk result (λ is_unified. sub_of bindings.new.items
        ≡ extended (sub_of bindings.old.items) (unifier (under (sub_of bindings.old.items) (tm_of left.now)) (under (sub_of bindings.old.items) (tm_of right.now)))) }
    ensures resolved { IfOk result (λ is_unified. Absorbs (sub_of bindings.new.items) (sub_of bindings.new.items)) }
{
    let first = resolve(alloc, left, bindings.as_slice())?;
    let second = resolve(alloc, right, bindings.as_slice())?;
    let mut parts = Vec::new(alloc);
    if !find_parts(alloc, &first, &second, &mut parts)? {
        return Ok(false);
    }
    if parts.is_empty() {
        return Ok(true);
    }
    let count = bindings.len();
    let part = parts.remove(0);
    bindings.push(Binding {
        x: part.at,
        term: part.term,
    })?;
    if solve(alloc, parts, bindings)? {
        return Ok(true);
    }
    bindings.truncate(count);
    Ok(false)
}
