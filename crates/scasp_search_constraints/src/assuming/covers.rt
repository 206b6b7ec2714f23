//! Splits of the case of a cover.
ghost use Rattle.std.specs.Prelude.{◌≡◌, [], ◌∷◌, ◌++◌, IfOk};
ghost use Rattle.scasp_search_constraints.specs.Assuming.Inside.Covers.{other_side, parted_where};
ghost use Rattle.scasp_search_rules.specs.declared.states.lines.Line.{Line as ThisLine};
ghost use Rattle.scasp_search_rules.specs.Successors.Splits.{at_depth, bound_by, cover_parted, parted_at, replacement, split_at};

use crate::assuming::partings::parted;
use scasp_list::Memory;
use scasp_search_rules::{
    Bindings, Cover, Covers, Kind, Line, Parting, Remainder, Remainders, State,
};
use scasp_search_terms::constraints::con_vars;
use scasp_search_terms::splits::{bound_among, replacement};
use scasp_search_terms::variables::{lower_all, with_new};
use scasp_syntax::{Con, Cons, DeepCopy, VarList};
use scasp_unify::Binding;
use std::alloc::Global;

// ---- the cover whose case is parted

/// The variables and then these.
fn with_vars(vars: VarList, more: &[u64]) -> Result<VarList, Memory>
    ensures { IfOk result (λ all. all ≡ vars ++ more.now) }
{
    let mut all = vars;
    for x in more {
        all.push(*x)?;
    }
    Ok(all)
}

/// The constraints and then a copy of this one.
fn with_copy(alloc: Global, constraints: Cons, last: &Con) -> Result<Cons, Memory>
    ensures { IfOk result (λ all. all ≡ constraints ++ last.now ∷ []) }
{
    let mut all = constraints;
    all.push(last.copy(alloc)?)?;
    Ok(all)
}

/// The remainder of the cover's case, in which the other side holds.
fn other_side(
    alloc: Global,
    parting: &Parting,
    bound: &[Binding],
    cover: &Cover,
) -> Result<Remainder, Memory>
    ensures { IfOk result (λ made. made ≡ other_side parting.now bound.now cover.now) }
{
    Ok(Remainder {
        region: with_copy(alloc, cover.region.copy(alloc)?, &parting.there)?,
        universals: with_vars(
            cover.universals.copy(alloc)?,
            parting.parts_there.as_slice(),
        )?,
        replaced: bound_among(alloc, bound, cover.universals.as_slice())?,
        equation: replacement(alloc, &parting.there)?,
    })
}

/// The remainder in front of those that wait.
fn in_front(remainder: Remainder, waiting: Remainders) -> Result<Remainders, Memory>
    ensures { IfOk result (λ all. all ≡ remainder ∷ waiting) }
{
    let mut all = waiting.into_vec();
    all.insert(0, remainder)?;
    Ok(Remainders::from(all))
}

/// The line of a split.
fn split_line(alloc: Global, parting: &Parting) -> Result<Line, Memory>
    ensures { IfOk result (λ made. made ≡ ThisLine.Split parting.now.line (parting.now.parts_here ++ parting.now.parts_there)) }
{
    Ok(Line::Split {
        constraint: parting.line.copy(alloc)?,
        parts: with_vars(
            parting.parts_here.copy(alloc)?,
            parting.parts_there.as_slice(),
        )?,
    })
}

/// The cover in whose case one side holds, while the other side waits; `bound` are the bindings before.
fn cover_parted(
    alloc: Global,
    parting: &Parting,
    bound: &[Binding],
    cover: Cover,
) -> Result<Cover, Memory>
    ensures { IfOk result (λ made. made ≡ cover_parted parting.now bound.now cover) }
{
    let other = other_side(alloc, parting, bound, &cover)?;
    let mut cover = cover;
    cover.plain = false;
    cover.universals = with_vars(cover.universals, parting.parts_here.as_slice())?;
    cover.region = with_copy(alloc, cover.region, &parting.here)?;
    cover.waiting = in_front(other, cover.waiting)?;
    cover.before.push(split_line(alloc, parting)?)?;
    Ok(cover)
}

/// The cover, parted where it has this depth.
fn parted_where(
    alloc: Global,
    depth: u64,
    parting: &Parting,
    bound: &[Binding],
    cover: Cover,
) -> Result<Cover, Memory>
    ensures { IfOk result (λ made. made ≡ parted_where depth parting.now bound.now cover) }
{
    if cover.depth == depth {
        cover_parted(alloc, parting, bound, cover)
    } else {
        Ok(cover)
    }
}

/// The covers, of which that of this depth is parted.
fn covers_parted(
    alloc: Global,
    depth: u64,
    parting: &Parting,
    bound: &[Binding],
    covers: Covers,
) -> Result<Covers, Memory>
    ensures { IfOk result (λ made. made ≡ at_depth depth (cover_parted parting.now bound.now) covers) }
{
    let mut made = Covers::new(alloc);
    for cover in covers.into_vec() {
        made.push(parted_where(alloc, depth, parting, bound, cover)?)?;
    }
    Ok(made)
}

// ---- the state

/// The bindings and then the replacement that a constraint is, where it is one.
fn with_replacement(alloc: Global, bound: Bindings, constraint: &Con) -> Result<Bindings, Memory>
    ensures { IfOk result (λ all. all ≡ bound ++ bound_by (replacement constraint.now)) }
{
    let mut all = bound;
    if let Some(binding) = replacement(alloc, constraint)? {
        all.push(binding)?;
    }
    Ok(all)
}

/// The state in which the case of the cover of this depth is parted so by the constraint.
fn parted_at(
    alloc: Global,
    state: State,
    depth: u64,
    parting: &Parting,
    constraint: &Con,
) -> Result<State, Memory>
    ensures { IfOk result (λ made. made ≡ parted_at state depth parting.now constraint.now) }
{
    let vars = con_vars(alloc, constraint, state.bound.as_slice())?;
    let count = parting.parts_there.len() as u64;
    let State {
        made,
        bound,
        given,
        covers,
        cases,
        literals,
        lines,
        work,
    } = with_new(state, Kind::Universal, depth, count)?;
    let covers = covers_parted(alloc, depth, parting, bound.as_slice(), covers)?;
    let bound = with_replacement(alloc, bound, constraint)?;
    let made = lower_all(depth.saturating_sub(1), vars.as_slice(), made);
    Ok(State {
        made,
        bound,
        given,
        covers,
        cases,
        literals,
        lines,
        work,
    })
}

/// The state in which the case of the cover of this depth is parted by a constraint that reads as it stands.
pub fn split_at(alloc: Global, state: State, depth: u64, constraint: &Con) -> Result<State, Memory>
    ensures { IfOk result (λ made. made ≡ split_at state depth constraint.now) }
{
    let parting = parted(alloc, state.made.len() as u64, constraint)?;
    parted_at(alloc, state, depth, &parting, constraint)
}
