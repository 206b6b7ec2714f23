//! Splits of the case of a cover.
ghost use Rattle.std.specs.Prelude.{◌≡◌, ◌++◌, IfOk, OnOk, reverse};
ghost use Rattle.scasp_search_rules.specs.declared.states.lines.Line.{Line as ThisLine};
ghost use Rattle.scasp_search_rules.specs.Successors.Splits.{at_depth, bound_by, cover_parted, replacement, split_at};
ghost use Rattle.scasp_search_trail.specs.States.{first, lined, marks_of, others, state_of};

use crate::partings::parted;
use crate::parts::{Parts, require};
use scasp_bound::Bound;
use scasp_forall::Scopes;
use scasp_list::Memory;
use scasp_readings::con_vars;
use scasp_search_rules::{Kind, Line, Parting};
use scasp_search_terms::splits::replacement;
use scasp_store::Store;
use scasp_syntax::{Con, DeepCopy, VarList};
use scasp_told::Told;
use std::alloc::Global;

/// The variables and then these.
fn with_vars(vars: VarList, more: &[u64]) -> Result<VarList, Memory>
    ensures { IfOk result (λ all. all ≡ vars ++ more.now) }
{
    let mut all = vars;
    for x in more {
        all.push(*x)?;
    }
    Ok(all)
}

/// The line of a split.
fn split_line(alloc: Global, parting: &Parting) -> Result<Line, Memory>
    ensures { IfOk result (λ made. made ≡ ThisLine.Split parting.now.line (parting.now.parts_here ++ parting.now.parts_there)) }
{
    let parts = parting.parts_here.copy(alloc)?;
    Ok(Line::Split {
        constraint: parting.line.copy(alloc)?,
        parts: with_vars(parts, parting.parts_there.as_slice())?,
    })
}

/// The case of the cover of this depth is parted, and the line that tells of it stands before the case.
#[tactic(auto, using(crate::proofs::SplitLemmas::none_parted, crate::proofs::SplitLemmas::one_parted, crate::proofs::LineLemmas::grown_first))]
fn split_cover(
    alloc: Global,
    scopes: &mut Scopes,
    told: &mut Told<Line>,
    bound: &Bound,
    depth: u64,
    parting: &Parting,
) -> Result<(), Memory>
    ensures covers { OnOk result (lined (reverse scopes.new.now) (others (reverse told.new.now)) ≡ at_depth depth (cover_parted parting.now bound.now.now) (lined (reverse scopes.old.now) (others (reverse told.old.now)))) }
    ensures lines { OnOk result (first (reverse told.new.now) ≡ first (reverse told.old.now)) }
    ensures covers_before { OnOk result (scopes.new.before ≡ scopes.old.before) }
    ensures lines_before { OnOk result (told.new.before ≡ told.old.before) }
{
    let count = scopes.depth();
    require(told.count() - 1 == count)?;
    scopes.split(alloc, depth, parting, bound)?;
    if depth == 0 || depth > count as u64 {
        return Ok(());
    }
    told.insert((depth - 1) as usize, split_line(alloc, parting)?)
}

/// The variable is bound to the term, where the constraint is a replacement.
fn bind_replacement(alloc: Global, store: &mut Store, constraint: &Con) -> Result<(), Memory>
    ensures bound { OnOk result (store.new.bound.now ≡ store.old.bound.now ++ bound_by (replacement constraint.now)) }
    ensures given { store.new.given ≡ store.old.given }
    ensures before { store.new.bound.before ≡ store.old.bound.before }
{
    match replacement(alloc, constraint)? {
        Some(binding) => store.bind(alloc, binding.x, binding.term),
        None => Ok(()),
    }
}

/// The case of the cover of this depth is parted by a constraint that reads as it stands.
pub(crate) fn split_at(
    alloc: Global,
    parts: &mut Parts,
    depth: u64,
    constraint: &Con,
) -> Result<(), Memory>
    ensures now { OnOk result (state_of parts.new ≡ split_at (state_of parts.old) depth constraint.now) }
    ensures marks { OnOk result (marks_of parts.new ≡ marks_of parts.old) }
{
    let parting = parted(alloc, parts.variables.next_variable(), constraint)?;
    let vars = con_vars(alloc, parts.store.bound(), constraint)?;
    let count = parting.parts_there.len() as u64;
    parts.variables.make(Kind::Universal, depth, count)?;
    parts
        .variables
        .lower(depth.saturating_sub(1), vars.as_slice())?;
    let bound = parts.store.bound();
    split_cover(
        alloc,
        &mut parts.scopes,
        &mut parts.told,
        bound,
        depth,
        &parting,
    )?;
    bind_replacement(alloc, &mut parts.store, constraint)
}
