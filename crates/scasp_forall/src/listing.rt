//! Covers, their remainders and the numbers of their cases, as the search has them.
ghost use Rattle.std.specs.Prelude.{◌≡◌, filter, map, not, reverse, IfOk};
ghost use Rattle.scasp_forall.specs.Inside.Kept.{cover_of, covers_from, remainder_of};
ghost use Rattle.scasp_lines_places.specs.Places.Chains.{chained};

use crate::chains::list_of;
use crate::scope::{Rest, Scope, scope_at};
use scasp_lines_places::Chain;
use scasp_list::Memory;
use scasp_search_rules::{CaseList, Cover, Covers, Lines, Remainder, Remainders, copy_binding};
use scasp_syntax::DeepCopy;
use scasp_unify::Binding;
use std::alloc::Global;

// ---- copies

fn copy_equation(alloc: Global, equation: &Option<Binding>) -> Result<Option<Binding>, Memory>
    ensures { IfOk result (λ made. made ≡ equation.now) }
{
    match equation {
        Some(binding) => Ok(Some(copy_binding(alloc, binding)?)),
        None => Ok(None),
    }
}

fn copy_remainder(alloc: Global, rest: &Rest) -> Result<Remainder, Memory>
    ensures { IfOk result (λ made. made ≡ remainder_of rest.now) }
{
    Ok(Remainder {
        region: list_of(alloc, &rest.region)?,
        universals: list_of(alloc, &rest.universals)?,
        replaced: rest.replaced.copy(alloc)?,
        equation: copy_equation(alloc, &rest.equation)?,
    })
}

fn copy_remainders(alloc: Global, waiting: &Chain<Rest>) -> Result<Remainders, Memory>
    ensures { IfOk result (λ made. made ≡ map remainder_of (chained waiting.now)) }
{
    let mut made = Remainders::new(alloc);
    let mut rest = waiting;
    'remainders: while let Some((remainder, others)) = rest.first() {
        made.push(copy_remainder(alloc, remainder)?)?;
        rest = others;
    }
    Ok(made)
}

fn copy_cover(alloc: Global, depth: u64, scope: &Scope) -> Result<Cover, Memory>
    ensures { IfOk result (λ made. made ≡ cover_of depth scope.now) }
{
    Ok(Cover {
        clause: scope.opening.clause,
        first: scope.opening.first,
        checks_head: scope.opening.checks_head,
        plain: scope.opening.plain,
        depth,
        case: scope.case,
        universals: list_of(alloc, &scope.universals)?,
        region: list_of(alloc, &scope.region)?,
        waiting: copy_remainders(alloc, &scope.waiting)?,
        before: Lines::new(alloc),
    })
}

/// Copies of the covers.
#[tactic(auto, using(crate::proofs::CoverLemmas::taken_more, crate::proofs::CoverLemmas::all_taken))]
pub(crate) fn copies(alloc: Global, scopes: &[Scope]) -> Result<Covers, Memory>
    ensures { IfOk result (λ made. made ≡ covers_from 1 scopes.now) }
{
    let mut made = Covers::new(alloc);
    let mut at = 0;
    'covers: while at < scopes.len() {
        let depth = at as u64 + 1;
        made.push(copy_cover(alloc, depth, scope_at(scopes, at))?)?;
        at += 1;
    }
    Ok(made)
}

// ---- cases

/// The numbers of the cases, from the last cover to the first.
pub(crate) fn open_cases(alloc: Global, scopes: &[Scope]) -> Result<CaseList, Memory>
    ensures { IfOk result (λ made. made ≡ map (λ s. s.case) (reverse scopes.now)) }
{
    let mut made = CaseList::new(alloc);
    let mut rest = scopes;
    'covers: while let Some((scope, before)) = rest.split_last() {
        made.push(scope.case)?;
        rest = before;
    }
    Ok(made)
}

/// The numbers of the cases of covers that are not plain, from the last cover to the first.
pub(crate) fn cases_around(alloc: Global, scopes: &[Scope]) -> Result<CaseList, Memory>
    ensures { IfOk result (λ made. made ≡ map (λ s. s.case) (filter (λ s. not s.opening.plain) (reverse scopes.now))) }
{
    let mut made = CaseList::new(alloc);
    let mut rest = scopes;
    'covers: while let Some((scope, before)) = rest.split_last() {
        if !scope.opening.plain {
            made.push(scope.case)?;
        }
        rest = before;
    }
    Ok(made)
}
