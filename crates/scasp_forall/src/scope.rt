//! An open cover as it is kept.
ghost use Rattle.std.specs.Prelude.{◌≡◌, ◌<◌, ℕ, [], ◌∷◌, ◌++◌, filter, length, slice_get, Some, IfOk, MatchOption};
ghost use Rattle.scasp_forall.specs.Covers.{new_cover, parted_alone, resumed};
ghost use Rattle.scasp_forall.specs.Inside.Kept.{cover_of, remainder_of};
ghost use Rattle.scasp_forall.specs.Inside.Listed.{listed};
ghost use Rattle.scasp_lines_places.specs.Places.Chains.{chained};
ghost use Rattle.scasp_search_rules.specs.Successors.Splits.{is_bound_in, replacement};

use crate::chains::{bound_among, list_of, with_vars};
use scasp_bound::Bound;
use scasp_lines_places::Chain;
use scasp_list::Memory;
use scasp_search_rules::Parting;
use scasp_search_terms::splits::replacement;
use scasp_syntax::{Con, DeepCopy, VarList};
use scasp_unify::Binding;
use std::alloc::Global;

/// The clause of a cover: its number, its first variable, whether its head may be called where all items are true, and whether
/// it has no variable and its head no argument.
#[derive(Clone, Copy)]
pub struct Opening {
    pub clause: u64,
    pub first: u64,
    pub checks_head: bool,
    pub plain: bool,
}

/// The other side of a split, which waits to become the case of its cover.
#[derive(Drop)]
pub struct Rest {
    pub(crate) region: Chain<Con>,
    pub(crate) universals: Chain<u64>,
    /// The universal variables that were replaced at the split.
    pub replaced: VarList,
    /// The universal variable that the other side replaces.
    pub equation: Option<Binding>,
}

/// An open cover. Its depth is its place, and the lines before its case are kept elsewhere.
#[derive(Drop)]
pub(crate) struct Scope {
    pub(crate) opening: Opening,
    /// The number of the present case.
    pub(crate) case: u64,
    pub(crate) universals: Chain<u64>,
    /// What holds of the universal variables in the present case.
    pub(crate) region: Chain<Con>,
    /// The remainders that wait, the last first.
    pub(crate) waiting: Chain<Rest>,
}

/// A cover that is opened, with its first case.
pub(crate) fn opened(
    alloc: Global,
    opening: Opening,
    case: u64,
    universals: &[u64],
) -> Result<Scope, Memory>
    ensures { IfOk result (λ made. (d : ℕ) → cover_of d made ≡ new_cover d opening case universals.now) }
{
    Ok(Scope {
        opening,
        case,
        universals: with_vars(alloc, &Chain::new(), universals)?,
        region: Chain::new(),
        waiting: Chain::new(),
    })
}

/// The other side of a split of the cover.
#[tactic(auto, using(crate::proofs::ListLemmas::one_more))]
fn other_side(
    alloc: Global,
    scope: &Scope,
    parting: &Parting,
    bound: &Bound,
) -> Result<Rest, Memory>
    ensures region { IfOk result (λ made. listed made.region ≡ listed scope.now.region ++ parting.now.there ∷ []) }
    ensures universals { IfOk result (λ made. listed made.universals ≡ listed scope.now.universals ++ parting.now.parts_there) }
    ensures replaced { IfOk result (λ made. made.replaced ≡ filter (is_bound_in bound.now.now) (listed scope.now.universals)) }
    ensures equation { IfOk result (λ made. made.equation ≡ replacement parting.now.there) }
{
    let universals = list_of(alloc, &scope.universals)?;
    Ok(Rest {
        region: scope.region.with(alloc, parting.there.copy(alloc)?)?,
        universals: with_vars(alloc, &scope.universals, parting.parts_there.as_slice())?,
        replaced: bound_among(alloc, bound, universals.as_slice())?,
        equation: replacement(alloc, &parting.there)?,
    })
}

/// The cover whose case is parted: here the constraint holds, and its other side waits.
#[tactic(auto, using(crate::proofs::ScopeLemmas::parted_is))]
pub(crate) fn part(
    alloc: Global,
    scope: &Scope,
    parting: &Parting,
    bound: &Bound,
) -> Result<Scope, Memory>
    ensures { IfOk result (λ made. (d : ℕ) → cover_of d made ≡ parted_alone parting.now bound.now.now (cover_of d scope.now)) }
{
    let rest = other_side(alloc, scope, parting, bound)?;
    let opening = Opening {
        clause: scope.opening.clause,
        first: scope.opening.first,
        checks_head: scope.opening.checks_head,
        plain: false,
    };
    Ok(Scope {
        opening,
        case: scope.case,
        universals: with_vars(alloc, &scope.universals, parting.parts_here.as_slice())?,
        region: scope.region.with(alloc, parting.here.copy(alloc)?)?,
        waiting: scope.waiting.with(alloc, rest)?,
    })
}

/// The cover whose case is its last remainder, if one waits.
#[tactic(auto, using(crate::proofs::ScopeLemmas::resumed_is))]
pub(crate) fn taken_up(scope: &Scope, case: u64) -> Result<Option<Scope>, Memory>
    ensures { IfOk result (λ next. MatchOption next (chained scope.now.waiting ≡ []) (λ made. (d : ℕ) → cover_of d made ≡ resumed case (cover_of d scope.now))) }
{
    match scope.waiting.first() {
        Some((rest, others)) => Ok(Some(Scope {
            opening: scope.opening,
            case,
            universals: rest.universals.share()?,
            region: rest.region.share()?,
            waiting: others.share()?,
        })),
        None => Ok(None),
    }
}

/// The cover at the place.
pub(crate) fn scope_at(scopes: &[Scope], at: usize) -> &Scope
    requires { at < length scopes.now }
    ensures { slice_get scopes.now at ≡ Some result.now }
{
    &scopes[at]
}
