//! Covers with regions and remainders.
ghost use Rattle.std.specs.Prelude.{◌≡◌, ◌+◌, ◌-◌, [], ◌∷◌, ◌++◌, filter, length, map, nat_le, not, reverse, take, option_copied, option_map, IfOk, OnOk, OnErr};
ghost use Rattle.std.specs.List.{flat_map, list_any};
ghost use Rattle.scasp_forall.specs.Covers.{AreNumbered, new_cover, next_in, on_last, opening_in, parted_alone, resumed, universals_in};
ghost use Rattle.scasp_forall.specs.Inside.Kept.{covers_from, remainder_of};
ghost use Rattle.scasp_forall.specs.Inside.Listed.{listed};
ghost use Rattle.scasp_readings.specs.Readings.{reading};
ghost use Rattle.scasp_search_rules.specs.Successors.Reading.{among, con_vars};
ghost use Rattle.scasp_search_rules.specs.Successors.Replacing.{has_universals};
ghost use Rattle.scasp_search_rules.specs.Successors.Search.{waits};
ghost use Rattle.scasp_search_rules.specs.Successors.Splits.{at_depth, is_number_test};
ghost use Rattle.scasp_search_rules.specs.Successors.Variables.{is_empty};
ghost use Rattle.scasp_trail.specs.Past.{earlier, is_marked, latest};
ghost use Rattle.scasp_unify.specs.Solving.{sub_of};

use crate::chains::list_of;
use crate::listing::{cases_around, copies, open_cases};
use crate::regions::{any_of_covers, any_of_regions, down_to, push_regions};
use crate::scope::{Opening, Rest, Scope, opened, part, scope_at, taken_up};
use scasp_bound::Bound;
use scasp_lines_places::Chain;
use scasp_list::Memory;
use scasp_readings::{Has, TestsNumber};
use scasp_search_rules::{CaseList, Covers, Parting};
use scasp_syntax::{Cons, VarList};
use scasp_trail::Trailed;
use std::alloc::Global;
use std::marker::Model;

/// The open covers, the outermost first, without the lines that were told before their cases. The depth of each is its place,
/// from 1.
pub struct Scopes {
    scopes: Trailed<Scope>,
}

impl Drop for Scopes {
    /// Frees the parts. The crates above call this, and need not prove how each part is freed.
    fn drop(self) {
        let Scopes { scopes } = self;
        drop(scopes);
    }
}

impl Model for Scopes {
    ghost use Rattle.scasp_syntax.specs.TmCode.{coded_tms};
    ghost use Rattle.std.specs.Coded.{codes};
    ghost use Rattle.scasp_search_rules.specs.declared.states.covers.Cover.{Cover};
    ghost use Rattle.scasp_trail.specs.Past.{Past};
    ghost use Rattle.scasp_forall.specs.Inside.Kept.{past_covers};

    ghost Value = { Past Cover };

    ghost coded = { Prim.hlevel (codes, coded_tms) };

    ghost view = { λ s. past_covers s.scopes };
}

impl Scopes {
    /// No covers and no mark; no memory is taken.
    pub fn new(alloc: Global) -> Scopes
        ensures { result ≡ record { now = []; before = [] } }
    {
        Scopes {
            scopes: Trailed::new(alloc),
        }
    }

    /// How many covers are open. The depth of each is its place, from 1.
    #[tactic(auto, using(crate::proofs::CoverLemmas::covers_length, crate::proofs::CoverLemmas::numbered))]
    pub fn depth(&self) -> usize
        ensures count { result ≡ length self.now.now }
        ensures numbered { AreNumbered 1 self.now.now }
    {
        self.scopes.len()
    }

    // ---- the innermost cover

    /// The clause of the innermost cover.
    pub fn opening(&self) -> Option<Opening>
        ensures { result ≡ opening_in (reverse self.now.now) }
    {
        last_opening(self.scopes.as_slice())
    }

    /// Whether a remainder of the innermost cover waits.
    pub fn waits(&self) -> bool
        ensures { result ≡ waits (reverse self.now.now) }
    {
        last_waits(self.scopes.as_slice())
    }

    /// Whether the innermost cover has universal variables.
    pub fn has_universals(&self) -> bool
        ensures { result ≡ has_universals (reverse self.now.now) }
    {
        last_has_universals(self.scopes.as_slice())
    }

    /// The last remainder of the innermost cover, if one waits.
    pub fn next(&self) -> Option<&Rest>
        ensures { option_map remainder_of (option_copied result) ≡ next_in (reverse self.now.now) }
    {
        last_rest(self.scopes.as_slice())
    }

    /// The universal variables of the innermost cover.
    pub fn universals(&self, alloc: Global) -> Result<VarList, Memory>
        ensures { IfOk result (λ xs. xs ≡ universals_in (reverse self.now.now)) }
    {
        last_universals(alloc, self.scopes.as_slice())
    }

    // ---- all covers

    /// The numbers of the cases that are open, that of the innermost cover first.
    #[tactic(auto, using(crate::proofs::OrderLemmas::cases_turned))]
    pub fn open_cases(&self, alloc: Global) -> Result<CaseList, Memory>
        ensures { IfOk result (λ made. made ≡ map (λ c. c.case) (reverse self.now.now)) }
    {
        open_cases(alloc, self.scopes.as_slice())
    }

    /// Those that are of no plain cover.
    #[tactic(auto, using(crate::proofs::OrderLemmas::around_turned))]
    pub fn cases_around(&self, alloc: Global) -> Result<CaseList, Memory>
        ensures { IfOk result (λ made. made ≡ map (λ c. c.case) (filter (λ c. not c.plain) (reverse self.now.now))) }
    {
        cases_around(alloc, self.scopes.as_slice())
    }

    /// Puts the constraints of the regions behind those of a list, the outermost first.
    #[tactic(auto, using(crate::proofs::OrderLemmas::regions_are))]
    pub fn push_regions(&self, alloc: Global, list: &mut Cons) -> Result<(), Memory>
        ensures { OnOk result (list.new ≡ list.old ++ flat_map (λ c. c.region) self.now.now) }
    {
        push_regions(alloc, self.scopes.as_slice(), list)
    }

    /// Whether the variable stands in a constraint of a region or of a remainder, as the bindings read it.
    #[tactic(auto, using(crate::proofs::OrderLemmas::any_constrained))]
    pub fn is_constrained(&self, alloc: Global, bound: &Bound, x: u64) -> Result<bool, Memory>
        ensures { IfOk result (λ stands. stands ≡ list_any (λ c. among x (con_vars (sub_of bound.now.now) c))
            (flat_map (λ c. c.region ++ flat_map (λ r. r.region) c.waiting) (reverse self.now.now))) }
    {
        any_of_covers(alloc, &Has { bound, x }, self.scopes.as_slice())
    }

    /// Whether the test that the variable is a number stands in a region down to this depth, as the bindings read it.
    #[tactic(auto, using(crate::proofs::OrderLemmas::any_down_to))]
    pub fn is_number_by(
        &self,
        alloc: Global,
        bound: &Bound,
        depth: u64,
        x: u64,
    ) -> Result<bool, Memory>
        ensures { IfOk result (λ is. is ≡ list_any (is_number_test (reading bound.now.now) x)
            (flat_map (λ c. c.region) (filter (λ c. nat_le c.depth depth) (reverse self.now.now)))) }
    {
        let scopes = down_to(self.scopes.as_slice(), depth);
        any_of_regions(alloc, &TestsNumber { bound, x }, scopes)
    }

    /// Copies of the covers.
    pub fn covers(&self, alloc: Global) -> Result<Covers, Memory>
        ensures { IfOk result (λ made. made ≡ self.now.now) }
    {
        copies(alloc, self.scopes.as_slice())
    }

    // ---- changes

    /// One more cover, inside the others, with these universal variables; its case has this number.
    #[tactic(auto, using(crate::proofs::CoverLemmas::one_more))]
    pub fn open(
        &mut self,
        alloc: Global,
        opening: Opening,
        case: u64,
        universals: &[u64],
    ) -> Result<(), Memory>
        ensures now { OnOk result (self.new.now ≡ self.old.now ++ new_cover (length self.old.now + 1) opening case universals.now ∷ []) }
        ensures before { self.new.before ≡ self.old.before }
        ensures unchanged { OnErr result (self.new ≡ self.old) }
    {
        let scope = opened(alloc, opening, case, universals)?;
        self.scopes.push(scope)?;
        Ok(())
    }

    /// The case of the cover of this depth is parted, under these bindings.
    pub fn split(
        &mut self,
        alloc: Global,
        depth: u64,
        parting: &Parting,
        bound: &Bound,
    ) -> Result<(), Memory>
        ensures now { OnOk result (self.new.now ≡ at_depth depth (parted_alone parting.now bound.now.now) self.old.now) }
        ensures before { self.new.before ≡ self.old.before }
        ensures unchanged { OnErr result (self.new ≡ self.old) }
    {
        split_in(alloc, &mut self.scopes, depth, parting, bound)
    }

    /// The last remainder of the innermost cover, if one waits, becomes its case, which has this number.
    pub fn take_up(&mut self, case: u64) -> Result<(), Memory>
        ensures now { OnOk result (self.new.now ≡ on_last (resumed case) self.old.now) }
        ensures before { self.new.before ≡ self.old.before }
        ensures unchanged { OnErr result (self.new ≡ self.old) }
    {
        take_up_in(&mut self.scopes, case)
    }

    /// The innermost cover, if there is one, is gone.
    #[tactic(auto, using(crate::proofs::CoverLemmas::covers_taken, crate::proofs::CoverLemmas::covers_length))]
    pub fn close(&mut self) -> Result<(), Memory>
        ensures now { OnOk result (self.new.now ≡ take (length self.old.now - 1) self.old.now) }
        ensures before { self.new.before ≡ self.old.before }
        ensures unchanged { OnErr result (self.new ≡ self.old) }
    {
        self.scopes.pop()?;
        Ok(())
    }

    /// Whether there is a mark.
    #[tactic(auto, using(crate::proofs::CoverLemmas::still_marked))]
    pub fn is_marked(&self) -> bool
        ensures { result ≡ is_marked self.now.before }
    {
        self.scopes.is_marked()
    }

    /// Marks the covers as they are now.
    pub fn mark(&mut self) -> Result<(), Memory>
        ensures now { self.new.now ≡ self.old.now }
        ensures before { OnOk result (self.new.before ≡ self.old.now ∷ self.old.before) }
        ensures unchanged { OnErr result (self.new ≡ self.old) }
    {
        self.scopes.mark()?;
        Ok(())
    }

    /// Makes the covers again what they were at the latest mark, which is taken away; without a mark they stay as they are. No
    /// memory is taken.
    #[tactic(auto, using(crate::proofs::CoverLemmas::covers_latest, crate::proofs::CoverLemmas::covers_earlier))]
    pub fn leave(&mut self)
        ensures now { self.new.now ≡ latest self.old.now self.old.before }
        ensures before { self.new.before ≡ earlier self.old.before }
    {
        self.scopes.leave();
    }
}

/// The clause of the last cover.
#[tactic(auto, using(crate::proofs::CoverLemmas::no_opening, crate::proofs::CoverLemmas::opening_is))]
fn last_opening(scopes: &[Scope]) -> Option<Opening>
    ensures { result ≡ opening_in (reverse (covers_from 1 scopes.now)) }
{
    match scopes.split_last() {
        Some((last, _before)) => Some(last.opening),
        None => None,
    }
}

/// Whether a remainder of the last cover waits.
#[tactic(auto, using(crate::proofs::CoverLemmas::some_waiting, crate::proofs::CoverLemmas::none_waiting))]
fn last_waits(scopes: &[Scope]) -> bool
    ensures { result ≡ waits (reverse (covers_from 1 scopes.now)) }
{
    match last_rest(scopes) {
        Some(_) => true,
        None => false,
    }
}

/// The last remainder of the last cover, if one waits.
#[tactic(auto, using(crate::proofs::CoverLemmas::no_rest, crate::proofs::CoverLemmas::rest_none, crate::proofs::CoverLemmas::rest_is))]
fn last_rest(scopes: &[Scope]) -> Option<&Rest>
    ensures { option_map remainder_of (option_copied result) ≡ next_in (reverse (covers_from 1 scopes.now)) }
{
    let Some((last, _before)) = scopes.split_last() else {
        return None;
    };
    match last.waiting.first() {
        Some((rest, _others)) => Some(rest),
        None => None,
    }
}

/// Whether there is a variable.
#[tactic(auto, using(crate::proofs::ListLemmas::some_variable, crate::proofs::ListLemmas::no_variable))]
fn has_item(chain: &Chain<u64>) -> bool
    ensures { result ≡ not (is_empty (listed chain.now)) }
{
    match chain.first() {
        Some(_) => true,
        None => false,
    }
}

/// Whether the last cover has universal variables.
#[tactic(auto, using(crate::proofs::CoverLemmas::none_universal, crate::proofs::CoverLemmas::some_universal))]
fn last_has_universals(scopes: &[Scope]) -> bool
    ensures { result ≡ has_universals (reverse (covers_from 1 scopes.now)) }
{
    match scopes.split_last() {
        Some((last, _before)) => has_item(&last.universals),
        None => false,
    }
}

/// The universal variables of the last cover.
#[tactic(auto, using(crate::proofs::CoverLemmas::no_universals, crate::proofs::CoverLemmas::universals_are))]
fn last_universals(alloc: Global, scopes: &[Scope]) -> Result<VarList, Memory>
    ensures { IfOk result (λ xs. xs ≡ universals_in (reverse (covers_from 1 scopes.now))) }
{
    match scopes.split_last() {
        Some((last, _before)) => list_of(alloc, &last.universals),
        None => Ok(VarList::new(alloc)),
    }
}

/// The case of the cover of this depth is parted.
#[tactic(auto, using(crate::proofs::CoverLemmas::none_outside, crate::proofs::CoverLemmas::none_inside, crate::proofs::CoverLemmas::changed_at))]
fn split_in(
    alloc: Global,
    scopes: &mut Trailed<Scope>,
    depth: u64,
    parting: &Parting,
    bound: &Bound,
) -> Result<(), Memory>
    ensures now { OnOk result (covers_from 1 scopes.new.now ≡ at_depth depth (parted_alone parting.now bound.now.now) (covers_from 1 scopes.old.now)) }
    ensures before { scopes.new.before ≡ scopes.old.before }
    ensures unchanged { OnErr result (scopes.new ≡ scopes.old) }
{
    if depth == 0 {
        return Ok(());
    }
    let at = (depth - 1) as usize;
    if at >= scopes.len() {
        return Ok(());
    }
    let made = part(alloc, scope_at(scopes.as_slice(), at), parting, bound)?;
    scopes.set(at, made)?;
    Ok(())
}

/// The last remainder of the last cover, if one waits, becomes its case.
#[tactic(auto, using(crate::proofs::CoverLemmas::none_changed, crate::proofs::CoverLemmas::last_kept, crate::proofs::CoverLemmas::last_changed))]
fn take_up_in(scopes: &mut Trailed<Scope>, case: u64) -> Result<(), Memory>
    ensures now { OnOk result (covers_from 1 scopes.new.now ≡ on_last (resumed case) (covers_from 1 scopes.old.now)) }
    ensures before { scopes.new.before ≡ scopes.old.before }
    ensures unchanged { OnErr result (scopes.new ≡ scopes.old) }
{
    let Some((last, _before)) = scopes.as_slice().split_last() else {
        return Ok(());
    };
    let Some(next) = taken_up(last, case)? else {
        return Ok(());
    };
    let at = scopes.len() - 1;
    scopes.set(at, next)
}
