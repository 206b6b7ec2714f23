//! Kinds and depths of variables by number.
ghost use Rattle.std.specs.Prelude.{◌≡◌, [], ◌∷◌, ◌++◌, Some, length, replicate, slice_get, slice_set, IfOk, OnOk, OnErr};
ghost use Rattle.scasp_search_rules.specs.Successors.Cases.{universals_at};
ghost use Rattle.scasp_search_rules.specs.Successors.Variables.{is_kind_existential, is_kind_universal, lower, lowered, made_or};
ghost use Rattle.scasp_trail.specs.Past.{earlier, is_marked, latest};

use scasp_list::Memory;
use scasp_search_rules::{Kind, Made};
use scasp_trail::Trailed;
use std::alloc::Global;
use std::marker::Model;

/// What is made of each variable, in the order of their numbers.
pub struct Variables {
    made: Trailed<Made>,
}

impl Drop for Variables {
    /// Frees the parts. The crates above call this, and need not prove how each part is freed.
    fn drop(self) {
        let Variables { made } = self;
        drop(made);
    }
}

impl Model for Variables {
    ghost use Rattle.scasp_search_rules.specs.declared.states.state.Made.{Made};
    ghost use Rattle.scasp_trail.specs.Past.{Past};

    ghost Value = { Past Made };

    ghost view = { λ v. v.made };
}

impl Variables {
    /// No variables and no mark; no memory is taken.
    pub fn new(alloc: Global) -> Variables
        ensures { result ≡ record { now = []; before = [] } }
    {
        Variables {
            made: Trailed::new(alloc),
        }
    }

    /// What is made of each variable.
    pub fn as_slice(&self) -> &[Made]
        ensures { result.now ≡ self.now.now }
    {
        self.made.as_slice()
    }

    /// The number that the next variable gets.
    pub fn next_variable(&self) -> u64
        ensures { result ≡ length self.now.now }
    {
        self.made.len() as u64
    }

    /// The kind and the depth of the variable.
    pub fn made_at(&self, x: u64) -> Made
        ensures { result ≡ made_or (slice_get self.now.now x) }
    {
        made_or(self.made.as_slice(), x)
    }

    /// How many covers the value of the variable may depend on.
    pub fn depth_of(&self, x: u64) -> u64
        ensures { result ≡ (made_or (slice_get self.now.now x)).depth }
    {
        made_or(self.made.as_slice(), x).depth
    }

    /// Whether the variable is universal.
    pub fn is_universal(&self, x: u64) -> bool
        ensures { result ≡ is_kind_universal (made_or (slice_get self.now.now x)).kind }
    {
        is_kind_universal(made_or(self.made.as_slice(), x).kind)
    }

    /// Makes so many variables of this kind and depth.
    pub fn make(&mut self, kind: Kind, depth: u64, count: u64) -> Result<(), Memory>
        ensures now { OnOk result (self.new.now ≡ self.old.now ++ replicate count (record { kind = kind; depth = depth })) }
        ensures before { self.new.before ≡ self.old.before }
    {
        push_new(&mut self.made, Made { kind, depth }, count)?;
        Ok(())
    }

    /// The existential variables among these get at most this depth.
    pub fn lower(&mut self, depth: u64, xs: &[u64]) -> Result<(), Memory>
        ensures now { OnOk result (self.new.now ≡ lowered depth xs.now self.old.now) }
        ensures before { self.new.before ≡ self.old.before }
    {
        lower_each(&mut self.made, depth, xs)?;
        Ok(())
    }

    /// These variables become universal, of this depth.
    pub fn become_universal(&mut self, depth: u64, xs: &[u64]) -> Result<(), Memory>
        ensures now { OnOk result (self.new.now ≡ universals_at depth xs.now self.old.now) }
        ensures before { self.new.before ≡ self.old.before }
    {
        raise_each(&mut self.made, depth, xs)?;
        Ok(())
    }

    /// Whether there is a mark.
    pub fn is_marked(&self) -> bool
        ensures { result ≡ is_marked self.now.before }
    {
        self.made.is_marked()
    }

    /// Marks the variables as they are now.
    pub fn mark(&mut self) -> Result<(), Memory>
        ensures now { self.new.now ≡ self.old.now }
        ensures before { OnOk result (self.new.before ≡ self.old.now ∷ self.old.before) }
        ensures unchanged { OnErr result (self.new ≡ self.old) }
    {
        self.made.mark()?;
        Ok(())
    }

    /// Makes the variables again what they were at the latest mark, which is taken away; without a mark they stay as they
    /// are. No memory is taken.
    pub fn leave(&mut self)
        ensures now { self.new.now ≡ latest self.old.now self.old.before }
        ensures before { self.new.before ≡ earlier self.old.before }
    {
        self.made.leave();
    }
}

fn is_kind_universal(kind: Kind) -> bool
    ensures { result ≡ is_kind_universal kind }
{
    match kind {
        Kind::Universal => true,
        Kind::Existential | Kind::Matched => false,
    }
}

fn is_kind_existential(kind: Kind) -> bool
    ensures { result ≡ is_kind_existential kind }
{
    match kind {
        Kind::Existential => true,
        Kind::Universal | Kind::Matched => false,
    }
}

/// What is made of the variable where it gets at most this depth, if it is existential.
fn lower(depth: u64, made: Option<Made>) -> Made
    ensures { result ≡ lower depth made }
{
    match made {
        Some(found) => lower_made(depth, found),
        None => Made {
            kind: Kind::Existential,
            depth,
        },
    }
}

fn lower_made(depth: u64, made: Made) -> Made
    ensures { result ≡ lower depth (Some made) }
{
    if is_kind_existential(made.kind) {
        Made {
            kind: made.kind,
            depth: made.depth.min(depth),
        }
    } else {
        made
    }
}

/// Another one in the place of this variable, if there is one of this number.
#[tactic(auto, using(std::proofs::lemmas::List::set_past))]
fn put_at(made: &mut Trailed<Made>, x: u64, other: Made) -> Result<(), Memory>
    ensures now { OnOk result (made.new.now ≡ slice_set made.old.now x other) }
    ensures before { made.new.before ≡ made.old.before }
{
    let place = x as usize;
    if place < made.len() {
        made.set(place, other)?;
    }
    Ok(())
}

/// The variable gets at most this depth, if it is existential.
fn lower_at(made: &mut Trailed<Made>, depth: u64, x: u64) -> Result<(), Memory>
    ensures now { OnOk result (made.new.now ≡ slice_set made.old.now x (lower depth (slice_get made.old.now x))) }
    ensures before { made.new.before ≡ made.old.before }
{
    let lowered = lower(depth, made_at(made.as_slice(), x));
    put_at(made, x, lowered)?;
    Ok(())
}

/// What is made of the variable, if there is one of this number.
fn made_at(made: &[Made], x: u64) -> Option<Made>
    ensures { result ≡ slice_get made.now x }
{
    made.get(x as usize).copied()
}

/// What is made of the variable; one that is not there counts as an existential of depth 0.
fn made_or(made: &[Made], x: u64) -> Made
    ensures { result ≡ made_or (slice_get made.now x) }
{
    match made_at(made, x) {
        Some(found) => found,
        None => Made {
            kind: Kind::Existential,
            depth: 0,
        },
    }
}

/// Makes so many variables alike.
fn push_new(made: &mut Trailed<Made>, new: Made, count: u64) -> Result<(), Memory>
    ensures now { OnOk result (made.new.now ≡ made.old.now ++ replicate count new) }
    ensures before { made.new.before ≡ made.old.before }
{
    for _ in 0..count {
        made.push(new)?;
    }
    Ok(())
}

/// The existential variables among these get at most this depth.
fn lower_each(made: &mut Trailed<Made>, depth: u64, xs: &[u64]) -> Result<(), Memory>
    ensures now { OnOk result (made.new.now ≡ lowered depth xs.now made.old.now) }
    ensures before { made.new.before ≡ made.old.before }
{
    for x in xs {
        lower_at(made, depth, *x)?;
    }
    Ok(())
}

/// These variables become universal, of this depth.
fn raise_each(made: &mut Trailed<Made>, depth: u64, xs: &[u64]) -> Result<(), Memory>
    ensures now { OnOk result (made.new.now ≡ universals_at depth xs.now made.old.now) }
    ensures before { made.new.before ≡ made.old.before }
{
    for x in xs {
        let universal = Made {
            kind: Kind::Universal,
            depth,
        };
        put_at(made, *x, universal)?;
    }
    Ok(())
}
