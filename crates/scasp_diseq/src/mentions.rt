//! Mentions of variables in the order noted, found by variable.
ghost use Rattle.std.specs.Prelude.{◌≡◌, ◌+◌, ◌-◌, ℕ, ◌<◌, ◌≤◌, [], ◌∷◌, ◌++◌, length, take, slice_get, nat_eq, Some, reverse, OnOk, OnErr, IfOk, IsSome, if◌then◌else◌};
ghost use Rattle.std.specs.HashMap.{get};
ghost use Rattle.scasp_diseq.specs.Inside.Chains.{latest_of, places_of};
ghost use Rattle.scasp_diseq.specs.Inside.Noting.{Notes, ends_with};

use scasp_cells::Cells;
use scasp_list::Memory;
use std::alloc::Global;
use std::collections::HashMap;
use std::marker::Model;

/// That a variable stands in the constraint at a place.
#[derive(Clone, Copy, Debug)]
pub(crate) struct Mention {
    pub(crate) variable: u64,
    pub(crate) place: u64,
    /// The mention of the variable before this one.
    pub(crate) before: Option<u64>,
}

/// Mentions in the order noted, those of each variable in a chain.
#[derive(Drop)]
pub(crate) struct Mentions {
    trail: Cells<Mention>,
    /// The latest mention of each variable.
    latest: HashMap<u64, u64>,
}

impl Model for Mentions {
    ghost use Rattle.std.specs.Prelude.{List};
    ghost use Rattle.scasp_diseq.specs.declared.mentions.Mention.{Mention as ThisMention};
    ghost use Rattle.scasp_diseq.specs.Inside.Chains.{IsChained, Leads};
    ghost use Rattle.std.specs.Prelude.{nat_eq};
    ghost use Rattle.std.specs.HashMap.{get};

    ghost Value = { List ThisMention };

    ghost view = { λ m. m.trail.items };

    ghost invariant = { λ m. IsChained m.trail.items × Leads (get nat_eq m.latest) m.trail.items };
}

impl Mentions {
    /// No mentions; no memory is taken.
    pub(crate) fn new(alloc: Global) -> Mentions
        ensures { result ≡ [] }
    {
        Mentions {
            trail: Cells::new(alloc),
            latest: HashMap::new(alloc),
        }
    }

    /// The number of mentions.
    pub(crate) fn len(&self) -> u64
        ensures { result ≡ length self.now }
    {
        self.trail.len()
    }

    /// The latest mention of the variable.
    pub(crate) fn latest(&self, x: u64) -> Option<u64>
        ensures { result ≡ latest_of x self.now }
    {
        self.latest.get(&x).copied()
    }

    /// The mention of this number.
    pub(crate) fn get(&self, at: u64) -> Mention
        requires { at < length self.now }
        ensures mention { slice_get self.now at ≡ Some result }
        ensures before { result.before ≡ latest_of result.variable (take at self.now) }
    {
        *self.trail.get(at)
    }

    /// Whether the latest mention of the variable is one at this place.
    fn is_noted(&self, x: u64, place: u64) -> bool
        ensures { result ≡ ends_with place (places_of x self.now) }
    {
        match self.latest(x) {
            Some(at) => self.get(at).place == place,
            None => false,
        }
    }

    /// Notes that the variable stands in the constraint at the place, unless that was the last that was noted of it.
    pub(crate) fn note(&mut self, x: u64, place: u64) -> Result<(), Memory>
        ensures begins { take (length self.old) self.new ≡ self.old }
        ensures noted { OnOk result (Notes place (λ y. nat_eq y x) self.old self.new) }
        ensures unchanged { OnErr result (self.new ≡ self.old) }
    {
        if self.is_noted(x, place) {
            return Ok(());
        }
        let before = self.latest(x);
        self.push(Mention {
            variable: x,
            place,
            before,
        })
    }

    /// Puts the mention at the end.
    fn push(&mut self, mention: Mention) -> Result<(), Memory>
        requires { mention.before ≡ latest_of mention.variable self.old }
        ensures ok { OnOk result (self.new ≡ self.old ++ mention ∷ []) }
        ensures err { OnErr result (self.new ≡ self.old) }
    {
        self.trail.make_room()?;
        let at = self.trail.len();
        self.latest.insert(mention.variable, at)?;
        self.trail.push_reserved(mention);
        Ok(())
    }

    /// The places of the mentions of the variable, the latest first.
    pub(crate) fn places(&self, alloc: Global, x: u64) -> Result<Vec<u64>, Memory>
        ensures { IfOk result (λ made. reverse made.items ≡ places_of x self.now) }
    {
        let mut made = Vec::new(alloc);
        let mut next = self.latest(x);
        while let Some(at) = next {
            let mention = self.get(at);
            made.push(mention.place)?;
            next = mention.before;
        }
        Ok(made)
    }

    /// Takes back the latest mentions, until `count` are left. No memory is taken.
    pub(crate) fn take_back(&mut self, count: u64)
        ensures { self.new ≡ take count self.old }
    {
        while self.trail.len() > count {
            self.take_back_latest();
        }
    }

    /// Takes back the latest mention.
    fn take_back_latest(&mut self)
        requires { 0 < length self.old }
        ensures { self.new ≡ take (length self.old - 1) self.old }
    {
        let last = self.trail.len() - 1;
        let mention = *self.trail.get(last);
        self.trail.rewind(last);
        restore(&mut self.latest, mention);
    }
}

/// The mention before this one becomes the latest one of its variable. The variable is there, so no memory is taken.
fn restore(latest: &mut HashMap<u64, u64>, mention: Mention)
    requires { IsSome (get nat_eq latest.old mention.variable) }
    ensures { (x : ℕ) → get nat_eq latest.new x ≡ (if nat_eq mention.variable x then mention.before else get nat_eq latest.old x) }
{
    match mention.before {
        Some(before) => {
            if let Some(at) = latest.get_mut(&mention.variable) {
                *at = before;
            }
        }
        None => {
            let _at = latest.remove(&mention.variable);
        }
    }
}
