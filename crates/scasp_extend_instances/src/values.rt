//! Values of variables.
ghost use Rattle.std.specs.Prelude.{◌≡◌, ◌+◌, ◌∷◌, List, IfOk, MatchOption};
ghost use Rattle.scasp_extend_instances.specs.Within as spec;
ghost use Rattle.scasp_extend_instances.specs.Values.{valued};
ghost use Rattle.scasp_extend_instances.specs.View.{way_of};
ghost use Rattle.scasp_lines.specs.Opened.{Opened};
ghost use Rattle.scasp_lines.specs.Ways.{set_to};
ghost use Rattle.scasp_lines_places.specs.Places.View.{all_opened, opened_of};
ghost use Rattle.scasp_num.specs.Number.{zero_number};
ghost use Rattle.scasp_syntax.specs.Tm.{items, num};
ghost use Rattle.scasp_syntax.specs.View.{tm_of};

use scasp_lines_places::{Chain, Entry, Substitution, bound_to};
use scasp_list::Memory;
use scasp_num::Rat;
use scasp_syntax::{Term, Terms, copy};
use scasp_unify::Binding;
use std::alloc::Global;

/// A value for each variable: the free ones have the terms at their places, others what is bound to them, the last that was bound
/// first, and else 0. Ways share what was bound before.
#[derive(Drop)]
pub struct Way<'a> {
    pub(crate) free: &'a Terms,
    pub(crate) bound: Chain<Binding>,
}

/// The number 0.
pub(crate) fn zero() -> Rat
    ensures { result ≡ zero_number }
{
    match Rat::new(0, 1) {
        Ok(zero) => zero,
        Err(_) => unreachable!(),
    }
}

/// The value of a free variable, where there is one.
fn free_value(free: &Terms, x: u64) -> Option<&Term>
    ensures { MatchOption result (valued (items free.now) x ≡ num zero_number) (λ t. tm_of t.now ≡ valued (items free.now) x) }
{
    free.get(x as usize)
}

impl<'a> Way<'a> {
    /// The values of the free variables alone. It takes no memory.
    pub fn of(free: &'a Terms) -> Way<'a>
        ensures { way_of result ≡ valued (items free.now) }
    {
        Way {
            free,
            bound: Chain::new(),
        }
    }

    /// The same values. It takes no memory.
    pub(crate) fn share(&self) -> Result<Way<'a>, Memory>
        ensures { IfOk result (λ made. way_of made ≡ way_of self.now) }
    {
        Ok(Way {
            free: self.free,
            bound: self.bound.share()?,
        })
    }

    /// The values with this one for the variable.
    pub(crate) fn with(&self, alloc: Global, x: u64, value: &Term) -> Result<Way<'a>, Memory>
        ensures { IfOk result (λ made. way_of made ≡ set_to (way_of self.now) x (tm_of value.now)) }
    {
        let term = copy(alloc, value)?;
        Ok(Way {
            free: self.free,
            bound: self.bound.with(alloc, Binding { x, term })?,
        })
    }

    /// The value of the variable; none where it has 0 since nothing was bound to it.
    pub(crate) fn term(&self, x: u64) -> Option<&Term>
        ensures { MatchOption result (way_of self.now x ≡ num zero_number) (λ t. tm_of t.now ≡ way_of self.now x) }
    {
        match bound_to(&self.bound, x) {
            Some(term) => Some(term),
            None => free_value(self.free, x),
        }
    }
}

impl Substitution for Way<'_> {
    ghost use Rattle.scasp_extend_instances.specs.View.{way_of};

    ghost gives = { way_of };

    fn value(&self, alloc: Global, x: u64) -> Result<Term, Memory> {
        match self.term(x) {
            Some(term) => copy(alloc, term),
            None => Ok(Term::Num(zero())),
        }
    }
}

/// 1 of a clause variable, else 0.
fn ranging_here(entry: &Entry) -> u64
    ensures { (os : List Opened) → spec.ranging (opened_of entry.now ∷ os) ≡ result + spec.ranging os }
{
    match entry {
        Entry::Ranges(_) => 1,
        Entry::Shaped { .. } | Entry::Assumed(_) => 0,
    }
}

/// How many clause variables are among what opened.
pub fn ranging(opened: &Chain<Entry>) -> Result<u64, Memory>
    ensures { IfOk result (λ count. count ≡ spec.ranging (all_opened opened.now)) }
{
    let mut count = 0u64;
    let mut rest = opened;
    while let Some((entry, outer)) = rest.first() {
        count = count.checked_add(ranging_here(entry)).ok_or(Memory)?;
        rest = outer;
    }
    Ok(count)
}
