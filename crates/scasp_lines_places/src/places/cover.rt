//! What opens for the other variables of a clause: a universal variable for each that its head bound to nothing.
ghost use Rattle.std.specs.Prelude.{◌≡◌, IfOk, OnOk};
ghost use Rattle.scasp_lines.specs.Covers.{covering, with_universal};
ghost use Rattle.scasp_lines.specs.Openings.{bound_to};
ghost use Rattle.scasp_lines_places.specs.Places.View.{all_bound, cover_of, opening_of};

use crate::places::chain::Chain;
use crate::places::opening::Opening;
use crate::places::place::Entry;
use crate::places::substitution::bound_to;
use scasp_list::Memory;
use scasp_syntax::Term;
use scasp_unify::Binding;
use std::alloc::Global;

/// What the variables of a clause stand for, what opened, and the number of the next universal variable.
#[derive(Drop)]
pub struct Cover {
    pub bound: Chain<Binding>,
    pub opened: Chain<Entry>,
    pub next: u64,
}

/// The variable gets a universal one where it stands for nothing yet.
fn with_universal(alloc: Global, x: u64, cover: &mut Cover) -> Result<(), Memory>
    ensures { OnOk result (cover_of cover.new ≡ with_universal (bound_to (all_bound cover.old.bound) x) x (cover_of cover.old)) }
{
    if bound_to(&cover.bound, x).is_some() {
        return Ok(());
    }
    let next = cover.next;
    cover.next = next.checked_add(1).ok_or(Memory)?;
    cover.bound = cover.bound.with(
        alloc,
        Binding {
            x,
            term: Term::Var(next),
        },
    )?;
    cover.opened = cover.opened.with(alloc, Entry::Ranges(next))?;
    Ok(())
}

/// The cover of a clause with `vars` variables, behind what its head opened.
#[tactic(auto, using(crate::proofs::PlacesLemmas::CoverLemmas::universals_step))]
pub fn covering(alloc: Global, vars: u64, next: u64, opening: Opening) -> Result<Cover, Memory>
    ensures { IfOk result (λ made. cover_of made ≡ covering vars next (opening_of opening)) }
{
    let mut cover = Cover {
        bound: opening.bound.share()?,
        opened: opening.opened.share()?,
        next,
    };
    for x in 0..vars {
        with_universal(alloc, x, &mut cover)?;
    }
    Ok(cover)
}
