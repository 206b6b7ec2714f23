//! Notes of the variables of terms.
ghost use Rattle.std.specs.Prelude.{◌≡◌, ◌≤◌, ◌+◌, ◌||◌, ℕ, length, take, OnOk};
ghost use Rattle.scasp_syntax.specs.Tm.{weight_s};
ghost use Rattle.scasp_syntax.specs.View.{tm_of, tms_of};
ghost use Rattle.scasp_unify.specs.Parts.{occurs, occurs_among};
ghost use Rattle.scasp_diseq.specs.Inside.Noting.{Notes, Seen};
ghost use Rattle.scasp_diseq.specs.Inside.Unseen.{any_unseen, work};

use crate::mentions::Mentions;
use scasp_list::Memory;
use scasp_syntax::{Term, Terms};
use std::alloc::Global;

/// Notes each variable of the two terms, as standing at the place.
pub(crate) fn note_sides(
    alloc: Global,
    mentions: &mut Mentions,
    place: u64,
    left: &Term,
    right: &Term,
) -> Result<(), Memory>
    ensures begins { take (length mentions.old) mentions.new ≡ mentions.old }
    ensures noted { OnOk result (Notes place (λ y. occurs y (tm_of left.now) || occurs y (tm_of right.now)) mentions.old mentions.new) }
{
    note_term(alloc, mentions, place, left)?;
    note_term(alloc, mentions, place, right)
}

/// Notes each variable of the term.
fn note_term(alloc: Global, mentions: &mut Mentions, place: u64, term: &Term) -> Result<(), Memory>
    ensures begins { take (length mentions.old) mentions.new ≡ mentions.old }
    ensures noted { OnOk result (Notes place (λ y. occurs y (tm_of term.now)) mentions.old mentions.new) }
{
    match term {
        Term::Var(x) => mentions.note(*x, place),
        Term::Num(_) => Ok(()),
        Term::App(_, args) => note_terms(alloc, mentions, place, args),
    }
}

/// Notes each variable of the terms, with a list of what is still to be seen.
fn note_terms(
    alloc: Global,
    mentions: &mut Mentions,
    place: u64,
    terms: &Terms,
) -> Result<(), Memory>
    ensures begins { take (length mentions.old) mentions.new ≡ mentions.old }
    ensures noted { OnOk result (Notes place (λ y. occurs_among y terms.now) mentions.old mentions.new) }
{
    let mut unseen: Vec<&[Term]> = Vec::new(alloc);
    unseen.push(terms.as_slice())?;
    while let Some(list) = unseen.pop() {
        note_list(mentions, place, &mut unseen, list)?;
    }
    Ok(())
}

/// Notes the terms of the list that are variables, and puts off the arguments of the others.
fn note_list<'a>(
    mentions: &mut Mentions,
    place: u64,
    unseen: &mut Vec<&'a [Term]>,
    list: &'a [Term],
) -> Result<(), Memory>
    ensures begins { take (length mentions.old) mentions.new ≡ mentions.old }
    ensures noted { OnOk result (Seen place (λ y. any_unseen y unseen.old.items || occurs_among y (tms_of list.now)) (λ y. any_unseen y unseen.new.items) mentions.old mentions.new) }
    ensures work { OnOk result (work unseen.new.items ≤ work unseen.old.items + weight_s (tms_of list.now)) }
{
    for term in list {
        match term {
            Term::Var(x) => mentions.note(*x, place)?,
            Term::Num(_) => {}
            Term::App(_, args) => unseen.push(args.as_slice())?,
        }
    }
    Ok(())
}
