//! What is left of the flat body of a clause.
ghost use Rattle.std.specs.Prelude.{◌≡◌, ◌∷◌, ◌++◌, IfOk, OnOk, map};
ghost use Rattle.scasp_frames.specs.Inside.Kept.{items_behind, items_from, left_of, rest_left};
ghost use Rattle.scasp_search_rules.specs.Successors.Items.{item_raised};

use crate::raising::item_raised;
use scasp_list::Memory;
use scasp_search_rules::{Task, Tasks};
use scasp_syntax::FlatItem;
use std::alloc::Global;
use std::rc::Rc;

/// A flat body with an item at least, whose variables are numbered as in its clause.
#[derive(Drop)]
pub(crate) struct Body {
    before: Vec<FlatItem>,
    last: FlatItem,
}

/// The items of a body from a place on, which are to be true.
#[derive(Drop)]
pub(crate) struct Rest {
    body: Rc<Body>,
    /// The place of the next item; each place behind the others is that of the last one.
    place: usize,
    /// The number of the body's first variable.
    first: u64,
}

impl Rest {
    /// The items with their variables from `first` on, if there are any.
    pub(crate) fn of(
        alloc: Global,
        items: Vec<FlatItem>,
        first: u64,
    ) -> Result<Option<Rest>, Memory>
        ensures { IfOk result (λ made. rest_left made ≡ map (item_raised first) items.items) }
    {
        let mut before = items;
        let Some(last) = before.pop() else {
            return Ok(None);
        };
        Ok(Some(Rest {
            body: Rc::new(alloc, Body { before, last })?,
            place: 0,
            first,
        }))
    }

    /// The next item, as it stands in the clause.
    #[tactic(auto, using(crate::proofs::RestLemmas::next_before, crate::proofs::RestLemmas::next_last))]
    pub(crate) fn item(&self) -> &FlatItem
        ensures { items_from self.now.place self.now.body.value ≡ result.now ∷ items_behind self.now.place self.now.body.value }
    {
        let body = self.body.as_ref();
        if self.place < body.before.len() {
            &body.before[self.place]
        } else {
            &body.last
        }
    }

    /// The next item.
    #[tactic(auto, using(crate::proofs::RestLemmas::next_raised))]
    pub(crate) fn next(&self, alloc: Global) -> Result<FlatItem, Memory>
        ensures { IfOk result (λ item. left_of self.now ≡ item ∷ map (item_raised self.now.first) (items_behind self.now.place self.now.body.value)) }
    {
        item_raised(alloc, self.first, self.item())
    }

    /// What is left behind the next item, if anything is.
    #[tactic(auto, using(crate::proofs::RestLemmas::more_behind, crate::proofs::RestLemmas::none_behind))]
    pub(crate) fn behind(&self) -> Result<Option<Rest>, Memory>
        ensures { IfOk result (λ left. rest_left left ≡ map (item_raised self.now.first) (items_behind self.now.place self.now.body.value)) }
    {
        if self.place < self.body.as_ref().before.len() {
            Ok(Some(Rest {
                body: self.body.clone()?,
                place: self.place + 1,
                first: self.first,
            }))
        } else {
            Ok(None)
        }
    }

    /// Puts all that is left behind the tasks.
    #[tactic(auto, using(crate::proofs::RestLemmas::one_less, crate::proofs::RestLemmas::only_last))]
    pub(crate) fn push_shows(&self, alloc: Global, made: &mut Tasks) -> Result<(), Memory>
        ensures { OnOk result (made.new ≡ made.old ++ map Task.Show (left_of self.now)) }
    {
        let body = self.body.as_ref();
        let mut place = self.place;
        'items: while place < body.before.len() {
            let item = item_raised(alloc, self.first, &body.before[place])?;
            made.push(Task::Show(item))?;
            place += 1;
        }
        made.push(Task::Show(item_raised(alloc, self.first, &body.last)?))
    }
}
