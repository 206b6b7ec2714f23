//! Bodies.
ghost use Rattle.std.specs.Prelude.{◌≡◌, ◌≤◌, [], ◌∷◌, ◌++◌, length, List, nat_eq, nat_lt, OnOk, IfOk};
ghost use Rattle.scasp_syntax.specs.declared.clause.Item.{Item};
ghost use Rattle.std.specs.List.{list_any};
ghost use Rattle.scasp_syntax.specs.Flat.{unseen};
ghost use Rattle.scasp_reader_terms.specs.Steps.{Does};
ghost use Rattle.scasp_reader.specs.Bodies.Bodies.{Counts, counted_linear, counted_item, body};

use crate::bodies::items::item;
use scasp_list::Memory;
use scasp_reader_terms::{Count, Kind, Reader, Stop};
use scasp_reader_tokens::Sign;
use scasp_syntax::{Item, Items, VarList};
use std::alloc::Global;

/// The most flat items that a body may have.
pub const ITEM_LIMIT: usize = 64;

/// The flat items of a body as far as it was read: their number, and the variables that are tested to be
/// numbers. Past the limit no more are counted.
#[derive(Drop)]
pub struct FlatCount {
    number: usize,
    seen: VarList,
}

fn is_among(numbers: &[u64], x: u64) -> bool
    ensures { result ≡ list_any (nat_eq x) numbers.now }
{
    for number in numbers {
        if *number == x {
            return true;
        }
    }
    false
}

/// The number of variables that are not among those seen.
fn unseen_count(seen: &[u64], vars: &[u64]) -> usize
    ensures value { result ≡ length (unseen seen.now vars.now) }
    ensures bound { result ≤ length vars.now }
{
    let mut count = 0;
    for x in vars {
        if !is_among(seen, *x) {
            count += 1;
        }
    }
    count
}

impl FlatCount {
    fn new(alloc: Global) -> FlatCount
        ensures { Counts result [] }
    {
        FlatCount {
            number: 0,
            seen: VarList::new(alloc),
        }
    }

    /// Whether there are more than a body may have.
    fn is_over(&self) -> bool
        ensures { result ≡ nat_lt ITEM_LIMIT self.now.number }
    {
        ITEM_LIMIT < self.number
    }

    /// Counts one more item.
    fn add(&mut self, item: &Item) -> Result<(), Memory>
        ensures { OnOk result ((before : List Item) → Counts self.old before → Counts self.new (before ++ item.now ∷ [])) }
    {
        if self.is_over() {
            return Ok(());
        }
        if let Item::Linear(linear) = item {
            self.add_linear(linear.vars.as_slice())?;
            return Ok(());
        }
        self.number += 1;
        Ok(())
    }

    /// Counts a linear item of these variables.
    fn add_linear(&mut self, vars: &[u64]) -> Result<(), Memory>
        requires { self.old.number ≤ ITEM_LIMIT }
        ensures { OnOk result (self.new ≡ counted_linear vars.now self.old) }
    {
        self.number += unseen_count(self.seen.as_slice(), vars) + 1;
        for x in vars {
            self.seen.push(*x)?;
        }
        Ok(())
    }
}

/// One more item behind those that were counted.
fn counted_item(reader: &mut Reader<'_>, alloc: Global, count: &mut FlatCount) -> Result<Item, Stop>
    ensures item { (before : List Item) → Counts count.old before → Does (λ x. x) (counted_item before) reader.old result reader.new }
    ensures count { IfOk result (λ item. (before : List Item) → Counts count.old before → Counts count.new (before ++ item ∷ [])) }
{
    let at = reader.at();
    let item = item(reader, alloc)?;
    count.add(&item)?;
    reader.note_if(count.is_over(), at, Kind::Limit(Count::Items));
    Ok(item)
}

/// `item {"," item}`
#[tactic(auto, unfolding(crate::specs::Bodies::Bodies::body))]
pub fn body(reader: &mut Reader<'_>, alloc: Global) -> Result<Items, Stop>
    ensures { Does (λ x. x) body reader.old result reader.new }
{
    let mut items = Items::new(alloc);
    let mut count = FlatCount::new(alloc);
    let mut left = reader.left();
    while left > 0 {
        let item = counted_item(reader, alloc, &mut count)?;
        items.push(item)?;
        if !reader.taken(Sign::Comma) {
            return Ok(items);
        }
        left -= 1;
    }
    Err(Stop::At(reader.unexpected()))
}
