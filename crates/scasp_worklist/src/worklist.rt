//! The least set that rules over numbers give.
ghost use Rattle.std.specs.Prelude.{◌≡◌, ◌<◌, length, map, slice_get, slice_set, Some, IfOk, OnOk};
ghost use Rattle.scasp_worklist.specs.Inside.Closing.{state_of, rule_entry, begun, unknown_from, reached, awaited, placed, all_placed, woken, highest_from, highest_in};
ghost use Rattle.scasp_worklist.specs.Numbered.{IsLeast, has};

use crate::numbered::{NumberSet, NumberedRules, is_marked};
use scasp_list::{Memory, Sequence};
use std::alloc::Global;
use std::mem;

/// A rule that waits for a number of its body: its head, and its body behind that number.
#[derive(Drop)]
pub(crate) struct Waiting<'a> {
    pub(crate) head: u64,
    pub(crate) rest: &'a [u64],
}

/// The numbers that are known, those of them whose waiting rules are still to be gone through, and the rules that wait, by number.
#[derive(Drop)]
pub(crate) struct Closing<'a> {
    pub(crate) known: Vec<bool>,
    pub(crate) queue: Vec<u64>,
    pub(crate) waiting: Vec<Sequence<Waiting<'a>>>,
}

/// The least set that is closed under the rules, in time linear in the rules: each rule waits for one number of its body at a time
/// (after Dowling and Gallier 1984). It takes a byte and a list for each number up to the highest.
pub fn least_set(alloc: Global, rules: &NumberedRules) -> Result<NumberSet, Memory>
    ensures { IfOk result (λ set. IsLeast rules.now (has set)) }
{
    let Some(count) = highest(rules).checked_add(1) else {
        return Err(Memory);
    };
    let mut closing = started(alloc, rules, count as usize)?;
    while let Some(number) = closing.queue.pop() {
        closing.wake(alloc, number)?;
    }
    let Closing {
        known,
        queue: _queue,
        waiting: _waiting,
    } = closing;
    Ok(NumberSet::from_marks(known))
}

/// All rules are placed, where their numbers are below `count`.
fn started<'a>(alloc: Global, rules: &'a NumberedRules, count: usize) -> Result<Closing<'a>, Memory>
    ensures { IfOk result (λ made. state_of made ≡ all_placed (begun count) (map rule_entry rules.now)) }
{
    let mut closing = Closing::new(alloc, count)?;
    for rule in rules.as_slice() {
        closing.place(alloc, rule.head, rule.body.as_slice())?;
    }
    Ok(closing)
}

/// The highest number of the rules, or 0.
fn highest(rules: &NumberedRules) -> u64
    ensures { result ≡ highest_in 0 rules.now }
{
    let mut most = 0;
    for rule in rules.as_slice() {
        most = highest_of(rule.body.as_slice(), most.max(rule.head));
    }
    most
}

/// The highest of the numbers and `least`.
fn highest_of(numbers: &[u64], least: u64) -> u64
    ensures { result ≡ highest_from least numbers.now }
{
    let mut most = least;
    for number in numbers {
        most = most.max(*number);
    }
    most
}

/// Puts the item in the place of the one at `at`, which is returned.
fn replace_at<T>(items: &mut Vec<T>, at: usize, item: T) -> T
    requires { at < length items.old.items }
    ensures old { slice_get items.old.items at ≡ Some result }
    ensures items { items.new.items ≡ slice_set items.old.items at item }
{
    mem::replace(&mut items[at], item)
}

/// The body from its first unknown number on.
fn unknown_from<'a>(known: &[bool], body: &'a [u64]) -> &'a [u64]
    ensures { result.now ≡ unknown_from known.now body.now }
{
    let mut rest = body;
    while let Some((number, others)) = rest.split_first() {
        if !is_marked(known, *number) {
            return rest;
        }
        rest = others;
    }
    rest
}

impl<'a> Closing<'a> {
    /// Nothing is known of `count` numbers.
    fn new(alloc: Global, count: usize) -> Result<Closing<'a>, Memory>
        ensures { IfOk result (λ made. state_of made ≡ begun count) }
    {
        let mut known = Vec::with_capacity(alloc, count)?;
        let mut waiting = Vec::with_capacity(alloc, count)?;
        for _number in 0..count {
            known.push(false)?;
            waiting.push(Sequence::new(alloc))?;
        }
        Ok(Closing {
            known,
            queue: Vec::new(alloc),
            waiting,
        })
    }

    /// Makes the number known.
    fn reach(&mut self, number: u64) -> Result<(), Memory>
        ensures { OnOk result (state_of self.new ≡ reached (state_of self.old) number) }
    {
        if (number as usize) < self.known.len() && !self.known[number as usize] {
            self.known[number as usize] = true;
            self.queue.push(number)?;
        }
        Ok(())
    }

    /// Has the rule of this head, and of this rest of its body, wait for the number.
    fn wait(&mut self, alloc: Global, number: u64, head: u64, rest: &'a [u64]) -> Result<(), Memory>
        ensures { OnOk result (state_of self.new ≡ awaited (state_of self.old) number (head, rest.now)) }
    {
        if (number as usize) < self.waiting.len() {
            let mut rules = replace_at(&mut self.waiting, number as usize, Sequence::new(alloc));
            rules.push(Waiting { head, rest })?;
            let _ = replace_at(&mut self.waiting, number as usize, rules);
        }
        Ok(())
    }

    /// Makes the head known where all of the body is, else has the rule wait for the first number that is not.
    fn place(&mut self, alloc: Global, head: u64, body: &'a [u64]) -> Result<(), Memory>
        ensures { OnOk result (state_of self.new ≡ placed (state_of self.old) (head, body.now)) }
    {
        let rest = unknown_from(self.known.as_slice(), body);
        match rest.split_first() {
            Some((number, rest)) => self.wait(alloc, *number, head, rest),
            None => self.reach(head),
        }
    }

    /// Goes through the rules that wait for a known number.
    fn wake(&mut self, alloc: Global, number: u64) -> Result<(), Memory>
        ensures { OnOk result (state_of self.new ≡ woken (state_of self.old) number) }
    {
        if (number as usize) >= self.waiting.len() {
            return Ok(());
        }
        let rules = replace_at(&mut self.waiting, number as usize, Sequence::new(alloc));
        for rule in rules.as_slice() {
            self.place(alloc, rule.head, rule.rest)?;
        }
        Ok(())
    }
}
