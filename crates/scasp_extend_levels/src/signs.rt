//! The model of the rules of one level, by the two signs.
ghost use Rattle.std.specs.Prelude.{◌≡◌, ◌<◌, ℕ, length, IsTrue, IfOk};
ghost use Rattle.scasp_extend_levels.specs.Scenes.{Means, Scene, inside, read};
ghost use Rattle.scasp_model.specs.Levelled.{minus_by, next_plus, plus_model};
ghost use Rattle.scasp_worklist.specs.Numbered.{has};

use crate::numbered::NumberedClause;
use crate::reducts::reduct;
use crate::standings::Standing;
use scasp_list::Sequence;
use scasp_name::Memory;
use scasp_worklist::{NumberSet, least_set};
use std::alloc::Global;

/// What the rules for atoms with `-` give, where `not a` holds if a is not in the set.
pub(crate) fn minus_by(
    alloc: Global,
    standings: &[Standing],
    rules: &[NumberedClause],
    set: &NumberSet,
) -> Result<NumberSet, Memory>
    ensures { IfOk result (λ made. (s : Scene standings.now rules.now) → Means s (has made) (minus_by s.plus (read s) (inside s (has set.now)))) }
{
    let reduct = reduct(alloc, standings, false, set, rules)?;
    least_set(alloc, &reduct)
}

/// The next atoms with `+`.
fn next_plus(
    alloc: Global,
    standings: &[Standing],
    rules: &[NumberedClause],
    set: &NumberSet,
) -> Result<NumberSet, Memory>
    ensures { IfOk result (λ made. (s : Scene standings.now rules.now) → Means s (has made) (next_plus s.plus (read s) (inside s (has set.now)))) }
{
    let minus = minus_by(alloc, standings, rules, set)?;
    let reduct = reduct(alloc, standings, true, &minus, rules)?;
    least_set(alloc, &reduct)
}

/// Whether the sets have the same of the numbers below the count.
fn are_same_below(count: u64, first: &NumberSet, second: &NumberSet) -> bool
    ensures { IsTrue result → (n : ℕ) → n < count → has first.now n ≡ has second.now n }
{
    for number in 0..count {
        if first.contains(number) != second.contains(number) {
            return false;
        }
    }
    true
}

/// The atoms with `+`, step by step from nothing, until a step gives the same again.
pub(crate) fn plus_model(
    alloc: Global,
    standings: &[Standing],
    rules: &[NumberedClause],
) -> Result<NumberSet, Memory>
    ensures { IfOk result (λ made. (s : Scene standings.now rules.now) → Means s (has made) (plus_model s.plus (read s))) }
{
    let none = Sequence::new(alloc);
    let mut plus = least_set(alloc, &none)?;
    for _step in 0..rules.len() {
        let next = next_plus(alloc, standings, rules, &plus)?;
        if are_same_below(standings.len() as u64, &plus, &next) {
            return Ok(plus);
        }
        plus = next;
    }
    Ok(plus)
}
