//! Pairs of literals.
ghost use Rattle.std.specs.Prelude.{◌≡◌, ◌++◌, IfOk, OnOk};
ghost use Rattle.scasp_checker_rules.specs.PairLists.{equal_args, pair_list};
ghost use Rattle.scasp_checker_rules.specs.Pairs.{is_pair};
ghost use Rattle.scasp_disjoint.specs.Raised.{raising_by};
ghost use Rattle.scasp_lines_walk.specs.Shown.TableView.{told_of};
ghost use Rattle.scasp_syntax.specs.Values.{all_under};

use crate::above::{above_all, above_cons};
use crate::raising::{Raising, push_raised};
use scasp_lines_places::{context, under};
use scasp_lines_walk::Saying;
use scasp_list::Memory;
use scasp_syntax::{Con, Cons, Terms, copy};
use std::alloc::Global;

/// Whether one of the literals is positive and the other negated, and they are of one predicate.
pub fn is_pair(first: &Saying, second: &Saying) -> bool
    ensures { result ≡ is_pair (told_of first.now) (told_of second.now) }
{
    first.positive != second.positive && first.atom.pred() == second.atom.pred()
}

/// Puts the equations at the end that make the first terms equal to the others, which are raised, as far as there are both.
fn push_equations(
    alloc: Global,
    raising: &Raising,
    first: &Terms,
    second: &Terms,
    list: &mut Cons,
) -> Result<(), Memory>
    ensures { OnOk result (list.new ≡ list.old ++ equal_args first.now (all_under (raising_by raising.now) second.now)) }
{
    let others = second.as_slice();
    for (place, term) in first.as_slice().iter().enumerate() {
        if place >= others.len() {
            return Ok(());
        }
        let left = copy(alloc, term)?;
        let right = under(alloc, &others[place], raising)?;
        list.push(Con::Eq(left, right))?;
    }
    Ok(())
}

/// The list of constraints that two literals meet where they have one atom: the context of the first, that of the second
/// with its variables raised above the first, and that the two atoms are one.
pub fn pair_list(
    alloc: Global,
    free: u64,
    given: &[Con],
    first: &Saying,
    second: &Saying,
) -> Result<Cons, Memory>
    ensures { IfOk result (λ made. made ≡ pair_list free given.now (told_of first.now) (told_of second.now)) }
{
    let mut list = context(alloc, given, &first.opened)?;
    let by = above_cons(alloc, list.as_slice())?.max(above_all(alloc, &first.atom.args)?);
    let raising = Raising { free, by };
    let behind = context(alloc, &[], &second.opened)?;
    push_raised(alloc, &raising, behind.as_slice(), &mut list)?;
    push_equations(
        alloc,
        &raising,
        &first.atom.args,
        &second.atom.args,
        &mut list,
    )?;
    Ok(list)
}
