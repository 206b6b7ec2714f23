//! Pairs of terms: what two terms come to when names and arguments are taken apart.
ghost use Rattle.std.specs.Prelude.{◌≡◌, ◌<◌, [], ◌∷◌, ◌++◌, IfOk, OnOk};
ghost use Rattle.scasp_syntax.specs.Tm.{weight, weight_s};
ghost use Rattle.scasp_syntax.specs.View.{tm_of, tms_of};
ghost use Rattle.scasp_search_rules.specs.Successors.Pairs.{all_pairs_of, from_first, pair, pairs, pairs_of};
ghost use Rattle.scasp_search_terms.specs.Lists.{pairs_in};

use scasp_list::Memory;
use scasp_search_rules::{Pair, Pairs};
use scasp_syntax::{DeepCopy, Term, Terms, copy};
use std::alloc::Global;

fn pair(alloc: Global, left: &Term, right: &Term) -> Result<Pair, Memory>
    ensures { IfOk result (λ made. made ≡ pair (tm_of left.now) (tm_of right.now)) }
{
    Ok(Pair {
        left: copy(alloc, left)?,
        right: copy(alloc, right)?,
    })
}

fn push_pair(alloc: Global, left: &Term, right: &Term, found: &mut Pairs) -> Result<(), Memory>
    ensures { OnOk result (found.new ≡ found.old ++ pair (tm_of left.now) (tm_of right.now) ∷ []) }
{
    found.push(pair(alloc, left, right)?)
}

/// The pairs of two lists of arguments, up to the end of the shorter.
pub fn pairs(alloc: Global, left: &Terms, right: &Terms) -> Result<Pairs, Memory>
    ensures { IfOk result (λ made. made ≡ pairs left.now right.now) }
{
    let mut made = Pairs::new(alloc);
    let others = right.as_slice();
    for (place, term) in left.as_slice().iter().enumerate() {
        if place < others.len() {
            push_pair(alloc, term, &others[place], &mut made)?;
        }
    }
    Ok(made)
}

/// Puts the pair of two terms behind those found before, unless they are the same variable or number. Where they have the same
/// name and as many arguments, it gives these instead.
fn push_outer<'a>(
    alloc: Global,
    left: &'a Term,
    right: &'a Term,
    found: &mut Pairs,
) -> Result<(&'a [Term], &'a [Term]), Memory>
    ensures pairs { IfOk result (λ inner. found.new ++ pairs_in inner ≡ found.old ++ pairs_of (tm_of left.now) (tm_of right.now)) }
    ensures lighter { IfOk result (λ inner. weight_s (tms_of inner.0.now) < weight (tm_of left.now)) }
{
    match (left, right) {
        (Term::Var(x), Term::Var(y)) => {
            if x != y {
                push_pair(alloc, left, right, found)?;
            }
        }
        (Term::Num(first), Term::Num(second)) => {
            if first != second {
                push_pair(alloc, left, right, found)?;
            }
        }
        (Term::App(first, args), Term::App(second, others)) => {
            if first == second && args.len() == others.len() {
                return Ok((args.as_slice(), others.as_slice()));
            }
            push_pair(alloc, left, right, found)?;
        }
        (Term::Var(_), Term::Num(_) | Term::App(_, _))
        | (Term::Num(_), Term::Var(_) | Term::App(_, _))
        | (Term::App(_, _), Term::Var(_) | Term::Num(_)) => {
            push_pair(alloc, left, right, found)?;
        }
    }
    Ok((&[], &[]))
}

/// Puts the pairs that two terms come to behind those found before. It takes memory for the arguments that are still to be taken
/// apart, and no machine stack.
pub fn push_pairs(alloc: Global, left: &Term, right: &Term, found: &mut Pairs) -> Result<(), Memory>
    ensures { OnOk result (found.new ≡ found.old ++ pairs_of (tm_of left.now) (tm_of right.now)) }
{
    let (args, others) = push_outer(alloc, left, right, found)?;
    push_inner(alloc, args, others, found)
}

/// Puts the pairs that the terms of two lists come to behind those found before, up to the end of the shorter.
fn push_inner(alloc: Global, left: &[Term], right: &[Term], found: &mut Pairs) -> Result<(), Memory>
    ensures { OnOk result (found.new ≡ found.old ++ all_pairs_of (tms_of left.now) (tms_of right.now)) }
{
    if left.is_empty() {
        return Ok(());
    }
    let mut unseen: Vec<(&[Term], &[Term])> = Vec::new(alloc);
    unseen.push((left, right))?;
    'lists: while let Some((list, others)) = unseen.pop() {
        let Some((term, rest)) = list.split_first() else {
            continue;
        };
        let Some((other, behind)) = others.split_first() else {
            continue;
        };
        unseen.push((rest, behind))?;
        unseen.push(push_outer(alloc, term, other, found)?)?;
    }
    Ok(())
}
