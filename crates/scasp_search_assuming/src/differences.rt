//! Disequations of terms, and the matching of heads.
ghost use Rattle.std.specs.Prelude.{◌≡◌, ◌++◌, ◌∷◌, [], IfOk, OnOk, length};
ghost use Rattle.scasp_hint.specs.Satisfying.{sat};
ghost use Rattle.scasp_search_rules.specs.Successors.Differences.{differ_first, differ_pairs, differ_terms, is_matched, same_shape, same_value, take_up};
ghost use Rattle.scasp_search_rules.specs.Successors.Pairs.{pairs};
ghost use Rattle.scasp_search_rules.specs.Successors.Regions.{before};
ghost use Rattle.scasp_search_rules.specs.Successors.Variables.{next_variable};
ghost use Rattle.scasp_search_state.specs.Choices.{Forks};
ghost use Rattle.scasp_search_state.specs.Going.{Goes};
ghost use Rattle.scasp_syntax.specs.Tm.{items};
ghost use Rattle.scasp_syntax.specs.View.{tm_of};
ghost use Rattle.scasp_syntax.specs.declared.program.Program.{Program as ThisProgram};
ghost use Rattle.scasp_unify.specs.Negations.{new_parts};

use crate::alternatives::when_same;
use crate::equality::equated;
use crate::pairs::{from_first, new_pairs};
use crate::parts::differ_pair;
use crate::shapes::becomes_shape;
use scasp_list::Memory;
use scasp_name::NameId;
use scasp_search_constraints::SearchErr;
use scasp_search_rules::{Aim, Kind, Pair, Pairs, Task};
use scasp_search_state::Situation;
use scasp_syntax::{Term, Terms, copy};
use std::alloc::Global;

// ---- where a part is not apart

/// Whether the variable can be this variable or number; the other pairs are looked at then.
pub fn same_value<M: Situation>(
    alloc: Global,
    at: &mut M,
    x: u64,
    term: &Term,
    rest: Pairs,
    aim: Aim,
) -> Result<bool, SearchErr>
    ensures now { Goes result (same_value sat (M.now at.old) x (tm_of term.now) rest aim) (M.now at.new) }
    ensures points { IfOk result (λ _. M.points at.new ≡ M.points at.old) }
{
    if !equated(alloc, at, &Term::Var(x), term)? {
        return Ok(false);
    }
    at.put(Task::Differ(rest, aim))?;
    Ok(true)
}

/// The pairs of new variables and the arguments, and then those.
fn parts_first<M: Situation>(
    alloc: Global,
    at: &M,
    args: &Terms,
    rest: Pairs,
) -> Result<Pairs, Memory>
    ensures { IfOk result (λ all. all ≡ pairs (new_parts (next_variable (M.now at.now)) (length (items args.now))) args.now ++ rest) }
{
    let mut all = new_pairs(alloc, at, args)?;
    for pair in rest.into_vec() {
        all.push(pair)?;
    }
    Ok(all)
}

/// Whether the variable can have the name; the pairs of its new arguments are looked at first then.
pub fn same_shape<M: Situation>(
    alloc: Global,
    at: &mut M,
    x: u64,
    name: NameId,
    args: &Terms,
    rest: Pairs,
    aim: Aim,
) -> Result<bool, SearchErr>
    ensures now { Goes result (same_shape sat (M.now at.old) x name args.now rest aim) (M.now at.new) }
    ensures points { IfOk result (λ _. M.points at.new ≡ M.points at.old) }
{
    let pairs = parts_first(alloc, at, args, rest)?;
    if !becomes_shape(alloc, at, x, name, args.len() as u64)? {
        return Ok(false);
    }
    at.put(Task::Differ(pairs, aim))?;
    Ok(true)
}

// ---- pairs

/// Whether the term is a variable of a rule whose head is being matched.
fn is_matched<M: Situation>(at: &M, term: &Term) -> bool
    ensures { result ≡ is_matched (M.now at.now) (tm_of term.now) }
{
    match term {
        Term::Var(x) => match at.made_at(*x).kind {
            Kind::Matched => true,
            Kind::Existential | Kind::Universal => false,
        },
        Term::Num(_) | Term::App(_, _) => false,
    }
}

/// The variable of a head stands for the literal's part.
fn take_up<M: Situation>(alloc: Global, at: &mut M, part: &Term, head: &Term) -> Result<(), Memory>
    ensures now { OnOk result (M.now at.new ≡ take_up (M.now at.old) (tm_of part.now) (tm_of head.now)) }
    ensures points { OnOk result (M.points at.new ≡ M.points at.old) }
{
    match head {
        Term::Var(x) => at.bind_to(*x, copy(alloc, part)?),
        Term::Num(_) | Term::App(_, _) => Ok(()),
    }
}

/// The variable of a head stands for the literal's part, and the rest of the pairs is looked at.
fn matched<M: Situation>(
    alloc: Global,
    at: &mut M,
    pair: &Pair,
    rest: Pairs,
    aim: Aim,
) -> Result<(), Memory>
    ensures now { OnOk result (M.now at.new ≡ before (Task.Differ rest aim ∷ []) (take_up (M.now at.old) (tm_of pair.now.left) (tm_of pair.now.right))) }
    ensures points { OnOk result (M.points at.new ≡ M.points at.old) }
{
    take_up(alloc, at, &pair.left, &pair.right)?;
    at.put(Task::Differ(rest, aim))
}

/// The first pair that terms come to is acted on: a variable of a head that is met first stands for the literal's part.
fn differ_first<M: Situation>(
    alloc: Global,
    at: &mut M,
    pair: &Pair,
    rest: Pairs,
    aim: Aim,
) -> Result<bool, SearchErr>
    ensures { (p : ThisProgram) → Forks p (differ_first sat (M.now at.old) (tm_of pair.now.left) (tm_of pair.now.right) rest aim) (M.now at.new) (M.points at.new) (M.points at.old) result }
{
    if is_matched(at, &pair.right) {
        matched(alloc, at, pair, rest, aim)?;
        Ok(true)
    } else {
        differ_pair(alloc, at, &pair.left, &pair.right, rest, aim)
    }
}

/// Some of the pairs is to be apart; the first comes to something, and where there is none the terms are the same.
fn differ_pairs<M: Situation>(
    alloc: Global,
    at: &mut M,
    pairs: Pairs,
    aim: Aim,
) -> Result<bool, SearchErr>
    ensures { (p : ThisProgram) → Forks p (differ_pairs sat (M.now at.old) pairs aim) (M.now at.new) (M.points at.new) (M.points at.old) result }
{
    if pairs.is_empty() {
        return when_same(at, aim);
    }
    let mut rest = pairs.into_vec();
    let first = rest.remove(0);
    differ_first(alloc, at, &first, Pairs::from(rest), aim)
}

/// Whether there is a state in which some of the pairs is apart; the first is the present one then, and the other waits.
pub fn differ_terms<M: Situation>(
    alloc: Global,
    at: &mut M,
    pairs: Pairs,
    aim: Aim,
) -> Result<bool, SearchErr>
    ensures { (p : ThisProgram) → Forks p (differ_terms sat (M.now at.old) pairs aim) (M.now at.new) (M.points at.new) (M.points at.old) result }
{
    let left = from_first(alloc, at, pairs)?;
    differ_pairs(alloc, at, left, aim)
}
