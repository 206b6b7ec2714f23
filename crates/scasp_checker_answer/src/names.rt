//! Atoms that differ by a name or a number.
ghost use Rattle.std.specs.Prelude.{◌≡◌, ◌<◌, ◌+◌, ◌||◌, IfOk};
ghost use Rattle.scasp_syntax.specs.Tm.{weight, weight_s};
ghost use Rattle.scasp_syntax.specs.View.{tm_of};
ghost use Rattle.scasp_checker_answer.specs.NameClashes.{clash, clash_among};

use scasp_list::Memory;
use scasp_syntax::{Term, Terms, Walk};
use std::alloc::Global;

/// Whether the terms differ by a name, a number or a count of arguments, whatever their variables stand for. If they do
/// not, their arguments are left to be compared before what was left.
#[tactic(auto, using(crate::proofs::ClashWalkLemmas::names_differ, crate::proofs::ClashWalkLemmas::counts_differ, crate::proofs::ClashWalkLemmas::args_next, crate::proofs::ClashWalkLemmas::no_args))]
fn take_clash<'a>(
    left: &'a Term,
    right: &'a Term,
    lefts: &mut Walk<'a>,
    rights: &mut Walk<'a>,
) -> Result<bool, Memory>
    ensures clash { IfOk result (λ found. (clash (tm_of left.now) (tm_of right.now) || clash_among lefts.old rights.old) ≡ (found || clash_among lefts.new rights.new)) }
    ensures less { IfOk result (λ found. weight_s lefts.new < weight (tm_of left.now) + weight_s lefts.old) }
{
    match (left, right) {
        (Term::Var(_), _) => Ok(false),
        (Term::Num(_) | Term::App(_, _), Term::Var(_)) => Ok(false),
        (Term::Num(first), Term::Num(second)) => Ok(first != second),
        (Term::Num(_), Term::App(_, _)) | (Term::App(_, _), Term::Num(_)) => Ok(true),
        (Term::App(first, args), Term::App(second, others)) => {
            if first != second {
                return Ok(true);
            }
            if args.len() != others.len() {
                return Ok(true);
            }
            if args.len() == 0 {
                return Ok(false);
            }
            lefts.enter(args)?;
            rights.enter(others)?;
            Ok(false)
        }
    }
}

/// Whether some term differs by a name or a number from the one at its place, or the lists are of other lengths. It takes
/// memory for the terms that are still to be compared, and no machine stack.
#[tactic(auto, using(crate::proofs::ClashWalkLemmas::clash_here, crate::proofs::ClashWalkLemmas::no_clash_here, crate::proofs::ClashWalkLemmas::left_alone, crate::proofs::ClashWalkLemmas::right_alone, crate::proofs::ClashWalkLemmas::none_left, crate::proofs::ClashWalkLemmas::less_left))]
pub fn clash_among(alloc: Global, left: &Terms, right: &Terms) -> Result<bool, Memory>
    ensures { IfOk result (λ found. found ≡ clash_among left.now right.now) }
{
    let mut lefts = Walk::over(alloc, left.as_slice());
    let mut rights = Walk::over(alloc, right.as_slice());
    'pairs: while let Some(first) = lefts.next() {
        let Some(second) = rights.next() else {
            return Ok(true);
        };
        if take_clash(first, second, &mut lefts, &mut rights)? {
            return Ok(true);
        }
    }
    Ok(rights.next().is_some())
}
