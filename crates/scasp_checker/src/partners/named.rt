//! Literals that differ by a name or a number.
ghost use Rattle.std.specs.Prelude.{◌≡◌, nat_eq, length, IfOk};
ghost use Rattle.scasp_checker.specs.Partners.Named.{differ_by_names};
ghost use Rattle.scasp_lines_walk.specs.Shown.TableView.{told_of};
ghost use Rattle.scasp_syntax.specs.Tm.{items};

use scasp_checker_answer::clash_among;
use scasp_lines_walk::Saying;
use scasp_list::Memory;
use std::alloc::Global;

/// Whether they have as many arguments.
fn has_as_many(first: &Saying, second: &Saying) -> bool
    ensures { result ≡ nat_eq (length (items (told_of first.now).atom.args)) (length (items (told_of second.now).atom.args)) }
{
    first.atom.args.len() == second.atom.args.len()
}

/// Whether they have as many arguments and differ by a name or a number: then their terms show them apart, and no list of
/// constraints is needed for that. It takes memory for the terms that are still to be compared, and no machine stack.
pub fn differ_by_names(alloc: Global, first: &Saying, second: &Saying) -> Result<bool, Memory>
    ensures { IfOk result (λ found. found ≡ differ_by_names (told_of first.now) (told_of second.now)) }
{
    if !has_as_many(first, second) {
        return Ok(false);
    }
    clash_among(alloc, &first.atom.args, &second.atom.args)
}
