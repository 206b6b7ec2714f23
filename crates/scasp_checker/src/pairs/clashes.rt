//! Clash lines, found by the numbers of their two lines.
ghost use Rattle.std.specs.Prelude.{◌≡◌, ℕ, IfOk, OnOk, option_copied};
ghost use Rattle.scasp_checker_rules.specs.Pairs.{clash_of};
ghost use Rattle.scasp_checker.specs.Pairs.Inside.Clashes.{clash_in, with_clash};

use scasp_cert::{Clash, Clashes};
use scasp_list::Memory;
use std::alloc::Global;
use std::collections::HashMap;

/// The first clash line of each two lines, by the smaller number and the greater one.
pub(crate) type FirstClashes<'a> = HashMap<(u64, u64), &'a Clash>;

/// Puts the clash line in place of any other one of its two lines.
fn put<'a>(firsts: &mut FirstClashes<'a>, clash: &'a Clash) -> Result<(), Memory>
    ensures { OnOk result ((i j : ℕ) → clash_in firsts.new i j ≡ with_clash clash.now i j (clash_in firsts.old i j)) }
{
    let smaller = clash.first.min(clash.second);
    let greater = clash.first.max(clash.second);
    firsts.insert((smaller, greater), clash)?;
    Ok(())
}

/// The first clash line of each two lines.
pub(crate) fn first_clashes<'a>(
    alloc: Global,
    clashes: &'a Clashes,
) -> Result<FirstClashes<'a>, Memory>
    ensures { IfOk result (λ made. (i j : ℕ) → clash_in made i j ≡ clash_of i j clashes.now) }
{
    let lines = clashes.as_slice();
    let mut firsts: FirstClashes<'a> = HashMap::new(alloc);
    let mut place = lines.len();
    while place > 0 {
        place -= 1;
        put(&mut firsts, &lines[place])?;
    }
    Ok(firsts)
}

/// The clash line of two lines, in either order.
pub(crate) fn clash_between<'a>(
    firsts: &FirstClashes<'a>,
    first: u64,
    second: u64,
) -> Option<&'a Clash>
    ensures { option_copied result ≡ clash_in firsts.now first second }
{
    let smaller = first.min(second);
    let greater = first.max(second);
    firsts.get(&(smaller, greater)).copied()
}
