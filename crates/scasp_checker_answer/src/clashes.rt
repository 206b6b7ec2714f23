//! Clash lines.
ghost use Rattle.std.specs.Prelude.{◌≡◌, option_copied};
ghost use Rattle.scasp_checker_rules.specs.Pairs.{clash_of, is_clash_at};

use scasp_cert::{Clash, Clashes};

/// Whether the clash line names these two lines, in either order.
fn is_clash_at(i: u64, j: u64, clash: &Clash) -> bool
    ensures { result ≡ is_clash_at i j clash.now }
{
    (clash.first == i && clash.second == j) || (clash.first == j && clash.second == i)
}

/// The first clash line of two lines.
pub fn clash_of(i: u64, j: u64, clashes: &Clashes) -> Option<&Clash>
    ensures { option_copied result ≡ clash_of i j clashes.now }
{
    for clash in clashes.as_slice() {
        if is_clash_at(i, j, clash) {
            return Some(clash);
        }
    }
    None
}
