//! Sums of numbers of variables.
ghost use Rattle.std.specs.Prelude.{◌≡◌, ◌+◌, IfOk};

use scasp_list::Memory;

/// The sum, where it is a number of a variable; past the range of numbers it is want of memory.
pub(crate) fn sum(left: u64, right: u64) -> Result<u64, Memory>
    ensures { IfOk result (λ sum. sum ≡ left + right) }
{
    left.checked_add(right).ok_or(Memory)
}
