//! Whether two constraints are equal.
ghost use Rattle.std.specs.Prelude.{◌≡◌, IfOk, ◌&&◌};
ghost use Rattle.scasp_checker_rules.specs.SameConstraint.{same_con, same_term};

use scasp_list::Memory;
use scasp_syntax::{Con, Term, same};
use std::alloc::Global;

/// Two pairs of terms, each with its other one.
fn same_sides(
    alloc: Global,
    left: &Term,
    right: &Term,
    other_left: &Term,
    other_right: &Term,
) -> Result<bool, Memory>
    ensures { IfOk result (λ answer. answer ≡ (same_term left.now other_left.now && same_term right.now other_right.now)) }
{
    if !same(alloc, left, other_left)? {
        return Ok(false);
    }
    same(alloc, right, other_right)
}

/// Whether two constraints are equal. It takes memory for the arguments that are still to be compared, and no machine stack.
pub fn same_con(alloc: Global, first: &Con, second: &Con) -> Result<bool, Memory>
    ensures { IfOk result (λ answer. answer ≡ same_con first.now second.now) }
{
    match first {
        Con::Eq(t, u) => {
            let Con::Eq(a, b) = second else {
                return Ok(false);
            };
            same_sides(alloc, t, u, a, b)
        }
        Con::Neq(t, u) => {
            let Con::Neq(a, b) = second else {
                return Ok(false);
            };
            same_sides(alloc, t, u, a, b)
        }
        Con::NotShape(x, f, n) => Ok(
            matches!(second, Con::NotShape(y, g, m) if x == y && f == g && n == m),
        ),
        Con::Num(t) => {
            let Con::Num(a) = second else {
                return Ok(false);
            };
            same(alloc, t, a)
        }
        Con::NotNum(t) => {
            let Con::NotNum(a) = second else {
                return Ok(false);
            };
            same(alloc, t, a)
        }
        Con::Row(row) => Ok(matches!(second, Con::Row(other) if row.is_same(other))),
    }
}
