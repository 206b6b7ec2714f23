//! The sum of two rows, looked at without making it.
ghost use Rattle.std.specs.Prelude.{◌≡◌, ◌≢◌, ◌+ℤ◌, ◌*ℤ◌, ℕ, is_some, pos, IsTrue};
ghost use Rattle.std.specs.List.{list_all};
ghost use Rattle.scasp_num.specs.Arithmetic.{in_range, within};
ghost use Rattle.scasp_num.specs.Linear.{IsNormal, coefficient};
ghost use Rattle.scasp_rows.specs.Steps.{pair_sum, pairs_fit, products, row_sum};

use scasp_num::{Coeff, Row};

/// The product, where it lies in -M..M.
fn product(a: i128, c: i128) -> Option<i128>
    ensures { result ≡ within (a *ℤ c) }
{
    match a.checked_mul(c) {
        Some(z) if z != i128::MIN => Some(z),
        _ => None,
    }
}

/// The sum, where it lies in -M..M.
fn sum(left: i128, right: i128) -> Option<i128>
    ensures { result ≡ within (left +ℤ right) }
{
    match left.checked_add(right) {
        Some(z) if z != i128::MIN => Some(z),
        _ => None,
    }
}

/// `a` times `c` plus `b` times `d`, where the products and the sum lie in -M..M.
#[tactic(auto, unfolding(crate::specs::Steps::pair_sum))]
fn pair_sum(a: i128, c: i128, b: i128, d: i128) -> Option<i128>
    ensures { result ≡ pair_sum a c b d }
{
    let left = product(a, c)?;
    let right = product(b, d)?;
    sum(left, right)
}

/// Whether `a` times each coefficient lies in -M..M.
fn products_fit(a: i128, terms: &[Coeff]) -> bool
    ensures { result ≡ list_all in_range (products a terms.now) }
{
    for k in terms {
        if product(a, k.c).is_none() {
            return false;
        }
    }
    true
}

/// Whether the sum of the two products of the variable of a term lies in -M..M, and they do.
#[tactic(auto, using(scasp_num::proofs::Numbers::plain))]
fn pair_fits(a: i128, p: &Row, b: i128, k: &Coeff) -> bool
    ensures { result ≡ is_some (pair_sum a (coefficient k.now.x p.now.coeffs) b k.now.c) }
{
    pair_sum(a, p.coefficient(k.x), b, k.c).is_some()
}

/// Whether the sum of the two constants lies in -M..M, and they do.
#[tactic(auto, using(scasp_num::proofs::Numbers::plain))]
fn constants_fit(a: i128, p: &Row, b: i128, q: &Row) -> bool
    ensures { result ≡ is_some (pair_sum a p.now.constant b q.now.constant) }
{
    pair_sum(a, p.constant(), b, q.constant()).is_some()
}

/// Whether the sum of the two products of the variable of each term lies in -M..M.
fn pairs_fit(a: i128, p: &Row, b: i128, terms: &[Coeff]) -> bool
    ensures { result ≡ pairs_fit a p.now.coeffs b terms.now }
{
    for k in terms {
        if !pair_fits(a, p, b, k) {
            return false;
        }
    }
    true
}

/// Whether `a` times `p` plus `b` times `q` has all products and sums in -M..M.
pub(crate) fn sum_fits(a: i128, p: &Row, b: i128, q: &Row) -> bool
    ensures { result ≡ is_some (row_sum a p.now b q.now) }
{
    let first = p.coeffs().as_slice();
    let second = q.coeffs().as_slice();
    if !products_fit(a, first) {
        return false;
    }
    if !products_fit(b, second) {
        return false;
    }
    if !pairs_fit(a, p, b, second) {
        return false;
    }
    constants_fit(a, p, b, q)
}

/// Whether `a` times `c` plus `b` times `d` is known not to be 0, by its lowest 128 bits.
pub(crate) fn is_not_zero(a: i128, c: i128, b: i128, d: i128) -> bool
    ensures { IsTrue result → (a *ℤ c +ℤ b *ℤ d) ≢ pos 0 }
{
    a.wrapping_mul(c).wrapping_add(b.wrapping_mul(d)) != 0
}

/// Whether `x` is known to be left in the sum.
#[tactic(auto, using(scasp_num::proofs::Numbers::plain))]
fn is_left(a: i128, p: &Row, b: i128, q: &Row, x: u64) -> bool
    ensures { IsTrue result → (a *ℤ coefficient x p.now.coeffs +ℤ b *ℤ coefficient x q.now.coeffs) ≢ pos 0 }
{
    is_not_zero(a, p.coefficient(x), b, q.coefficient(x))
}

/// Whether some variable is known to be left in the sum.
pub(crate) fn has_variable(a: i128, p: &Row, b: i128, q: &Row) -> bool
    ensures left { IsTrue result → (x : ℕ) × ((a *ℤ coefficient x p.now.coeffs +ℤ b *ℤ coefficient x q.now.coeffs) ≢ pos 0) }
    ensures normal { IsNormal p.now × IsNormal q.now }
{
    let first = p.coeffs().as_slice();
    let second = q.coeffs().as_slice();
    for k in first {
        if is_left(a, p, b, q, k.x) {
            return true;
        }
    }
    for k in second {
        if is_left(a, p, b, q, k.x) {
            return true;
        }
    }
    false
}
