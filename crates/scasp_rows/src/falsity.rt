//! Pairs of a lower and an upper row: whether some sum is a false row. One that keeps a variable is not, so most
//! pairs are told by two products.
ghost use Rattle.std.specs.Prelude.{◌≡◌, IfOk, map};
ghost use Rattle.scasp_num.specs.Linear.{IsNormal};
ghost use Rattle.scasp_num.specs.Number.{InRange};
ghost use Rattle.scasp_rows.specs.Inside.Outlooks.{any_false, factors_of, is_falsified, met_outlook, size_of, some_false};

use crate::outlook::{Outlook, met_outlook};
use crate::range::{has_variable, is_not_zero};
use crate::rows::factor;
use crate::state::Standing;
use scasp_list::Memory;
use std::alloc::Global;

/// The size of the coefficient of the variable that is eliminated, and the coefficient of another one.
#[derive(Clone, Copy, Debug, PartialEq, Eq)]
pub struct Factors {
    pub size: i128,
    pub other: i128,
}

fn size(z: i128) -> i128
    requires { InRange z }
    ensures { result ≡ size_of z }
{
    z.unsigned_abs() as i128
}

/// The coefficients of `x` and `y` in a row.
fn factors_in(x: u64, y: u64, r: &Standing) -> Factors
    ensures { result ≡ factors_of x y r.now }
{
    Factors {
        size: size(factor(x, r)),
        other: factor(y, r),
    }
}

/// Those in each row.
fn all_factors(alloc: Global, x: u64, y: u64, rows: &[Standing]) -> Result<Vec<Factors>, Memory>
    ensures { IfOk result (λ all. all.items ≡ map (factors_of x y) rows.now) }
{
    let mut all = Vec::new(alloc);
    for r in rows {
        all.push(factors_in(x, y, r))?;
    }
    Ok(all)
}

/// Both rows are in normal form.
fn are_normal(l: &Standing, u: &Standing)
    ensures { IsNormal l.now.row × IsNormal u.now.row }
{
    let _lower = l.row.coeffs();
    let _upper = u.row.coeffs();
}

/// Whether the sum of a lower row and an upper row is a false row, where these are their coefficients. It is
/// none where it keeps `y`, or another variable.
fn is_false_sum(
    alloc: Global,
    x: u64,
    y: u64,
    l: &Standing,
    own: Factors,
    u: &Standing,
    theirs: Factors,
) -> Result<bool, Memory>
    requires lower { own ≡ factors_of x y l.now }
    requires upper { theirs ≡ factors_of x y u.now }
    ensures { IfOk result (λ found. found ≡ is_falsified (met_outlook x l.now u.now)) }
{
    are_normal(l, u);
    if is_not_zero(theirs.size, own.other, own.size, theirs.other) {
        return Ok(false);
    }
    if has_variable(theirs.size, &l.row, own.size, &u.row) {
        return Ok(false);
    }
    match met_outlook(alloc, x, l, u)? {
        Outlook::Open | Outlook::Overflow => Ok(false),
        Outlook::False => Ok(true),
    }
}

/// Whether the sum of the lower row and some upper row is a false row.
fn some_false(
    alloc: Global,
    x: u64,
    y: u64,
    l: &Standing,
    uppers: &[Standing],
    factors: &[Factors],
) -> Result<bool, Memory>
    requires { factors.now ≡ map (factors_of x y) uppers.now }
    ensures { IfOk result (λ found. found ≡ some_false x l.now uppers.now) }
{
    let own = factors_in(x, y, l);
    for (i, theirs) in factors.iter().enumerate() {
        if is_false_sum(alloc, x, y, l, own, &uppers[i], *theirs)? {
            return Ok(true);
        }
    }
    Ok(false)
}

/// The last variable of the first row: where rows are dense, all have it.
fn last_variable(rows: &[Standing]) -> u64 {
    match rows.first() {
        Some(r) => match r.row.coeffs().as_slice().last() {
            Some(k) => k.x,
            None => 0,
        },
        None => 0,
    }
}

/// Whether the sum of some lower row and some upper row is a false row.
pub(crate) fn any_false(
    alloc: Global,
    x: u64,
    lowers: &[Standing],
    uppers: &[Standing],
) -> Result<bool, Memory>
    ensures { IfOk result (λ found. found ≡ any_false x lowers.now uppers.now) }
{
    let y = last_variable(lowers);
    let factors = all_factors(alloc, x, y, uppers)?;
    for l in lowers {
        if some_false(alloc, x, y, l, uppers, factors.as_slice())? {
            return Ok(true);
        }
    }
    Ok(false)
}
