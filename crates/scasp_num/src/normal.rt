//! The normal form of a row.
ghost use Rattle.std.specs.Prelude.{◌≡◌, ◌<◌, pos, int_div, max, length, IfOk};
ghost use Rattle.scasp_num.specs.Number.{InRange};
ghost use Rattle.scasp_list.specs.Each.{Each};
ghost use Rattle.scasp_num.specs.Linear.{common_divisor, integers, leads_below, is_negated, negated_if, shares, Ascends, normal_form, Meets, negated};
ghost use Rattle.std.specs.Prelude.{List, ◌∷◌, map, unsigned_abs, ℕ, ℤ, ◌↔◌};

use crate::Memory;
use crate::bounded::quotient;
use crate::linear::{Coeff, Coeffs, Op, Row};
use crate::rational::gcd;
use std::alloc::Global;

/// The greatest common divisor of the constant and the coefficients.
#[tactic(auto, using(crate::proofs::Gcds::divisors))]
fn common_divisor(coeffs: &[Coeff], constant: i128) -> u128
    ensures { result ≡ common_divisor (constant ∷ map (λ k. k.c) coeffs.now) }
{
    let mut g = constant.unsigned_abs();
    for k in coeffs {
        g = gcd(g, k.c.unsigned_abs());
    }
    g
}

/// Whether the first coefficient that is not 0, or else the constant, is below 0.
fn leads_below(coeffs: &[Coeff], constant: i128) -> bool
    ensures { result ≡ leads_below coeffs.now constant }
{
    for k in coeffs {
        if k.c != 0 {
            return k.c < 0;
        }
    }
    constant < 0
}

/// Whether the normal form has the opposite signs.
fn is_negated(coeffs: &[Coeff], constant: i128, op: Op) -> bool
    ensures { result ≡ is_negated (record { coeffs = coeffs.now; constant = constant; op = op }) }
{
    op.is_symmetric() && leads_below(coeffs, constant)
}

/// An integer divided by `g`, and negated where told.
fn share(negate: bool, g: u128, c: i128) -> i128
    requires above { 0 < g }
    requires range { InRange c }
    ensures value { result ≡ negated_if negate (int_div c (pos g)) }
    ensures range { InRange result }
{
    let part = quotient(c, g);
    if negate { -part } else { part }
}

/// The terms that are left where each coefficient is divided by `g`, and negated where told.
fn shares(alloc: Global, negate: bool, g: u128, coeffs: &[Coeff]) -> Result<Coeffs, Memory>
    requires above { 0 < g }
    requires range { Each (λ k. InRange k.c) coeffs.now }
    ensures { IfOk result (λ kept. kept ≡ shares negate g coeffs.now) }
{
    let mut kept = Coeffs::new(alloc);
    for k in coeffs {
        if k.c != 0 {
            let c = share(negate, g, k.c);
            kept.push(Coeff { x: k.x, c })?;
        }
    }
    Ok(kept)
}

/// An integer, negated where told.
pub(crate) fn negated_if(negate: bool, c: i128) -> i128
    requires range { InRange c }
    ensures value { result ≡ negated_if negate c }
    ensures range { InRange result }
{
    if negate { -c } else { c }
}

/// The terms, negated where told.
pub(crate) fn negated(alloc: Global, negate: bool, coeffs: &[Coeff]) -> Result<Coeffs, Memory>
    requires range { Each (λ k. InRange k.c) coeffs.now }
    ensures { IfOk result (λ terms. terms ≡ negated negate coeffs.now) }
{
    let mut terms = Coeffs::new(alloc);
    for k in coeffs {
        let c = negated_if(negate, k.c);
        terms.push(Coeff { x: k.x, c })?;
    }
    Ok(terms)
}

/// The normal form of a row whose variables ascend.
pub(crate) fn normal_form(
    alloc: Global,
    coeffs: &[Coeff],
    constant: i128,
    op: Op,
) -> Result<Row, Memory>
    requires ascending { Ascends coeffs.now }
    requires constant_range { InRange constant }
    requires range { Each (λ k. InRange k.c) coeffs.now }
    ensures value { IfOk result (λ row. row ≡ normal_form (record { coeffs = coeffs.now; constant = constant; op = op })) }
    ensures meets { IfOk result (λ row. (m : ℕ → ℤ) (d : ℤ) → Meets m d row ↔ Meets m d (record { coeffs = coeffs.now; constant = constant; op = op })) }
{
    let g = common_divisor(coeffs, constant).max(1);
    let negate = is_negated(coeffs, constant, op);
    let kept = shares(alloc, negate, g, coeffs)?;
    Ok(Row::from_normal(kept, share(negate, g, constant), op))
}
