//! Rational numbers whose numerator and denominator lie within -M..M, where M is 2^127 - 1.
ghost use Rattle.std.specs.Prelude.{◌<◌, ◌≡◌, ℕ, ◌≢◌, ◌↔◌, pos, IsTrue, IfOk, is_ok, unsigned_abs, int_div, ◌+ℤ◌, ◌-ℤ◌, ◌*ℤ◌, ◌*◌};
ghost use Rattle.std.specs.Ordering.{nat_cmp, int_cmp};
ghost use Rattle.std.specs.List.{list_all};
ghost use Rattle.scasp_num.specs.Gcd.{gcd};
ghost use Rattle.std.specs.Int.{IsGcd};
ghost use Rattle.std.specs.Result.{result_ok};
ghost use Rattle.scasp_num.specs.Arithmetic.{in_range, lowest, number, lowest_integers, sum_integers, product_integers, quotient_integers, sum_of, difference_of, product_of, quotient_of, negation_of};
ghost use Rattle.scasp_num.specs.Number.{IsReduced, IsReduced-prop, IsFraction, InRange};

use crate::bounded::{product, quotient, signed, sum};
use std::cmp::Ordering;
use std::marker::Model;
use thiserror::Error;

/// An integer of a stated formula lies outside -M..M.
#[derive(Clone, Copy, Debug, PartialEq, Eq, Error)]
#[error("a number is too large")]
pub struct Overflow;

/// The greatest common divisor; that of 0 and 0 is 0. Euclid's algorithm (Elements, book VII).
pub fn gcd(a: u128, b: u128) -> u128
    ensures value { result ≡ gcd a b }
    ensures greatest { IsGcd a b result }
    ensures first_above { 0 < a → 0 < result }
    ensures second_above { 0 < b → 0 < result }
{
    let mut x = a;
    let mut y = b;
    while y != 0 {
        let rest = x % y;
        x = y;
        y = rest;
    }
    x
}

/// How `a`/`b` compares with `c`/`d`, by their continued fractions: where the whole parts are the same, the
/// rests compare as their reciprocals do the other way round.
fn compare_ratios(a: u128, b: u128, c: u128, d: u128) -> Ordering
    requires first { 0 < b }
    requires second { 0 < d }
    ensures { result ≡ nat_cmp (a * d) (c * b) }
{
    let left = a / b;
    let right = c / d;
    if left != right {
        return left.cmp(&right);
    }
    let left_rest = a % b;
    let right_rest = c % d;
    if left_rest == 0 || right_rest == 0 {
        return left_rest.cmp(&right_rest);
    }
    compare_ratios(d, right_rest, b, left_rest)
}

/// A fraction in lowest terms, with a denominator above 0.
#[derive(Clone, Copy, Debug, PartialEq, Eq)]
pub struct Rat {
    num: i128,
    den: i128,
    ghost reduced: { IsReduced num den } by { IsReduced-prop num den },
}

impl Model for Rat {
    ghost use Rattle.scasp_num.specs.Number.{Number, number_code, InRange};

    ghost Value = { Number };

    ghost coded = { number_code };

    ghost view = { λ q. record { num = q.num; den = q.den; reduced = q.reduced } };

    ghost invariant = { λ q. InRange q.num × InRange q.den };

    ghost inverse = { λ q. record { num = q.num; den = q.den; reduced = q.reduced } };
}

impl Rat {
    /// The fraction `n`/`d`, for a `d` that is not 0. With g = gcd(|n|, |d|), Overflow exactly where n/g or
    /// d/g lies outside -M..M.
    pub fn new(n: i128, d: i128) -> Result<Self, Overflow>
        requires { d ≢ pos 0 }
        ensures exact { IfOk result (λ q. IsFraction q n d) }
        ensures fits { is_ok result ≡ list_all in_range (lowest_integers n d) }
        ensures value { result_ok result ≡ lowest n d }
    {
        Rat::in_lowest_terms(n, d)
    }

    /// The sum. With g = gcd(d1, d2), Overflow exactly where one of n1*(d2/g), n2*(d1/g), their sum and
    /// d1*(d2/g) lies outside -M..M.
    pub fn add(&self, o: &Rat) -> Result<Self, Overflow>
        ensures exact { IfOk result (λ r. IsFraction r
            (self.now.num *ℤ o.now.den +ℤ o.now.num *ℤ self.now.den)
            (self.now.den *ℤ o.now.den)) }
        ensures fits { is_ok result ≡ list_all in_range (sum_integers self.now o.now) }
        ensures value { result_ok result ≡ sum_of self.now o.now }
    {
        self.bounded_sum(o)
    }

    /// The difference: the sum with the negation of `o`, and Overflow as there.
    pub fn sub(&self, o: &Rat) -> Result<Self, Overflow>
        ensures exact { IfOk result (λ r. IsFraction r
            (self.now.num *ℤ o.now.den -ℤ o.now.num *ℤ self.now.den)
            (self.now.den *ℤ o.now.den)) }
        ensures fits { is_ok result ≡ list_all in_range (sum_integers self.now (negation_of o.now)) }
        ensures value { result_ok result ≡ difference_of self.now o.now }
    {
        self.add(&o.neg())
    }

    /// The product. With g = gcd(|n1|, d2) and h = gcd(|n2|, d1), Overflow exactly where one of
    /// (n1/g)*(n2/h) and (d1/h)*(d2/g) lies outside -M..M.
    pub fn mul(&self, o: &Rat) -> Result<Self, Overflow>
        ensures exact { IfOk result (λ r. IsFraction r
            (self.now.num *ℤ o.now.num)
            (self.now.den *ℤ o.now.den)) }
        ensures fits { is_ok result ≡ list_all in_range (product_integers self.now o.now) }
        ensures value { result_ok result ≡ product_of self.now o.now }
    {
        self.bounded_product(o)
    }

    /// The quotient by a number that is not 0: the product with it turned over, and Overflow as there.
    pub fn div(&self, o: &Rat) -> Result<Self, Overflow>
        requires { o.now.num ≢ pos 0 }
        ensures exact { IfOk result (λ r. IsFraction r
            (self.now.num *ℤ o.now.den)
            (self.now.den *ℤ o.now.num)) }
        ensures fits { is_ok result ≡ list_all in_range (quotient_integers self.now o.now) }
        ensures value { result_ok result ≡ quotient_of self.now o.now }
    {
        let turned = o.turned_over();
        self.mul(&turned)
    }

    /// The negation.
    pub fn neg(&self) -> Self
        ensures { result ≡ negation_of self.now }
    {
        Rat::from_parts(-self.num(), self.den())
    }

    /// How the number compares with `o`; without products, so that nothing overflows.
    pub fn cmp(&self, o: &Rat) -> Ordering
        ensures { result ≡ int_cmp
            (self.now.num *ℤ o.now.den)
            (o.now.num *ℤ self.now.den) }
    {
        match (self.num < 0, o.num < 0) {
            (false, false) => compare_ratios(self.size(), self.parts(), o.size(), o.parts()),
            (false, true) => Ordering::Greater,
            (true, false) => Ordering::Less,
            (true, true) => compare_ratios(o.size(), o.parts(), self.size(), self.parts()),
        }
    }

    /// The numerator.
    pub fn num(&self) -> i128
        ensures value { result ≡ self.now.num }
        ensures range { InRange result }
    {
        self.num
    }

    /// The denominator.
    pub fn den(&self) -> i128
        ensures value { result ≡ self.now.den }
        ensures range { InRange result }
    {
        self.den
    }
}

/// The steps of the operations.
impl Rat {
    #[tactic(auto, using(crate::proofs::Numbers::plain), unfolding(crate::specs::Arithmetic::lowest))]
    fn in_lowest_terms(n: i128, d: i128) -> Result<Self, Overflow>
        requires { d ≢ pos 0 }
        ensures { result_ok result ≡ lowest n d }
    {
        let size = n.unsigned_abs();
        let parts = d.unsigned_abs();
        let g = gcd(size, parts);
        let num = signed((n < 0) != (d < 0), size / g)?;
        let den = signed(false, parts / g)?;
        Ok(Rat::from_parts(num, den))
    }

    #[tactic(auto, using(crate::proofs::Numbers::plain), unfolding(crate::specs::Arithmetic::sum_of))]
    fn bounded_sum(&self, o: &Rat) -> Result<Self, Overflow>
        ensures { result_ok result ≡ sum_of self.now o.now }
    {
        let g = gcd(self.parts(), o.parts());
        let left = product(self.num(), o.den_over(g))?;
        let right = product(o.num(), self.den_over(g))?;
        let num = sum(left, right)?;
        let den = product(self.den(), o.den_over(g))?;
        Rat::in_lowest_terms(num, den)
    }

    #[tactic(auto, using(crate::proofs::Numbers::plain), unfolding(crate::specs::Arithmetic::product_of))]
    fn bounded_product(&self, o: &Rat) -> Result<Self, Overflow>
        ensures { result_ok result ≡ product_of self.now o.now }
    {
        let g = gcd(self.size(), o.parts());
        let h = gcd(o.size(), self.parts());
        let num = product(self.num_over(g), o.num_over(h))?;
        let den = product(self.den_over(h), o.den_over(g))?;
        Ok(Rat::from_parts(num, den))
    }

    fn turned_over(&self) -> Self
        requires { self.now.num ≢ pos 0 }
        ensures { Some result ≡ lowest self.now.den self.now.num }
    {
        match Rat::in_lowest_terms(self.den(), self.num()) {
            Ok(turned) => turned,
            Err(_) => unreachable!(),
        }
    }

    /// The size of the numerator.
    fn size(&self) -> u128
        ensures { result ≡ unsigned_abs self.now.num }
    {
        self.num.unsigned_abs()
    }

    /// The denominator, as an unsigned number.
    pub(crate) fn parts(&self) -> u128
        ensures value { result ≡ unsigned_abs self.now.den }
        ensures above { 0 < result }
    {
        self.den.unsigned_abs()
    }

    /// The numerator divided by a number above 0, rounded toward 0.
    fn num_over(&self, by: u128) -> i128
        requires { 0 < by }
        ensures value { result ≡ int_div self.now.num (pos by) }
        ensures range { InRange result }
    {
        quotient(self.num, by)
    }

    /// The denominator divided by a number above 0, rounded toward 0.
    pub(crate) fn den_over(&self, by: u128) -> i128
        requires { 0 < by }
        ensures value { result ≡ int_div self.now.den (pos by) }
        ensures range { InRange result }
    {
        quotient(self.den, by)
    }

    fn from_parts(num: i128, den: i128) -> Self
        requires reduced { IsReduced num den }
        requires range { InRange num × InRange den }
        ensures { Some result ≡ number num den }
    {
        Rat { num, den }
    }
}
