//! Linear comparisons over the rationals, with whole coefficients.
ghost use Rattle.std.specs.Prelude.{◌≡◌};

use crate::Memory;
use crate::normal::{negated, negated_if, normal_form};
use crate::rational::{Overflow, Rat};
use crate::substitution::{coefficient, merged, others_times, put_constant};
use crate::sums::{multiple, summed, whole, whole_number};
use scasp_list::Sequence;
use std::alloc::Global;
use std::marker::Model;
use thiserror::Error;

/// How the sum of a row compares with 0: `=`, `<`, `=<` or `=\=`.
#[derive(Clone, Copy, Debug, PartialEq, Eq)]
pub enum Op {
    Eq,
    Lt,
    Le,
    Ne,
}

/// The variable `x` times `c`.
#[derive(Clone, Copy, Debug, PartialEq, Eq)]
pub struct Coeff {
    pub x: u64,
    pub c: i128,
}

/// The variable `x` times or with a number.
#[derive(Clone, Copy, Debug, PartialEq, Eq)]
pub struct RatPair {
    pub x: u64,
    pub value: Rat,
}

/// A list of coefficients, each with its variable.
pub type Coeffs = Sequence<Coeff>;

/// A list of pairs of a variable and a number.
pub type RatPairs = Sequence<RatPair>;

/// The comparison `c1*x1+..+ck*xk+constant OP 0` in normal form: variables ascend, no coefficient is 0,
/// the greatest common divisor of all integers is 1 or all are 0, and for `=` and `=\=` the first
/// integer that is not 0 is above 0.
#[derive(Clone, Debug, Drop)]
pub struct Row {
    coeffs: Coeffs,
    constant: i128,
    op: Op,
}

impl Model for Row {
    ghost use Rattle.scasp_num.specs.Linear.{Linear, IsNormal};

    ghost Value = { Linear };

    ghost view = { λ r. record { coeffs = r.coeffs; constant = r.constant; op = r.op } };

    ghost invariant = { λ r. IsNormal (record { coeffs = r.coeffs; constant = r.constant; op = r.op }) };
}

impl Row {
    ghost use Rattle.std.specs.Prelude.{◌↔◌, ℕ, ℤ, IfOk, false, Option, pos, ◌<ℤ◌, ◌+ℤ◌, ◌*ℤ◌, ◌≢◌, List};
    ghost use Rattle.scasp_num.specs.Linear.{IsNormal, Meets, Compares, weighted, is_symmetric, negation, put_of, join_of, Gives, replaced, coefficient};
    ghost use Rattle.scasp_num.specs.Sums.{normal_of, IsTimes, AreTimes, SumHolds};
    ghost use Rattle.scasp_num.specs.Number.{InRange, Number};
    ghost use Rattle.scasp_num.specs.Values.{Holds, numerator_under, with_value};
    ghost use Rattle.scasp_num.specs.declared.linear.Coeff.{Coeff};

    /// The normal form of the sum of the pairs, each its number times its variable, and of the constant. The
    /// numbers of each variable are added in order, then all are multiplied by the least common multiple of
    /// the denominators. Overflow exactly where an addition overflows, or the multiple or an integer times
    /// it lies outside -M..M.
    #[tactic(auto, using(crate::proofs::Numbers::plain), unfolding(crate::specs::Sums::normal_of))]
    pub fn normal(alloc: Global, pairs: &RatPairs, constant: &Rat, op: Op) -> Result<Row, RowErr>
        ensures exact { Gives result (normal_of pairs.now constant.now op) }

        // Met exactly where l times the sum compares so, for each l above 0 that makes the numbers whole.
        ensures meets { IfOk result
            (λ row. (m : ℕ → ℤ) (d l : ℤ) (ks : List Coeff) (z : ℤ) → (pos 0 <ℤ l) → AreTimes l pairs.now ks → IsTimes l constant.now z →
            Meets m d row ↔ Compares op (weighted m ks +ℤ z *ℤ d)) }
        ensures holds { IfOk result
            (λ row. (v : ℕ → Number) → Holds v row ↔ SumHolds v pairs.now constant.now op) }
        ensures normal { IfOk result IsNormal }
    {
        let sums = summed(alloc, pairs.as_slice())?;
        let l = multiple(constant, sums.as_slice())?;
        let coeffs = whole(alloc, l, sums.as_slice())?;
        let last = whole_number(l, constant)?;
        let row = normal_form(alloc, coeffs.as_slice(), last, op)?;
        Ok(row)
    }

    /// The row with `x` replaced by a number n/d, in normal form. Overflow exactly where one of d times each
    /// other coefficient, d times the constant, the coefficient of `x` times n, and the sum of the last
    /// two lies outside -M..M.
    #[tactic(auto, using(crate::proofs::Numbers::plain), unfolding(crate::specs::Linear::put_of))]
    pub fn put(&self, x: u64, value: &Rat) -> Result<Row, RowErr>
        ensures exact { Gives result (put_of self.now x value.now) }
        ensures meets { IfOk result (λ row. (m : ℕ → ℤ) (d : ℤ) → Meets m d row
            ↔ Meets (replaced (λ y. m y *ℤ value.now.den) x (value.now.num *ℤ d)) (d *ℤ value.now.den) self.now) }
        ensures holds { IfOk result
            (λ row. (v : ℕ → Number) → Holds v row ↔ Holds (with_value v x value.now) self.now) }
        ensures normal { IfOk result IsNormal }
    {
        let alloc = self.coeffs.allocator();
        let terms = self.coeffs().as_slice();
        let others = others_times(alloc, value.den(), x, terms)?;
        let constant = put_constant(self, x, value)?;
        let row = normal_form(alloc, others.as_slice(), constant, self.op())?;
        Ok(row)
    }

    /// The row with `x` replaced by another variable `y`, in normal form. Overflow exactly where the sum of
    /// their two coefficients lies outside -M..M.
    #[tactic(auto, using(crate::proofs::Numbers::plain), unfolding(crate::specs::Linear::join_of))]
    pub fn join(&self, x: u64, y: u64) -> Result<Row, RowErr>
        requires { x ≢ y }
        ensures exact { Gives result (join_of self.now x y) }
        ensures meets { IfOk result (λ row. (m : ℕ → ℤ) (d : ℤ) → Meets m d row ↔ Meets (replaced m x (m y)) d self.now) }
        ensures holds { IfOk result
            (λ row. (v : ℕ → Number) → Holds v row ↔ Holds (with_value v x (v y)) self.now) }
        ensures normal { IfOk result IsNormal }
    {
        let alloc = self.coeffs.allocator();
        let terms = self.coeffs().as_slice();
        let others = others_times(alloc, 1, x, terms)?;
        let coeffs = merged(alloc, others.as_slice(), y, coefficient(terms, x))?;
        let row = normal_form(alloc, coeffs.as_slice(), self.constant(), self.op())?;
        Ok(row)
    }

    /// The row that is met exactly where this one is not.
    pub fn negate(&self) -> Result<Row, Memory>
        ensures value { IfOk result (λ row. row ≡ negation self.now) }
        ensures meets { IfOk result
            (λ row. (m : ℕ → ℤ) (d : ℤ) → Meets m d row ↔ (¬ Meets m d self.now)) }
        ensures holds { IfOk result
            (λ row. (v : ℕ → Number) → Holds v row ↔ (¬ Holds v self.now)) }
        ensures normal { IfOk result IsNormal }
    {
        let op = self.op();
        let negate = !op.is_symmetric();
        let alloc = self.coeffs.allocator();
        let terms = self.coeffs().as_slice();
        let coeffs = negated(alloc, negate, terms)?;
        let constant = negated_if(negate, self.constant());
        Ok(Row::from_normal(coeffs, constant, op.opposite()))
    }

    /// The row that says of the same sum that it compares by `op`, which is `<` or `=<`: these keep all signs.
    pub fn compared(&self, op: Op) -> Result<Row, Memory>
        requires { is_symmetric op ≡ false }
        ensures value { IfOk result (λ row. row ≡ record { coeffs = self.now.coeffs; constant = self.now.constant; op = op }) }
        ensures holds { IfOk result
            (λ row. (v : ℕ → Number) → Holds v row ↔ Compares op (numerator_under v self.now)) }
        ensures normal { IfOk result IsNormal }
    {
        let coeffs = self.coeffs().clone()?;
        Ok(Row::from_normal(coeffs, self.constant(), op))
    }

    pub(crate) fn from_normal(coeffs: Coeffs, constant: i128, op: Op) -> Self
        requires { IsNormal (record { coeffs = coeffs; constant = constant; op = op }) }
        ensures { result ≡ record { coeffs = coeffs; constant = constant; op = op } }
    {
        Row {
            coeffs,
            constant,
            op,
        }
    }

    pub fn coeffs(&self) -> &Coeffs
        ensures value { result.now ≡ self.now.coeffs }
        ensures normal { IsNormal self.now }
    {
        &self.coeffs
    }

    /// The coefficient of `x`; 0 where the row does not have it.
    pub fn coefficient(&self, x: u64) -> i128
        ensures value { result ≡ coefficient x self.now.coeffs }
        ensures range { InRange result }
    {
        coefficient(self.coeffs().as_slice(), x)
    }

    pub fn constant(&self) -> i128
        ensures value { result ≡ self.now.constant }
        ensures normal { IsNormal self.now }
    {
        self.constant
    }

    pub fn op(&self) -> Op
        ensures value { result ≡ self.now.op }
        ensures normal { IsNormal self.now }
    {
        self.op
    }
}

/// A list of rows.
pub type Rows = Sequence<Row>;

/// Why a row is not made.
#[derive(Clone, Copy, Debug, PartialEq, Eq, Error)]
pub enum RowErr {
    #[error("a number is too large")]
    Overflow,
    #[error("out of memory")]
    Memory,
}

impl From<Memory> for RowErr {
    ghost use Rattle.scasp_num.specs.declared.linear.RowErr.TheVariants as errors;

    ghost from_gives = { λ _ e. e ≡ errors.Memory };

    fn from(_error: Memory) -> Self {
        RowErr::Memory
    }
}

impl From<Overflow> for RowErr {
    ghost use Rattle.scasp_num.specs.declared.linear.RowErr.TheVariants as errors;

    ghost from_gives = { λ _ e. e ≡ errors.Overflow };

    fn from(_error: Overflow) -> Self {
        RowErr::Overflow
    }
}
