//! Numbers as terms.
ghost use Rattle.std.specs.Prelude.{◌≡◌, ℤ, pos, ◌<ℤ◌};
ghost use Rattle.std.specs.Option.{option_map};
ghost use Rattle.scasp_num.specs.Arithmetic.{number, signed};
ghost use Rattle.scasp_num.specs.Number.{InRange};
ghost use Rattle.scasp_syntax.specs.Tm.{num};
ghost use Rattle.scasp_syntax.specs.View.{tm_of};
ghost use Rattle.scasp_answers_terms.specs.Tokens.Terms as spec;

use crate::tokens::{bounded_integer, bounded_place};
use scasp_num::Rat;
use scasp_num::rational::gcd;
use scasp_syntax::Term;

/// The integers from 0 to this one are those of arithmetic.
const LIMIT: u128 = 1 << 127;

/// Stands for each number and each variable that is too large.
pub fn unfit() -> Term
    ensures { tm_of result ≡ spec.unfit }
{
    Term::Var(u64::MAX)
}

/// The variable of this number.
pub fn variable_term(number: u128) -> Term
    ensures { tm_of result ≡ spec.variable_term number }
{
    Term::Var(bounded_place(number))
}

/// n/d, where that is in lowest terms.
fn number_term(n: i128, d: i128) -> Option<Term>
    requires above { pos 0 <ℤ d }
    requires n_range { InRange n }
    requires d_range { InRange d }
    ensures { option_map tm_of result ≡ option_map num (number n d) }
{
    if gcd(n.unsigned_abs(), d.unsigned_abs()) != 1 {
        return None;
    }
    match Rat::new(n, d) {
        Ok(number) => Some(Term::Num(number)),
        Err(_) => None,
    }
}

/// The integer of a sign and a size.
pub fn whole(negative: bool, size: u128) -> Option<Term>
    ensures { option_map tm_of result ≡ spec.whole (signed negative size) }
{
    if size >= LIMIT {
        return Some(unfit());
    }
    number_term(bounded_integer(negative, size), 1)
}

/// The fraction of a sign, a size and a denominator, where that is how a number is written.
pub fn quotient(negative: bool, size: u128, parts: u128) -> Option<Term>
    ensures { option_map tm_of result ≡ spec.quotient (signed negative size) parts }
{
    if parts <= 1 {
        return None;
    }
    if size >= LIMIT || parts >= LIMIT {
        return Some(unfit());
    }
    number_term(
        bounded_integer(negative, size),
        bounded_integer(false, parts),
    )
}
