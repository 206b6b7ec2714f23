//! Sums of variables with coefficients, and a constant.
ghost use Rattle.std.specs.Prelude.{◌≡◌, ◌≤◌, ◌+◌, ◌∷◌, length, IfOk};
ghost use Rattle.scasp_num.specs.Arithmetic.{signed};
ghost use Rattle.scasp_answers_terms.specs.Tokens.Readers.{made};
ghost use Rattle.scasp_answers_terms.specs.Tokens.Tokens.{digits, star};
ghost use Rattle.scasp_answers_terms.specs.Tokens.Rows as spec;
ghost use Rattle.scasp_answers_terms.specs.Tokens.View.{Reads};
ghost use Rattle.scasp_answers_lines.specs.Rows.Inside.{sum_of, goes, left, Goes};

use scasp_answers_terms::{Cursor, Stop, Token, bounded_integer, bounded_place};
use scasp_num::Coeff;
use std::alloc::Global;

/// Variables with their coefficients, in any order, and a constant.
#[derive(Drop)]
pub struct Sum {
    pub coeffs: Vec<Coeff>,
    pub constant: i128,
}

/// What stands behind a summand.
#[derive(Clone, Copy)]
pub enum Then {
    /// A sign, which is a minus or not, and a part behind it.
    More(bool),
    /// The sum has ended with this constant.
    Ended(i128),
}

/// Takes the sign behind a summand, if there is one.
fn sign(cursor: &mut Cursor<'_>) -> Then
    ensures goes { spec.more_at cursor.old ≡ goes result cursor.new }
    ensures left { left result cursor.new ≤ length cursor.old + 1 }
{
    if let Some(Token::Plus) = cursor.next() {
        cursor.take();
        return Then::More(false);
    }
    if let Some(Token::Minus) = cursor.next() {
        cursor.take();
        return Then::More(true);
    }
    Then::Ended(0)
}

/// Puts the variable with its coefficient behind the others, and takes the sign behind it.
fn summand(
    coeffs: &mut Vec<Coeff>,
    negative: bool,
    size: u128,
    number: u128,
    cursor: &mut Cursor<'_>,
) -> Result<Then, Stop>
    ensures goes { Goes coeffs.old.items (made (spec.with_summand (spec.summand number (signed negative size))) (spec.more_at cursor.old)) result coeffs.new.items cursor.new }
    ensures left { IfOk result (λ then. left then cursor.new ≤ length cursor.old + 1) }
{
    let x = bounded_place(number);
    let c = bounded_integer(negative, size);
    coeffs.push(Coeff { x, c })?;
    Ok(sign(cursor))
}

/// Takes the variable behind a coefficient and `*`.
fn multiple(
    coeffs: &mut Vec<Coeff>,
    negative: bool,
    size: u128,
    cursor: &mut Cursor<'_>,
) -> Result<Then, Stop>
    ensures goes { Goes coeffs.old.items (spec.more_signed negative (digits size ∷ star ∷ cursor.old)) result coeffs.new.items cursor.new }
    ensures left { IfOk result (λ then. left then cursor.new ≤ length cursor.old + 1) }
{
    let Some(Token::Variable(number)) = cursor.next() else {
        return Err(Stop::NoForm);
    };
    if size > 1 {
        cursor.take();
        summand(coeffs, negative, size, number, cursor)
    } else {
        Err(Stop::NoForm)
    }
}

/// Takes what stands behind a number: the number is a coefficient, or the constant.
fn number(
    coeffs: &mut Vec<Coeff>,
    negative: bool,
    size: u128,
    cursor: &mut Cursor<'_>,
) -> Result<Then, Stop>
    ensures goes { Goes coeffs.old.items (spec.more_signed negative (digits size ∷ cursor.old)) result coeffs.new.items cursor.new }
    ensures left { IfOk result (λ then. left then cursor.new ≤ length cursor.old + 1) }
{
    if let Some(Token::Star) = cursor.next() {
        cursor.take();
        return multiple(coeffs, negative, size, cursor);
    }
    if size == 0 {
        return Err(Stop::NoForm);
    }
    Ok(Then::Ended(bounded_integer(negative, size)))
}

/// Takes a part of a sum behind its sign, and the sign behind it.
fn part(coeffs: &mut Vec<Coeff>, negative: bool, cursor: &mut Cursor<'_>) -> Result<Then, Stop>
    ensures goes { Goes coeffs.old.items (spec.more_signed negative cursor.old) result coeffs.new.items cursor.new }
    ensures left { IfOk result (λ then. left then cursor.new ≤ length cursor.old) }
{
    if let Some(Token::Variable(x)) = cursor.next() {
        cursor.take();
        return summand(coeffs, negative, 1, x, cursor);
    }
    let size = cursor.number()?;
    number(coeffs, negative, size, cursor)
}

/// Takes the parts of a sum, behind the first sign.
fn parts(alloc: Global, negative: bool, cursor: &mut Cursor<'_>) -> Result<Sum, Stop>
    ensures { Reads sum_of (spec.more_signed negative cursor.old) result cursor.new }
{
    let mut coeffs = Vec::new(alloc);
    let mut is_negative = negative;
    loop {
        match part(&mut coeffs, is_negative, cursor)? {
            Then::More(next) => is_negative = next,
            Then::Ended(constant) => return Ok(Sum { coeffs, constant }),
        }
    }
}

/// Takes a sum.
pub fn any_sum(alloc: Global, cursor: &mut Cursor<'_>) -> Result<Sum, Stop>
    ensures { Reads sum_of (spec.sum_at cursor.old) result cursor.new }
{
    if let Some(Token::Minus) = cursor.next() {
        cursor.take();
        return parts(alloc, true, cursor);
    }
    if let Some(Token::Digits(0)) = cursor.next() {
        cursor.take();
        let coeffs = Vec::new(alloc);
        return Ok(Sum {
            coeffs,
            constant: 0,
        });
    }
    parts(alloc, false, cursor)
}
