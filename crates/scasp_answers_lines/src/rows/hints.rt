//! Hints, and the steps that they have.
ghost use Rattle.std.specs.Prelude.{◌≡◌, ◌<◌, ◌∷◌, length, codes, IfOk};
ghost use Rattle.scasp_answers_terms.specs.Tokens.Tokens.{minus};
ghost use Rattle.scasp_answers_terms.specs.Tokens.Hints as spec;
ghost use Rattle.scasp_answers_terms.specs.Tokens.View.{Reads};

use scasp_answers_terms::{Cursor, Stop, Token, bounded_integer, is_count};
use scasp_list::Memory;
use scasp_num::{Step, StepLists, Steps};
use scasp_syntax::Hint;
use std::alloc::Global;

/// An integer times a row.
type Multiple = (i128, u128);

/// Takes the digits of an integer behind its minus sign.
fn negative(cursor: &mut Cursor<'_>) -> Result<i128, Stop>
    ensures value { Reads (λ z. z) (spec.integer_at (minus ∷ cursor.old)) result cursor.new }
    ensures shorter { IfOk result (λ z. length cursor.new < length cursor.old) }
{
    let Some(Token::Digits(size)) = cursor.next() else {
        return Err(Stop::NoForm);
    };
    if size == 0 {
        return Err(Stop::NoForm);
    }
    cursor.take();
    Ok(bounded_integer(true, size))
}

/// Takes an integer.
fn integer(cursor: &mut Cursor<'_>) -> Result<i128, Stop>
    ensures value { Reads (λ z. z) (spec.integer_at cursor.old) result cursor.new }
    ensures shorter { IfOk result (λ z. length cursor.new < length cursor.old) }
{
    if let Some(Token::Minus) = cursor.next() {
        cursor.take();
        return negative(cursor);
    }
    let size = cursor.number()?;
    Ok(bounded_integer(false, size))
}

/// Takes a multiple of a row.
fn multiple(cursor: &mut Cursor<'_>) -> Result<Multiple, Stop>
    ensures value { Reads (λ m. m) (spec.multiple_at cursor.old) result cursor.new }
    ensures shorter { IfOk result (λ m. length cursor.new < length cursor.old) }
{
    let factor = integer(cursor)?;
    cursor.expect(b"*")?;
    let row = cursor.number()?;
    Ok((factor, row))
}

/// Stands for each step with a number that is too large.
fn unfit_step() -> Step
    ensures { result ≡ spec.unfit_step }
{
    Step {
        a: i128::MIN,
        p: 0,
        b: 0,
        q: 0,
    }
}

/// The sum of two multiples; where a number is too large, a step that is too large.
fn step_of(first: Multiple, second: Multiple) -> Step
    ensures { result ≡ spec.step_of (first, second) }
{
    let (a, p) = first;
    let (b, q) = second;
    if is_count(p) && is_count(q) {
        let p = p as u64;
        let q = q as u64;
        return Step { a, p, b, q };
    }
    unfit_step()
}

/// Takes a step.
fn step(cursor: &mut Cursor<'_>) -> Result<Step, Stop>
    ensures value { Reads (λ s. s) (spec.step_at cursor.old) result cursor.new }
    ensures shorter { IfOk result (λ s. length cursor.new < length cursor.old) }
{
    let first = multiple(cursor)?;
    cursor.expect(b"+")?;
    let second = multiple(cursor)?;
    Ok(step_of(first, second))
}

/// Takes one step or more, with commas between them.
fn steps(alloc: Global, cursor: &mut Cursor<'_>) -> Result<Steps, Stop>
    ensures value { Reads (λ s. s) (spec.steps_at cursor.old) result cursor.new }
    ensures shorter { IfOk result (λ s. length cursor.new < length cursor.old) }
{
    let mut steps = Steps::new(alloc);
    loop {
        let step = step(cursor)?;
        steps.push(step)?;
        if !cursor.taken(Token::Comma) {
            return Ok(steps);
        }
    }
}

/// Takes one list of steps or more, with `;` between them.
fn step_lists(alloc: Global, cursor: &mut Cursor<'_>) -> Result<StepLists, Stop>
    ensures { Reads (λ s. s) (spec.step_lists_at cursor.old) result cursor.new }
{
    let mut lists = StepLists::new(alloc);
    loop {
        let steps = steps(alloc, cursor)?;
        lists.push(steps)?;
        if !cursor.taken(Token::Sign(b';')) {
            return Ok(lists);
        }
    }
}

/// Takes what stands behind `rows`.
fn rows(alloc: Global, cursor: &mut Cursor<'_>) -> Result<Hint, Stop>
    ensures { Reads (λ h. h) (spec.rows_at cursor.old) result cursor.new }
{
    cursor.expect(b" [")?;
    let steps = steps(alloc, cursor)?;
    cursor.expect(b"]")?;
    Ok(Hint::Rows(steps))
}

/// The hint of a disequation of this number; where that is too large, a hint that is too large.
fn same_of(alloc: Global, number: u128, lists: StepLists) -> Result<Hint, Memory>
    ensures { IfOk result (λ hint. hint ≡ spec.same_of (number, lists)) }
{
    if is_count(number) {
        return Ok(Hint::Same(number as u64, lists));
    }
    let mut steps = Steps::new(alloc);
    steps.push(unfit_step())?;
    Ok(Hint::Rows(steps))
}

/// Takes what stands behind `same`.
fn same(alloc: Global, cursor: &mut Cursor<'_>) -> Result<Hint, Stop>
    ensures { Reads (λ h. h) (spec.same_at cursor.old) result cursor.new }
{
    cursor.expect(b" ")?;
    let number = cursor.number()?;
    cursor.expect(b" ")?;
    cursor.expect(b"[")?;
    let lists = step_lists(alloc, cursor)?;
    cursor.expect(b"]")?;
    let hint = same_of(alloc, number, lists)?;
    Ok(hint)
}

/// Takes a hint.
pub fn hint(alloc: Global, cursor: &mut Cursor<'_>) -> Result<Hint, Stop>
    ensures { Reads (λ h. h) (spec.hint_at cursor.old) result cursor.new }
{
    let Some(Token::Word(word)) = cursor.next() else {
        return Err(Stop::NoForm);
    };
    cursor.take();
    if word == "terms" {
        Ok(Hint::Terms)
    } else if word == "rows" {
        rows(alloc, cursor)
    } else if word == "same" {
        same(alloc, cursor)
    } else {
        Err(Stop::NoForm)
    }
}
