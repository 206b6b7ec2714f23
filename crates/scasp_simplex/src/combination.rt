//! Sums of columns' variables times fractions over one denominator.
use crate::stop::Stop;
use crate::whole::{common_divisor, product, quotient, sum};
use std::alloc::Global;

/// A column's variable times a whole number that is not 0.
#[derive(Clone, Copy)]
pub(crate) struct Term {
    pub(crate) column: usize,
    pub(crate) times: i128,
}

/// The sum of the terms, whose columns ascend, divided by the scale, which is above 0.
#[derive(Drop)]
pub(crate) struct Combination {
    pub(crate) scale: i128,
    pub(crate) terms: Vec<Term>,
}

impl Combination {
    /// What the column's variable is multiplied by before the division; 0 where it does not stand there.
    pub(crate) fn times(&self, column: usize) -> i128 {
        match self.terms.binary_search_by_key(&column, |term| term.column) {
            Ok(place) => match self.terms.get(place) {
                Some(term) => term.times,
                None => 0,
            },
            Err(_) => 0,
        }
    }

    /// The combination without the term of one column, plus another one times a number over the scale.
    pub(crate) fn replaced(
        &self,
        alloc: Global,
        without: Option<usize>,
        times: i128,
        by: &Combination,
    ) -> Result<Combination, Stop> {
        let shared = common_divisor(times, by.scale)?;
        let a = quotient(by.scale, shared)?;
        let b = quotient(times, shared)?;
        let scale = product(self.scale, a)?;
        let left = Multiple {
            terms: self.terms.as_slice(),
            times: a,
        };
        let right = Multiple {
            terms: by.terms.as_slice(),
            times: b,
        };
        let terms = merged(alloc, &left, without, &right)?;
        in_lowest_terms(scale, terms)
    }
}

/// Terms, times a number.
#[derive(Clone, Copy)]
struct Multiple<'a> {
    terms: &'a [Term],
    times: i128,
}

/// The sum of the two, of which the left one is without the term of one column.
fn merged(
    alloc: Global,
    left: &Multiple,
    without: Option<usize>,
    right: &Multiple,
) -> Result<Vec<Term>, Stop> {
    let most = left.terms.len().saturating_add(right.terms.len());
    let mut made = Vec::with_capacity(alloc, most)?;
    let mut rest = right.terms;
    for term in left.terms {
        if without == Some(term.column) {
            continue;
        }
        rest = push_below(&mut made, right.times, rest, term.column)?;
        let mut times = product(left.times, term.times)?;
        if let [first, others @ ..] = rest {
            if first.column == term.column {
                times = sum(times, product(right.times, first.times)?)?;
                rest = others;
            }
        }
        if times != 0 {
            made.push(Term {
                column: term.column,
                times,
            })?;
        }
    }
    push_times(&mut made, right.times, rest)?;
    Ok(made)
}

/// Pushes the terms of lower columns, times the number, and gives the others.
fn push_below<'a>(
    made: &mut Vec<Term>,
    a: i128,
    terms: &'a [Term],
    column: usize,
) -> Result<&'a [Term], Stop> {
    for (place, term) in terms.iter().enumerate() {
        if term.column >= column {
            return Ok(&terms[place..]);
        }
        push(made, a, term)?;
    }
    Ok(&[])
}

/// Pushes the terms, times the number.
fn push_times(made: &mut Vec<Term>, a: i128, terms: &[Term]) -> Result<(), Stop> {
    for term in terms {
        push(made, a, term)?;
    }
    Ok(())
}

fn push(made: &mut Vec<Term>, a: i128, term: &Term) -> Result<(), Stop> {
    let times = product(a, term.times)?;
    let column = term.column;
    made.push(Term { column, times })?;
    Ok(())
}

/// The terms over the scale, in lowest terms.
fn in_lowest_terms(scale: i128, mut terms: Vec<Term>) -> Result<Combination, Stop> {
    let shared = shared_divisor(scale, terms.as_slice())?;
    if shared == 1 {
        return Ok(Combination { scale, terms });
    }
    for term in terms.iter_mut() {
        term.times = quotient(term.times, shared)?;
    }
    let scale = quotient(scale, shared)?;
    Ok(Combination { scale, terms })
}

/// The greatest common divisor of the scale and all terms.
fn shared_divisor(scale: i128, terms: &[Term]) -> Result<i128, Stop> {
    let mut shared = scale;
    for term in terms {
        if shared == 1 {
            return Ok(1);
        }
        shared = common_divisor(shared, term.times)?;
    }
    Ok(shared)
}
