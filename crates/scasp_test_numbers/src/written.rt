//! Rows as they are written in the tables.
use scasp_num::{Op, Rat, RatPair, RatPairs, Row};
use std::alloc::Global;
use std::test::Fail;

/// A row as it is written: its terms, its constant and how it compares.
pub type Given = (&'static [(u64, i128)], i128, Op);

/// A step: the multiplier and the number of the first row, and those of the second one.
pub type Summed = (i128, u64, i128, u64);

/// The row of terms that may repeat.
pub fn row_of(alloc: Global, terms: &[(u64, i128)], constant: i128, op: Op) -> Result<Row, Fail> {
    let mut pairs = RatPairs::new(alloc);
    for (x, c) in terms {
        let value = Rat::new(*c, 1)?;
        pairs.push(RatPair { x: *x, value })?;
    }
    let constant = Rat::new(constant, 1)?;
    Ok(Row::normal(alloc, &pairs, &constant, op)?)
}

fn has_terms(row: &Row, terms: &[(u64, i128)]) -> bool {
    let coeffs = row.coeffs().as_slice();
    if coeffs.len() != terms.len() {
        return false;
    }
    for (k, (x, c)) in coeffs.iter().zip(terms) {
        if k.x != *x || k.c != *c {
            return false;
        }
    }
    true
}

/// Whether the row has these terms in order, and no others.
pub fn is_row(row: &Row, terms: &[(u64, i128)], constant: i128, op: Op) -> bool {
    has_terms(row, terms) && row.constant() == constant && row.op() == op
}
