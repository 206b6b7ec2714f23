//! Rows as they are written in the tests.
use scasp_num::{Op, Rat, RatPair, RatPairs, Row};
use std::alloc::Global;
use std::test::Fail;

/// The row of terms that may repeat.
pub fn row_of(alloc: Global, terms: &[(u64, i128)], constant: i128, op: Op) -> Result<Row, Fail> {
    let mut pairs = RatPairs::new(alloc);
    for (x, c) in terms {
        let value = Rat::new(*c, 1)?;
        pairs.push(RatPair { x: *x, value })?;
    }
    let constant = Rat::new(constant, 1)?;
    Ok(Row::normal(alloc, &pairs, &constant, op)?)
}
