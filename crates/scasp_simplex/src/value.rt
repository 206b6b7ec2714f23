//! Numbers with a multiple of an infinitesimal one.
use crate::stop::Stop;
use crate::whole::{product, quotient, sum};
use std::cmp::Ordering;

/// `real` plus `tiny` times a number that is above 0 and below all others above 0.
#[derive(Clone, Copy)]
pub(crate) struct Value {
    pub(crate) real: i128,
    pub(crate) tiny: i128,
}

impl Value {
    pub(crate) fn zero() -> Value {
        Value { real: 0, tiny: 0 }
    }

    /// The value times the number.
    pub(crate) fn times(&self, a: i128) -> Result<Value, Stop> {
        let real = product(self.real, a)?;
        let tiny = product(self.tiny, a)?;
        Ok(Value { real, tiny })
    }

    pub(crate) fn plus(&self, other: &Value) -> Result<Value, Stop> {
        let real = sum(self.real, other.real)?;
        let tiny = sum(self.tiny, other.tiny)?;
        Ok(Value { real, tiny })
    }

    /// The value divided by a divisor of both of its numbers.
    pub(crate) fn divided(&self, by: i128) -> Result<Value, Stop> {
        let real = quotient(self.real, by)?;
        let tiny = quotient(self.tiny, by)?;
        Ok(Value { real, tiny })
    }

    /// How the value compares with the other.
    pub(crate) fn compare(&self, other: &Value) -> Ordering {
        match self.real.cmp(&other.real) {
            Ordering::Less => Ordering::Less,
            Ordering::Equal => self.tiny.cmp(&other.tiny),
            Ordering::Greater => Ordering::Greater,
        }
    }
}
