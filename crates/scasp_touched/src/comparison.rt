//! Two numbered lists, compared at each number.
ghost use Rattle.std.specs.Prelude.{◌≡◌, ℕ, Bool, IfOk, option_copied};
ghost use Rattle.std.specs.Option.{option_eq};
ghost use Rattle.scasp_syntax.specs.Programs.{numbered};
ghost use Rattle.scasp_touched.specs.Same as spec;
ghost use Rattle.scasp_touched.specs.Told.{told};

use crate::equality::{same_clause, same_query};
use scasp_list::{Memory, Sequence};
use scasp_syntax::{Clause, Query};
use std::alloc::Global;

/// What can be compared with another of its kind.
pub(crate) trait Alike {
    ghost same: { Self → Self → Bool };

    /// Whether it is the same as the other.
    fn is_same(&self, alloc: Global, other: &Self) -> Result<bool, Memory>
        ensures { IfOk result (λ answer. answer ≡ same self.now other.now) };
}

impl Alike for Clause {
    ghost same = { spec.same_clause };

    fn is_same(&self, alloc: Global, other: &Clause) -> Result<bool, Memory> {
        same_clause(alloc, self, other)
    }
}

impl Alike for Query {
    ghost same = { spec.same_query };

    fn is_same(&self, alloc: Global, other: &Query) -> Result<bool, Memory> {
        same_query(alloc, self, other)
    }
}

/// Whether both are the same, or both are missing.
fn same_option<T: Alike>(
    alloc: Global,
    first: Option<&T>,
    second: Option<&T>,
) -> Result<bool, Memory>
    ensures { IfOk result (λ answer. answer ≡ option_eq T.same (option_copied first.entry) (option_copied second.entry)) }
{
    match (first, second) {
        (None, None) => Ok(true),
        (Some(item), Some(other)) => item.is_same(alloc, other),
        (None, Some(_)) | (Some(_), None) => Ok(false),
    }
}

/// For each number from 1 whether the items of this number are the same; those of the numbers behind are.
pub(crate) fn compared<T: Alike>(
    alloc: Global,
    first: &Sequence<T>,
    second: &Sequence<T>,
) -> Result<Sequence<bool>, Memory>
    ensures { IfOk result (λ answers. (n : ℕ) → told answers n ≡ option_eq T.same (numbered first.now n) (numbered second.now n)) }
{
    let mut answers = Sequence::new(alloc);
    for place in 0..first.len().max(second.len()) {
        answers.push(same_option(alloc, first.get(place), second.get(place))?)?;
    }
    Ok(answers)
}

/// Whether the items of this number are the same.
pub(crate) fn told(answers: &Sequence<bool>, number: u64) -> bool
    ensures { result ≡ told answers.now number }
{
    if number == 0 {
        return true;
    }
    match answers.get((number - 1) as usize) {
        Some(answer) => *answer,
        None => true,
    }
}
