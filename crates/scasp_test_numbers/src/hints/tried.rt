//! Hints as they are written in the tables.
use crate::written::Summed;
use scasp_num::{Step, StepLists, Steps};
use scasp_syntax::Hint;
use std::alloc::Global;
use std::test::Fail;

/// A hint.
pub enum Tried {
    ByTerms,
    ByRows(&'static [Summed]),
    BySame(u64, &'static [&'static [Summed]]),
}

fn steps(alloc: Global, given: &[Summed]) -> Result<Steps, Fail> {
    let mut all = Steps::new(alloc);
    for (a, p, b, q) in given {
        all.push(Step {
            a: *a,
            p: *p,
            b: *b,
            q: *q,
        })?;
    }
    Ok(all)
}

fn step_lists(alloc: Global, lists: &[&[Summed]]) -> Result<StepLists, Fail> {
    let mut all = StepLists::new(alloc);
    for listed in lists {
        all.push(steps(alloc, listed)?)?;
    }
    Ok(all)
}

pub fn hint(alloc: Global, given: &Tried) -> Result<Hint, Fail> {
    match given {
        Tried::ByTerms => Ok(Hint::Terms),
        Tried::ByRows(listed) => Ok(Hint::Rows(steps(alloc, listed)?)),
        Tried::BySame(number, lists) => Ok(Hint::Same(*number, step_lists(alloc, lists)?)),
    }
}
