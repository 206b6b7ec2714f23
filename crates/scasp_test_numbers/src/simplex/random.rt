//! Random rows, beside what the elimination answers.
use crate::simplex::trials::{Trial, Wanted, copies};
use crate::written::row_of;
use scasp_num::{Op, Row};
use scasp_rows::{LinErr, Verdict, eliminate, is_free_of_disequations};
use std::alloc::Global;
use std::test::Fail;

/// Numbers of a linear congruential generator (Knuth, MMIX).
#[derive(Drop)]
struct Generator {
    state: u64,
}

impl Generator {
    /// A number below `n`; 0 where that is 0.
    fn below(&mut self, n: u64) -> u64 {
        self.state = self
            .state
            .wrapping_mul(6364136223846793005)
            .wrapping_add(1442695040888963407);
        (self.state >> 33).checked_rem(n).unwrap_or(0)
    }

    /// A number from -3 to 3.
    fn small(&mut self) -> i128 {
        i128::from(self.below(7)).saturating_sub(3)
    }

    fn op(&mut self) -> Op {
        match self.below(6) {
            0 => Op::Eq,
            1 | 2 => Op::Lt,
            _ => Op::Le,
        }
    }

    /// A row of at most four terms, which may repeat, over so many variables.
    fn row(&mut self, alloc: Global, variables: u64) -> Result<Row, Fail> {
        let mut terms = Vec::new(alloc);
        for _ in 0..self.below(4).saturating_add(1) {
            terms.push((self.below(variables), self.small()))?;
        }
        let constant = self.small().saturating_mul(2).saturating_sub(2);
        let op = self.op();
        row_of(alloc, terms.as_slice(), constant, op)
    }
}

/// What the elimination answers of the rows.
fn eliminated(alloc: Global, rows: &[Row]) -> Result<Option<Wanted>, Fail> {
    let rows = copies(alloc, rows)?;
    if !is_free_of_disequations(&rows) {
        return Ok(None);
    }
    match eliminate(alloc, &rows) {
        Ok(Verdict::Sat) => Ok(Some(Wanted::Sat)),
        Ok(Verdict::Unsat(_)) => Ok(Some(Wanted::Unsat)),
        Err(LinErr::Overflow) => Ok(Some(Wanted::Overflow)),
        Err(LinErr::Memory) => Ok(None),
    }
}

/// Whether the tableau answers as the elimination does, with steps that are taken.
fn is_same(alloc: Global, trial: &mut Trial) -> Result<bool, Fail> {
    let wanted = eliminated(alloc, trial.rows.as_slice())?;
    Ok(wanted.is_some() && trial.decided(alloc)? == wanted)
}

/// A tableau of at most 12 rows over at most 6 variables.
fn some_rows(alloc: Global, generator: &mut Generator) -> Result<Trial, Fail> {
    let variables = generator.below(6).saturating_add(1);
    let mut trial = Trial::new(alloc);
    for _ in 0..generator.below(12).saturating_add(1) {
        trial.push(generator.row(alloc, variables)?)?;
    }
    Ok(trial)
}

#[test]
fn lists(rt: HostRuntime) -> Result<(), Fail> {
    let mut generator = Generator { state: 1 };
    for _ in 0..500 {
        let mut trial = some_rows(rt.alloc(), &mut generator)?;
        assert!(rt; is_same(rt.alloc(), &mut trial)?);
    }
    Ok(())
}

/// Pushes a row, marks, undoes to a mark, which is kept, or decides.
fn call(alloc: Global, trial: &mut Trial, generator: &mut Generator) -> Result<bool, Fail> {
    match generator.below(6) {
        0 => trial.mark()?,
        1 | 2 => trial.push(generator.row(alloc, 5)?)?,
        3 => undo_last(trial),
        _ => {
            let is_same = is_same(alloc, trial)?;
            if trial.rows.len() > 8 {
                undo_last(trial);
            }
            return Ok(is_same);
        }
    }
    Ok(true)
}

/// Undoes to the last mark, or to a new one where there is none.
fn undo_last(trial: &mut Trial) {
    if let Some(mark) = trial.marks.pop() {
        trial.undo(mark);
    }
}

#[test]
fn calls_in_any_order(rt: HostRuntime) -> Result<(), Fail> {
    let mut generator = Generator { state: 2 };
    let mut trial = Trial::new(rt.alloc());
    trial.mark()?;
    for _ in 0..600 {
        assert!(rt; call(rt.alloc(), &mut trial, &mut generator)?);
    }
    Ok(())
}
