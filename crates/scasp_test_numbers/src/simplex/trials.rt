//! A tableau beside the plain list of its rows.
use scasp_hint::unsat;
use scasp_num::{Row, Rows, Step, Steps};
use scasp_rows::{LinErr, Verdict, is_false, step};
use scasp_simplex::{TabMark, Tableau};
use scasp_syntax::{Con, Cons, Hint, Term};
use std::alloc::Global;
use std::test::Fail;

/// What is answered.
#[derive(Clone, Copy, PartialEq, Eq)]
pub enum Wanted {
    Sat,
    Unsat,
    Overflow,
}

/// A tableau, and the rows that it is to hold.
#[derive(Drop)]
pub struct Trial {
    pub tableau: Tableau,
    pub rows: Vec<Row>,
    pub marks: Vec<TabMark>,
}

impl Trial {
    pub fn new(alloc: Global) -> Trial {
        Trial {
            tableau: Tableau::new(alloc),
            rows: Vec::new(alloc),
            marks: Vec::new(alloc),
        }
    }

    /// Pushes the row onto both.
    pub fn push(&mut self, row: Row) -> Result<(), Fail> {
        if row.op().is_disequation() {
            return Err(Fail::from("a disequation"));
        }
        self.tableau.push_row(&row)?;
        self.rows.push(row)?;
        Ok(())
    }

    pub fn mark(&mut self) -> Result<(), Fail> {
        self.marks.push(self.tableau.mark())?;
        Ok(())
    }

    /// Undoes both to the mark.
    pub fn undo(&mut self, mark: TabMark) {
        self.tableau.undo(mark);
        self.rows.truncate(mark.rows as usize);
    }

    /// What the tableau answers; none where its steps are refused.
    pub fn decided(&mut self, alloc: Global) -> Result<Option<Wanted>, Fail> {
        match self.tableau.decide() {
            Ok(Verdict::Sat) => Ok(Some(Wanted::Sat)),
            Ok(Verdict::Unsat(steps)) => {
                let rows = self.rows.as_slice();
                let is_taken = is_shown(alloc, rows, &steps)? && is_hint(alloc, rows, steps)?;
                Ok(is_taken.then_some(Wanted::Unsat))
            }
            Err(LinErr::Overflow) => Ok(Some(Wanted::Overflow)),
            Err(LinErr::Memory) => Ok(None),
        }
    }
}

/// The row with this number, counted from 1.
fn numbered(rows: &[Row], number: u64) -> Option<&Row> {
    rows.get(number.checked_sub(1)? as usize)
}

/// The row that a step makes.
fn made(alloc: Global, rows: &[Row], next: &Step) -> Option<Row> {
    let first = numbered(rows, next.p)?;
    let second = numbered(rows, next.q)?;
    step(alloc, next.a, first, next.b, second).ok()
}

/// Whether all steps make rows, and one of these is a false constant row.
fn is_shown(alloc: Global, rows: &[Row], steps: &Steps) -> Result<bool, Fail> {
    let mut all = copies(alloc, rows)?;
    let mut is_reached = false;
    for next in steps.as_slice() {
        match made(alloc, all.as_slice(), next) {
            Some(row) => {
                is_reached = is_reached || is_false(&row);
                all.push(row)?;
            }
            None => return Ok(false),
        }
    }
    Ok(is_reached)
}

/// Whether the steps are accepted as a hint that the rows have no valuation.
fn is_hint(alloc: Global, rows: &[Row], steps: Steps) -> Result<bool, Fail> {
    let constraints = constraints(alloc, rows)?;
    Ok(unsat(alloc, constraints.as_slice(), &Hint::Rows(steps)).is_ok())
}

/// The rows, each behind the constraints that its variables are numbers.
fn constraints(alloc: Global, rows: &[Row]) -> Result<Cons, Fail> {
    let mut constraints = Cons::new(alloc);
    for row in rows {
        for k in row.coeffs().as_slice() {
            constraints.push(Con::Num(Term::Var(k.x)))?;
        }
        constraints.push(Con::Row(row.clone()?))?;
    }
    Ok(constraints)
}

/// The rows as `eliminate` takes them.
pub fn copies(alloc: Global, rows: &[Row]) -> Result<Rows, Fail> {
    let mut all = Rows::new(alloc);
    for row in rows {
        all.push(row.clone()?)?;
    }
    Ok(all)
}
