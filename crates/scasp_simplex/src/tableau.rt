//! Rows that come and go.
ghost use Rattle.std.specs.Prelude.{◌≡◌, ◌≢◌, ◌↔◌, ◌++◌, ◌∷◌, [], List, length, take, IfOk, OnOk, OnErr, Err};
ghost use Rattle.scasp_list.specs.Each.{Each};
ghost use Rattle.scasp_num.specs.Linear.{Linear};
ghost use Rattle.scasp_num.specs.declared.linear.Op.TheVariants as ops;
ghost use Rattle.scasp_rows.specs.Points.{IsMet, NoDisequation};
ghost use Rattle.scasp_rows.specs.Steps.{ReachesFalse, StepInRange};
ghost use Rattle.scasp_rows.specs.Verdicts.{IfUnsat, verdict_of};
ghost use Rattle.scasp_simplex.specs.Inside.Certified.{Answers};
ghost use Rattle.scasp_simplex.specs.Reached.{AddsFalse};

use crate::certified::certified;
use crate::fallback::{by_elimination, doubled, false_number, shortened};
use crate::form::Form;
use scasp_list::Memory;
use scasp_num::{Row, Rows};
use scasp_rows::{LinErr, Verdict};
use std::alloc::Global;
use std::marker::Model;
use std::mem;

/// A time to go back to: how many rows there were.
#[derive(Clone, Copy, Debug, PartialEq, Eq)]
pub struct TabMark {
    pub rows: u64,
}

/// A list of linear rows, none of them with `=\=`, and a simplex tableau that is kept between the calls.
#[derive(Drop)]
pub struct Tableau {
    rows: Rows,
    form: Form,
    alloc: Global,
}

impl Model for Tableau {
    ghost use Rattle.std.specs.Prelude.{List};
    ghost use Rattle.scasp_num.specs.Linear.{Linear};
    ghost use Rattle.scasp_rows.specs.Points.{NoDisequation};

    ghost Value = { List Linear };

    ghost view = { λ t. t.rows };

    ghost invariant = { λ t. NoDisequation t.rows };
}

impl Tableau {
    /// No rows; no memory is taken.
    pub fn new(alloc: Global) -> Tableau
        ensures { result ≡ [] }
    {
        Tableau {
            rows: Rows::new(alloc),
            form: Form::new(alloc),
            alloc,
        }
    }

    /// Puts a row without `=\=` at the end; after an error the list is unchanged.
    pub fn push_row(&mut self, row: &Row) -> Result<(), Memory>
        requires { row.now.op ≢ ops.Ne }
        ensures ok { OnOk result (self.new ≡ self.old ++ row.now ∷ []) }
        ensures err { OnErr result (self.new ≡ self.old) }
    {
        let row = row.clone()?;
        self.rows.push(row)
    }

    /// The present time. Whatever is pushed after it, `undo` gives back just the rows that there are now.
    pub fn mark(&self) -> TabMark
        ensures rows { result.rows ≡ length self.now }
        ensures given_back { (after : List Linear) → take result.rows (self.now ++ after) ≡ self.now }
    {
        TabMark {
            rows: self.rows.len() as u64,
        }
    }

    /// Takes away the rows that were pushed since the mark, which can be undone to again. No memory is taken. Where there
    /// are no more than at the mark, nothing changes.
    pub fn undo(&mut self, mark: TabMark)
        ensures { self.new ≡ take mark.rows self.old }
    {
        let count = mark.rows as usize;
        let rows = mem::replace(&mut self.rows, Rows::new(self.alloc));
        self.rows = shortened(rows, count);
        if count < self.form.rows {
            self.form.rows = count;
        }
    }

    /// Whether rational values meet all rows: Sat exactly where they do, else steps that add a false constant row.
    /// Overflow only where `eliminate` overflows on the same list.
    ///
    /// The last point that met all rows is tried first. Where it does not meet them, the tableau of the last call is
    /// brought up to date with the rows, and pivots are made, at most 64 and 16 for each of its variables, the later
    /// half of them by Bland's rule (1977). Strict rows have bounds with an infinitesimal part. Where a number of the
    /// tableau overflows, the bound on pivots is reached, or what it finds does not stand its test, the rows are
    /// eliminated, and the next call begins with a new tableau.
    pub fn decide(&mut self) -> Result<Verdict, LinErr>
        ensures rows { self.new ≡ self.old }
        ensures sat { IfOk result (λ verdict. (verdict ≡ Verdict.Sat) ↔ IsMet self.old) }
        ensures unsat { IfOk result (λ verdict. IfUnsat verdict (AddsFalse self.old)) }
        ensures reaches { IfOk result (λ verdict. IfUnsat verdict (ReachesFalse self.old)) }
        ensures multipliers { IfOk result (λ verdict. IfUnsat verdict (Each StepInRange)) }
        ensures overflow { result ≡ Err LinErr.Overflow → verdict_of self.old ≡ Err LinErr.Overflow }
    {
        self.answer()
    }

    /// The verdict of the tableau where it stands its test, else that of the elimination.
    fn answer(&mut self) -> Result<Verdict, LinErr>
        ensures rows { self.new ≡ self.old }
        ensures answer { Answers self.old result }
    {
        if let Some(number) = false_number(self.rows.as_slice()) {
            return doubled(self.alloc, &self.rows, number);
        }
        match certified(self.alloc, &mut self.form, self.rows.as_slice()) {
            Ok(Some(verdict)) => Ok(verdict),
            Ok(None) => {
                self.form = Form::new(self.alloc);
                by_elimination(self.alloc, &self.rows)
            }
            Err(Memory) => {
                self.form = Form::new(self.alloc);
                Err(LinErr::Memory)
            }
        }
    }
}
