//! Whether rational values meet all rows, by the elimination of their variables.
ghost use Rattle.std.specs.Prelude.{◌≡◌, ◌↔◌, IfOk, IsTrue};
ghost use Rattle.scasp_list.specs.Each.{Each};
ghost use Rattle.scasp_rows.specs.Points.{IsMet, NoDisequation};
ghost use Rattle.scasp_rows.specs.Steps.{ReachesFalse, StepInRange};
ghost use Rattle.scasp_rows.specs.Verdicts.{IfUnsat, Says, verdict_of};

use crate::elimination::elimination;
use crate::state::Halt;
use scasp_num::{Rows, Steps};
use std::alloc::Global;
use thiserror::Error;

/// Why rows are not decided.
#[derive(Clone, Copy, Debug, PartialEq, Eq, Error)]
pub enum LinErr {
    #[error("a number is too large, or there are too many rows")]
    Overflow,
    #[error("out of memory")]
    Memory,
}

/// What is said of rows.
#[derive(Debug, Drop)]
pub enum Verdict {
    /// No rational values meet all rows: the steps lead from them to a false constant row.
    Unsat(Steps),
    /// Some rational values meet all rows.
    Sat,
}

/// Decides by elimination (Fourier 1826, Motzkin 1936) whether rational values meet all rows, of which none
/// may be a disequation. Overflow exactly where a product or a sum of the elimination lies outside -M..M,
/// with M = 2^127 - 1, or more than 4,096 rows stand after a variable.
pub fn eliminate(alloc: Global, rows: &Rows) -> Result<Verdict, LinErr>
    requires { NoDisequation rows.now }
    ensures exact { Says result (verdict_of rows.now) }
    ensures sat { IfOk result (λ verdict. (verdict ≡ Verdict.Sat) ↔ IsMet rows.now) }
    ensures unsat { IfOk result (λ verdict. IfUnsat verdict (ReachesFalse rows.now)) }
    ensures multipliers { IfOk result (λ verdict. IfUnsat verdict (Each StepInRange)) }
{
    match elimination(alloc, rows.as_slice()) {
        Ok(_) => Ok(Verdict::Sat),
        Err(Halt::Unsat(steps)) => Ok(Verdict::Unsat(steps)),
        Err(Halt::Overflow) => Err(LinErr::Overflow),
        Err(Halt::Memory) => Err(LinErr::Memory),
    }
}

/// Whether none of the rows is a disequation, as `eliminate` needs.
pub fn is_free_of_disequations(rows: &Rows) -> bool
    ensures { IsTrue result ↔ NoDisequation rows.now }
{
    for row in rows.as_slice() {
        if row.op().is_disequation() {
            return false;
        }
    }
    true
}
