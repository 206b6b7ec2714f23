//! The test of a line of a case that cannot arise.
ghost use Rattle.std.specs.Prelude.{◌≡◌, ℕ};
ghost use Rattle.scasp_cert.specs.Trees.{void};
ghost use Rattle.scasp_lines.specs.Bodies.{Body as BodyValue};
ghost use Rattle.scasp_lines.specs.Contexts.{context as context_of};
ghost use Rattle.scasp_lines_places.specs.Places.View.{place_of};
ghost use Rattle.scasp_checker_rules.specs.LineFaults.{case_faults};
ghost use Rattle.scasp_checker_answer.specs.Judged.{Judges};
ghost use Rattle.scasp_checker_lines.specs.LineFaults.Whole.{whole};

use crate::line_faults::{Common, accept_hint};
use scasp_checker_answer::CheckErr;
use scasp_lines_places::Place;
use scasp_syntax::{Con, Hint};
use std::alloc::Global;

/// Tests that a case cannot arise: the hint shows that its context, of which `context` is the list, has no valuation.
pub fn accept_void(
    alloc: Global,
    common: &Common,
    context: &[Con],
    at: u64,
    here: &Place,
    hint: &Hint,
) -> Result<(), CheckErr>
    requires { context.now ≡ context_of (whole common.now).given (place_of here.now).opened }
    ensures { (next : ℕ) (body : BodyValue) → Judges result (case_faults (whole common.now) at next (place_of here.now) body (void hint.now)) }
{
    accept_hint(alloc, at, context, hint)
}
