//! Hints: what they show, as answers of a line.
ghost use Rattle.std.specs.Prelude.{◌≡◌};
ghost use Rattle.scasp_hint.specs.Showing.{fault_of};
ghost use Rattle.scasp_checker_rules.specs.Refusals.{fault_at, reason_of};
ghost use Rattle.scasp_checker_answer.specs.Judged.{Judges};

use scasp_checker_answer::CheckErr;
use scasp_checker_rules::{Reason, Refusal};
use scasp_hint::{HintErr, HintFault, unsat};
use scasp_syntax::{Con, Hint};
use std::alloc::Global;

/// The reason for which a fault of a hint refuses a certificate.
fn reason_of(fault: HintFault) -> Reason
    ensures { result ≡ reason_of fault }
{
    match fault {
        HintFault::Step => Reason::HintStep,
        HintFault::Overflow => Reason::HintOverflow,
        HintFault::NotReached => Reason::HintNotReached,
    }
}

/// Tests that the hint shows the list to have no valuation.
pub fn accept_hint(alloc: Global, at: u64, constraints: &[Con], hint: &Hint) -> Result<(), CheckErr>
    ensures { Judges result (fault_at at (fault_of constraints.now hint.now)) }
{
    match unsat(alloc, constraints, hint) {
        Ok(()) => Ok(()),
        Err(HintErr::Fault(fault)) => Err(CheckErr::Refused(Refusal {
            at,
            reason: reason_of(fault),
        })),
        Err(HintErr::Memory) => Err(CheckErr::Memory),
    }
}
