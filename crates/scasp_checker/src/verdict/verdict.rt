//! The verdict on a certificate.
ghost use Rattle.std.specs.Prelude.{◌≡◌, map, IsTrue, IfOk, IfErr, OnOk};
ghost use Rattle.scasp_cert.specs.Certificate.{certificate_of, checks_of};
ghost use Rattle.scasp_cert.specs.Flat.{is_flat};
ghost use Rattle.scasp_checker_rules.specs.Accepted.{Accepts};
ghost use Rattle.scasp_checker_rules.specs.Faults.{faults};
ghost use Rattle.scasp_graph.specs.Map.{map_faults};
ghost use Rattle.scasp_sound.specs.MapLevels.{covered};
ghost use Rattle.scasp_law_promise.specs.Good.{Good, GoodRight, HasClosedDomains};
ghost use Rattle.scasp_checker.specs.Verdict.Verdicts.{Decides, Refutes};
ghost use Rattle.scasp_checker.specs.declared.verdict.verdict.Verdict.TheVariants as answers;

use crate::verdict::acceptance::accept;
use scasp_cert::{Cert, Checks};
use scasp_checker_answer::CheckErr;
use scasp_graph::MapFault;
use scasp_law_promise::see_rows;
use scasp_list::Memory;
use scasp_map::first_fault;
use scasp_syntax::{Program, RuleList};
use std::alloc::Global;

/// What an accepted certificate is worth.
#[derive(Clone, Copy, Debug, PartialEq, Eq)]
pub enum Verdict {
    /// It joins each stable model of what it leaves of the program, and there is one.
    Right,
    /// It joins each stable model of what it leaves of the program; whether there is one is not shown, since this clause breaks the
    /// map.
    Joins(MapFault),
}

/// The clauses of the checks.
fn covered(alloc: Global, checks: &Checks) -> Result<RuleList, Memory>
    ensures { IfOk result (λ rules. rules ≡ map (λ k. k.0) (checks_of checks.now)) }
{
    let mut rules = RuleList::new(alloc);
    for check in checks.as_slice() {
        rules.push(check.clause)?;
    }
    Ok(rules)
}

/// Checks a certificate against the program alone. Each walk over it has a stack of its own.
///
/// # Errors
///
/// The first thing that is wrong with a certificate that is not accepted; want of memory.
pub fn check(alloc: Global, program: &Program, cert: &Cert) -> Result<Verdict, CheckErr>
    ensures exact { Decides result (faults program.now (certificate_of cert.now)) (map_faults program.now (covered (certificate_of cert.now)) cert.now.map) }
    ensures accepted { OnOk result (Accepts program.now (certificate_of cert.now)) }
    ensures refused { IfErr result (λ e. Refutes e (Accepts program.now (certificate_of cert.now))) }
    ensures good { OnOk result (Good program.now (certificate_of cert.now)) }
    ensures domains { OnOk result (IsTrue (is_flat (certificate_of cert.now)) → HasClosedDomains program.now (certificate_of cert.now)) }
    ensures right { IfOk result (λ answer. answer ≡ answers.Right → GoodRight program.now (certificate_of cert.now)) }
{
    see_rows(cert);
    accept(alloc, program, cert)?;
    let covered = covered(alloc, &cert.checks)?;
    match first_fault(alloc, program, &covered, &cert.map)? {
        None => Ok(Verdict::Right),
        Some(fault) => Ok(Verdict::Joins(fault)),
    }
}
