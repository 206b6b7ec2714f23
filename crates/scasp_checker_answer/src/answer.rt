//! The answer, and what is given.
ghost use Rattle.std.specs.Prelude.{◌≡◌, ◌&&◌, nat_eq, length, IfOk};
ghost use Rattle.std.specs.List.{list_all};
ghost use Rattle.scasp_syntax.specs.WellFormed.{are_below};
ghost use Rattle.scasp_lines.specs.Known.{is_con_known};
ghost use Rattle.scasp_lines.specs.Lines.{free_of};
ghost use Rattle.scasp_cert.specs.Certificate.{certificate_of};
ghost use Rattle.scasp_syntax.specs.Programs.{numbered};
ghost use Rattle.scasp_syntax.specs.Tm.{items};
ghost use Rattle.scasp_checker_rules.specs.Faults.{answer_faults, is_free, query_items};
ghost use Rattle.scasp_checker_rules.specs.Refusals.{of_some};
ghost use Rattle.scasp_checker_answer.specs.Judged.{Judges};

use crate::judged::{CheckErr, want};
use crate::rules::has_count_of;
use crate::scope::{Below, are_below, are_cons_known};
use scasp_cert::Cert;
use scasp_checker_rules::Reason;
use scasp_list::Memory;
use scasp_syntax::{Program, Terms, flat_items};
use std::alloc::Global;

/// Whether there is such a query, and as many terms as it has variables.
fn answers(program: &Program, query: u64, terms: &Terms) -> bool
    ensures { result ≡ of_some (numbered program.now.queries query) (λ q. nat_eq (length (items terms.now)) (length q.names)) }
{
    match program.query(query) {
        Some(query) => terms.len() == query.names.len(),
        None => false,
    }
}

/// How many flat items the query has; none where there is no such query.
fn query_items(alloc: Global, program: &Program, query: u64) -> Result<u64, Memory>
    ensures { IfOk result (λ count. count ≡ query_items (numbered program.now.queries query)) }
{
    match program.query(query) {
        Some(query) => Ok(flat_items(alloc, &query.body)?.len() as u64),
        None => Ok(0),
    }
}

/// Whether the terms and what is given have free variables alone.
fn has_free_variables(alloc: Global, cert: &Cert) -> Result<bool, Memory>
    ensures { IfOk result (λ answer. answer ≡ (are_below (free_of (certificate_of cert.now)) cert.now.terms && list_all (is_con_known (is_free (certificate_of cert.now))) cert.now.given)) }
{
    let free = cert.sample.len() as u64;
    if !are_below(alloc, &cert.terms, free)? {
        return Ok(false);
    }
    are_cons_known(alloc, &Below(free), &cert.given)
}

/// Tests the answer and what is given, and that each item of the query has a tree.
pub fn accept_answer(alloc: Global, program: &Program, cert: &Cert) -> Result<(), CheckErr>
    ensures { Judges result (answer_faults program.now (certificate_of cert.now)) }
{
    want(
        0,
        Reason::WrongQuery,
        answers(program, cert.query, &cert.terms),
    )?;
    want(0, Reason::WrongVariable, has_free_variables(alloc, cert)?)?;
    let items = query_items(alloc, program, cert.query)?;
    want(0, Reason::WrongChildren, has_count_of(&cert.trees, items))
}
