//! Levels and signs of predicates: whether the entries are those of a map.
ghost use Rattle.std.specs.Prelude.{◌≡◌, IfOk};
ghost use Rattle.std.specs.List.{list_all, list_any};
ghost use Rattle.scasp_syntax.specs.Same.{same_pred};
ghost use Rattle.scasp_cert.specs.Certificate.{certificate_of};
ghost use Rattle.scasp_checker_rules.specs.Faults.{are_single, is_map_of, map_faults};
ghost use Rattle.scasp_checker_answer.specs.Judged.{Judges};

use crate::judged::{CheckErr, want};
use scasp_cert::Cert;
use scasp_checker_rules::Reason;
use scasp_graph::{Numbering, number};
use scasp_list::Memory;
use scasp_syntax::{Pred, PredMaps, Program};
use std::alloc::Global;

/// Whether the predicate is one of these, which are found by hashing.
#[tactic(auto, using(crate::proofs::MapLemmas::placed))]
fn has_pred(preds: &Numbering, pred: &Pred) -> bool
    ensures { result ≡ list_any (same_pred pred.now) preds.now }
{
    preds.place(pred) < preds.len()
}

/// Whether each entry is for one of these predicates.
fn are_known(preds: &Numbering, entries: &PredMaps) -> bool
    ensures { result ≡ list_all (λ m. list_any (same_pred m.pred) preds.now) entries.now }
{
    entries
        .as_slice()
        .iter()
        .all(|entry| has_pred(preds, &entry.pred))
}

/// Whether no two entries are for one predicate. It takes time linear in the entries.
fn are_single(alloc: Global, map: &PredMaps) -> Result<bool, Memory>
    ensures { IfOk result (λ single. single ≡ are_single map.now) }
{
    let mut later = Numbering::new(alloc);
    let entries = map.as_slice();
    let mut left = entries.len();
    'entries: while left > 0 {
        let pred = entries[left - 1].pred;
        if has_pred(&later, &pred) {
            return Ok(false);
        }
        later.insert(&pred)?;
        left -= 1;
    }
    Ok(true)
}

/// Whether each entry is for one of these predicates, and no two are for the same.
fn is_map_of(alloc: Global, preds: &Numbering, map: &PredMaps) -> Result<bool, Memory>
    ensures { IfOk result (λ is. is ≡ is_map_of preds.now map.now) }
{
    if !are_known(preds, map) {
        return Ok(false);
    }
    are_single(alloc, map)
}

/// Tests that each entry of the certificate's map is for a predicate of the program, and no two are for the same.
pub fn accept_map(alloc: Global, program: &Program, cert: &Cert) -> Result<(), CheckErr>
    ensures { Judges result (map_faults program.now (certificate_of cert.now)) }
{
    let preds = number(alloc, program)?;
    want(0, Reason::WrongMap, is_map_of(alloc, &preds, &cert.map)?)
}
