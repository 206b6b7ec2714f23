//! The step from one program to another.
ghost use Rattle.std.specs.Prelude.{◌≡◌, ◌||◌, ℕ, not, IfOk};
ghost use Rattle.std.specs.List.{list_any};
ghost use Rattle.scasp_syntax.specs.Programs.{predicates};
ghost use Rattle.scasp_syntax.specs.declared.atom.Pred.{Pred as ThisPred};
ghost use Rattle.scasp_cert.specs.Certificate.{certificate_of};
ghost use Rattle.scasp_touched.specs.Inside.{among};
ghost use Rattle.scasp_touched.specs.Once.{IsNamed};
ghost use Rattle.scasp_touched.specs.Told.{told};
ghost use Rattle.scasp_touched.specs.Touched as spec;

use crate::comparison::{compared, told};
use crate::moved::moved_between;
use crate::named::Named;
use crate::numbers::Numbers;
use scasp_cert::Cert;
use scasp_graph::{Numbering, number};
use scasp_list::{Memory, Sequence};
use scasp_syntax::{Pred, PredMap, PredMaps, Program};
use std::alloc::Global;

/// The step from one program to another, with what is compared once for all certificates.
#[derive(Drop)]
pub struct Edit<'a> {
    pub old: &'a Program,
    pub new: &'a Program,
    /// For each number from 1 whether the clause is the same.
    clauses: Sequence<bool>,
    /// Likewise of queries.
    queries: Sequence<bool>,
    /// The predicates whose rules have other numbers.
    moved: Numbering,
    /// The predicates that occur in the old program.
    before: Numbering,
    /// Those that occur in the new one.
    after: Numbering,
    ghost clauses_are: { (k : ℕ) → not (told clauses k) ≡ spec.clause_differs old.now new.now k },
    ghost queries_are: { (n : ℕ) → not (told queries n) ≡ spec.query_differs old.now new.now n },
    ghost moved_are: { (p : ThisPred) → among moved p ≡ spec.rules_differ old.now new.now p },
    ghost before_is: { before ≡ predicates old.now },
    ghost after_is: { after ≡ predicates new.now },
}

/// Whether the predicate is there.
fn has(preds: &Numbering, pred: Pred) -> bool
    ensures { result ≡ among preds.now pred }
{
    preds.place(&pred) < preds.len()
}

impl<'a> Edit<'a> {
    /// The step from the old program to the new one. It takes time linear in both.
    ///
    /// # Errors
    ///
    /// Want of memory.
    pub fn between(alloc: Global, old: &'a Program, new: &'a Program) -> Result<Edit<'a>, Memory>
        ensures { IfOk result (λ edit. (edit.old.now ≡ old.now) × (edit.new.now ≡ new.now)) }
    {
        Ok(Edit {
            old,
            new,
            clauses: compared(alloc, &old.clauses, &new.clauses)?,
            queries: compared(alloc, &old.queries, &new.queries)?,
            moved: moved_between(alloc, &old.clauses, &new.clauses)?,
            before: number(alloc, old)?,
            after: number(alloc, new)?,
        })
    }

    /// Whether one of the clauses differs.
    fn changes_any(&self, clauses: &Numbers) -> bool
        ensures { result ≡ list_any (spec.clause_differs self.now.old.now self.now.new.now) clauses.now }
    {
        for clause in clauses.as_slice() {
            if !told(&self.clauses, *clause) {
                return true;
            }
        }
        false
    }

    /// Whether the rules of one of the predicates have other numbers.
    fn moves_any(&self, preds: &Numbering) -> bool
        ensures { result ≡ list_any (spec.rules_differ self.now.old.now self.now.new.now) preds.now }
    {
        for pred in preds.as_slice() {
            if has(&self.moved, *pred) {
                return true;
            }
        }
        false
    }

    /// Whether the predicate of one of the entries occurs in one of the programs alone.
    fn has_in_one(&self, map: &PredMaps) -> bool
        ensures { result ≡ list_any (spec.is_in_one self.now.old.now self.now.new.now) map.now }
    {
        for entry in map.as_slice() {
            if has(&self.before, entry.pred) != has(&self.after, entry.pred) {
                return true;
            }
        }
        false
    }

    /// Whether the query differs.
    fn touches_query(&self, query: u64) -> bool
        ensures { result ≡ spec.query_differs self.now.old.now self.now.new.now query }
    {
        !told(&self.queries, query)
    }

    /// Whether one of the clauses differs, or the rules of one of the predicates have other numbers.
    fn touches_named(&self, named: &Named) -> bool
        ensures { result ≡ (list_any (spec.clause_differs self.now.old.now self.now.new.now) named.now.clauses || list_any (spec.rules_differ self.now.old.now self.now.new.now) named.now.preds) }
    {
        self.changes_any(&named.clauses) || self.moves_any(&named.preds)
    }

    /// Whether the step touches what the certificate's lines name, which is this.
    fn touches_lines(&self, cert: &Cert, named: &Named) -> bool
        requires { IsNamed named.now (certificate_of cert.now) }
        ensures { result ≡ spec.are_lines_touched self.now.old.now self.now.new.now (certificate_of cert.now) }
    {
        self.touches_named(named)
    }

    /// Whether the step touches the certificate, whose lines name this. It takes time linear in what they name and in the
    /// certificate's map, and no memory.
    pub fn touches(&self, cert: &Cert, named: &Named) -> bool
        requires { IsNamed named.now (certificate_of cert.now) }
        ensures { result ≡ spec.touched self.now.old.now self.now.new.now (certificate_of cert.now) }
    {
        if self.touches_query(cert.query) {
            return true;
        }
        self.touches_lines(cert, named) || self.has_in_one(&cert.map)
    }
}
