//! Clauses by number, and the rules of a literal.
ghost use Rattle.std.specs.Prelude.{◌≡◌, ◌<◌, ◌-◌, ◌∷◌, ℕ, [], IfOk, MatchOption, length, ⊤};
ghost use Rattle.scasp_search_rules.specs.Successors.Items.{body_of};
ghost use Rattle.scasp_search_state.specs.Choices.{rules_behind, rules_in};
ghost use Rattle.scasp_syntax.specs.Programs.{pred_of};

use scasp_list::Memory;
use scasp_syntax::{Atom, Clause, Lit, Program, flat};
use std::alloc::Global;

/// How many items the flat body of the clause of this number has.
#[tactic(auto, using(crate::proofs::ClauseLemmas::body_count))]
pub(crate) fn body_length(alloc: Global, program: &Program, clause: u64) -> Result<u64, Memory>
    ensures { IfOk result (λ count. (first : ℕ) → count ≡ length (body_of program.now clause first)) }
{
    match program.clause(clause) {
        Some(found) => Ok(flat(alloc, found)?.len() as u64),
        None => Ok(0),
    }
}

/// The first rule of the predicate behind so many clauses; none stands between them and this rule.
fn first_rule(clauses: &[Clause], atom: &Atom, behind: u64) -> Option<u64>
    ensures first { MatchOption result (rules_in clauses.now (pred_of atom.now) behind ≡ []) (λ k. rules_in clauses.now (pred_of atom.now) behind ≡ k ∷ rules_in clauses.now (pred_of atom.now) k) }
    ensures near { MatchOption result ⊤ (λ k. (0 < k) × (rules_in clauses.now (pred_of atom.now) (k - 1) ≡ rules_in clauses.now (pred_of atom.now) behind)) }
{
    let mut place = behind as usize;
    while place < clauses.len() {
        if clauses[place].is_rule_of(atom.pred()) {
            return Some(place as u64 + 1);
        }
        place += 1;
    }
    None
}

/// The first rule of the literal behind that of this number; none stands between them.
pub(crate) fn next_rule(program: &Program, lit: &Lit, behind: u64) -> Option<u64>
    ensures near { MatchOption result ⊤ (λ k. (0 < k) × (rules_behind program.now lit.now (k - 1) ≡ rules_behind program.now lit.now behind)) }
    ensures first { MatchOption result (rules_behind program.now lit.now behind ≡ []) (λ k. rules_behind program.now lit.now behind ≡ k ∷ rules_behind program.now lit.now k) }
{
    first_rule(program.clauses.as_slice(), &lit.atom, behind)
}
