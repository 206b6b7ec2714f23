//! Rules that come to nothing by the first argument of their heads, left out before a state is touched.
ghost use Rattle.std.specs.Prelude.{◌≡◌, ◌++◌, Bool, IfOk, List, false, map};
ghost use Rattle.scasp_hint.specs.Satisfying.{sat};
ghost use Rattle.scasp_search_rules.specs.Successors.Assumptions.{assume_all};
ghost use Rattle.scasp_search_rules.specs.Successors.Calls.{differing, opposites};
ghost use Rattle.scasp_search_rules.specs.declared.states.state.State.{State as ThisState};
ghost use Rattle.scasp_search_state.specs.Choices.{left, rules_behind};
ghost use Rattle.scasp_search_steps.specs.Foresight.{Expects, ExpectsFirst, Skips, SkipsIf, clashes, clashes_with_name, clashes_with_number, first_clashes, head_clashes};
ghost use Rattle.scasp_syntax.specs.Tm.{app};
ghost use Rattle.scasp_syntax.specs.View.{tm_of};

use crate::clauses::next_rule;
use crate::expected::Expected;
use scasp_list::Memory;
use scasp_name::NameId;
use scasp_num::Rat;
use scasp_search_state::{Choice, Situation};
use scasp_syntax::{Cons, Lit, Program, Term, Terms};
use std::alloc::Global;

/// A state that tells something of terms before they are equated.
pub trait Foresees: Situation {
    /// Whether anything is ever told.
    ghost foresees: { Bool };

    /// What is known of the term.
    fn expected(&self, alloc: Global, term: &Term) -> Result<Expected, Memory>
        ensures expects { IfOk result (Expects (Self.now self.now) (tm_of term.now)) }
        ensures open { foresees ≡ false → IfOk result (λ e. e ≡ Expected.Open) };

    /// That the arguments differ from those of earlier literals of the other sign. Some of which that holds as it reads may be
    /// left out: in order, what is left is assumed as all are.
    fn unclear_opposites(&self, alloc: Global, lit: &Lit) -> Result<Cons, Memory>
        ensures { IfOk result (λ made. assume_all sat made (Self.now self.now) ≡ assume_all sat (map (differing lit.now) (opposites (Self.now self.now) lit.now)) (Self.now self.now)) };
}

// ---- heads

/// Whether a term of which this is known is not the number.
fn clashes_with_number(expected: &Expected, value: Rat) -> bool
    ensures { result ≡ clashes_with_number expected.now value }
{
    match expected {
        Expected::Open => false,
        Expected::Number(other) | Expected::Left(other) => *other != value,
        Expected::Name(_, _) => true,
    }
}

/// Whether a term of which this is known is not the name with these arguments.
fn clashes_with_name(expected: &Expected, name: NameId, args: &Terms) -> bool
    ensures { result ≡ clashes_with_name expected.now (app name args.now) }
{
    match expected {
        Expected::Open | Expected::Left(_) => false,
        Expected::Number(_) => true,
        Expected::Name(other, count) => *other != name || *count != args.len() as u64,
    }
}

/// Whether a term of which this is known is not this one, whatever its variables stand for.
fn clashes(expected: &Expected, term: &Term) -> bool
    ensures { result ≡ clashes expected.now (tm_of term.now) }
{
    match term {
        Term::Var(_) => false,
        Term::Num(value) => clashes_with_number(expected, *value),
        Term::App(name, args) => clashes_with_name(expected, *name, args),
    }
}

/// The same of the first of these terms, if there is one.
fn first_clashes(expected: &Expected, args: &Terms) -> bool
    ensures { result ≡ first_clashes expected.now args.now }
{
    match args.get(0) {
        Some(term) => clashes(expected, term),
        None => false,
    }
}

/// The same of the first argument of the rule's head.
fn head_clashes(program: &Program, expected: &Expected, rule: u64) -> bool
    ensures { result ≡ head_clashes program.now expected.now rule }
{
    match program.clause(rule) {
        Some(clause) => match &clause.head {
            Some(head) => first_clashes(expected, &head.args),
            None => false,
        },
        None => false,
    }
}

// ---- rules

/// What is known of the first of these terms.
#[tactic(auto, using(crate::proofs::SkipLemmas::first_expected))]
fn expected_first<M: Foresees>(alloc: Global, at: &M, args: &Terms) -> Result<Expected, Memory>
    ensures expects { IfOk result (ExpectsFirst (M.now at.now) args.now) }
    ensures open { M.foresees ≡ false → IfOk result (λ e. e ≡ Expected.Open) }
{
    match args.get(0) {
        Some(term) => at.expected(alloc, term),
        None => Ok(Expected::Open),
    }
}

/// A number behind which the rules go on behind those that clash one after the other.
#[tactic(auto, using(crate::proofs::SkipLemmas::none_skipped, crate::proofs::SkipLemmas::clash_skipped, crate::proofs::SkipLemmas::near_skipped, crate::proofs::SkipLemmas::open_head, crate::proofs::SkipLemmas::near_open, crate::proofs::SkipLemmas::last_open))]
fn behind_clashes(program: &Program, lit: &Lit, expected: &Expected, behind: u64) -> u64
    ensures none { expected.now ≡ Expected.Open → rules_behind program.now lit.now result ≡ rules_behind program.now lit.now behind }
    ensures skips { (s : ThisState) (rest : List ThisState) → ExpectsFirst s lit.now.atom.args expected.now → Skips program.now (left program.now (Choice.ByRules lit.now behind) s ++ rest) (left program.now (Choice.ByRules lit.now result) s ++ rest) }
{
    let mut last = behind;
    while let Some(rule) = next_rule(program, lit, last) {
        if !head_clashes(program, expected, rule) {
            return rule - 1;
        }
        last = rule;
    }
    last
}

/// The number behind which the rules of the literal go on, where those that come to nothing are left out.
#[tactic(auto, using(crate::proofs::SkipLemmas::gone_behind))]
pub(crate) fn go_behind<M: Foresees>(
    alloc: Global,
    program: &Program,
    at: &M,
    lit: &Lit,
    behind: u64,
) -> Result<u64, Memory>
    ensures { IfOk result (λ last. (rest : List ThisState) → SkipsIf M.foresees program.now (left program.now (Choice.ByRules lit.now behind) (M.now at.now) ++ rest) (left program.now (Choice.ByRules lit.now last) (M.now at.now) ++ rest)) }
{
    let expected = expected_first(alloc, at, &lit.atom.args)?;
    Ok(behind_clashes(program, lit, &expected, behind))
}

/// The choice without the rules in front that come to nothing.
#[tactic(auto, using(crate::proofs::SkipLemmas::same_skipped))]
pub(crate) fn without_clashes<M: Foresees>(
    alloc: Global,
    program: &Program,
    at: &M,
    choice: Choice,
) -> Result<Choice, Memory>
    ensures { IfOk result (λ made. (rest : List ThisState) → SkipsIf M.foresees program.now (left program.now choice (M.now at.now) ++ rest) (left program.now made (M.now at.now) ++ rest)) }
{
    match choice {
        Choice::ByRules { lit, behind } => {
            let behind = go_behind(alloc, program, at, &lit, behind)?;
            Ok(Choice::ByRules { lit, behind })
        }
        Choice::Cases(from) => Ok(Choice::Cases(from)),
        Choice::Other(tasks) => Ok(Choice::Other(tasks)),
    }
}
