//! Covers, literals and lines.
ghost use Rattle.std.specs.Prelude.{◌≡◌, ◌+◌, ◌∷◌, [], IfOk, OnOk, ◌&&◌, filter, length, nat_eq};
ghost use Rattle.scasp_search_rules.specs.Successors.Calls.{can_be_seen, head_args, vars_of_clause, with_literal};
ghost use Rattle.scasp_search_rules.specs.Successors.Cases.{with_cover};
ghost use Rattle.scasp_search_rules.specs.Successors.Items.{with_line};
ghost use Rattle.scasp_search_rules.specs.Successors.Replacing.{close_overflows};
ghost use Rattle.scasp_search_state.specs.Words.{first_number, innermost, opened};
ghost use Rattle.scasp_search_trail.specs.States.{marks_of, state_of};
ghost use Rattle.scasp_syntax.specs.Tm.{items};

use crate::parts::{Parts, next};
use scasp_forall::{Opening, unbound_from};
use scasp_list::Memory;
use scasp_readings::lines_overflow;
use scasp_search_calls::{head_args, vars_of_clause};
use scasp_search_rules::Line;
use scasp_search_state::Begun;
use scasp_syntax::{DeepCopy, Lit, Program, VarList};
use std::alloc::Global;

// ---- covers

/// The clause of the innermost cover.
#[tactic(auto, using(crate::proofs::CoverLemmas::innermost_is, crate::proofs::CoverLemmas::innermost_none))]
pub(crate) fn innermost(parts: &Parts) -> Option<Begun>
    ensures { result ≡ innermost (state_of parts.now).covers }
{
    match parts.scopes.opening() {
        Some(opening) => Some(Begun {
            clause: opening.clause,
            first: opening.first,
            checks_head: opening.checks_head,
        }),
        None => None,
    }
}

/// Whether the clause has no variable, and its head no argument.
fn is_plain(alloc: Global, program: &Program, clause: u64, first: u64) -> Result<bool, Memory>
    ensures { IfOk result (λ plain. plain ≡ nat_eq (vars_of_clause program.now clause) 0 && nat_eq (length (items (head_args program.now clause first))) 0) }
{
    if vars_of_clause(program, clause) != 0 {
        return Ok(false);
    }
    Ok(head_args(alloc, program, clause, first)?.len() == 0)
}

/// The cover of the clause is the innermost one, with these universal variables.
#[tactic(auto, using(crate::proofs::LineLemmas::one_more, crate::proofs::CoverLemmas::covers_length))]
fn open_with(
    alloc: Global,
    parts: &mut Parts,
    opening: Opening,
    universals: VarList,
) -> Result<(), Memory>
    ensures now { OnOk result (state_of parts.new ≡ with_cover (state_of parts.old) (record { clause = opening.clause; first = opening.first; checks_head = opening.checks_head; plain = opening.plain; depth = length (state_of parts.old).covers + 1; case = parts.old.cases; universals = universals; region = []; waiting = []; before = (state_of parts.old).lines })) }
    ensures marks { OnOk result (marks_of parts.new ≡ marks_of parts.old) }
{
    let depth = next(parts.scopes.depth() as u64)?;
    let xs = universals.as_slice();
    parts.variables.become_universal(depth, xs)?;
    parts.scopes.open(alloc, opening, parts.cases, xs)?;
    parts.told.open()?;
    parts.cases = next(parts.cases)?;
    Ok(())
}

/// The cover of the clause is the innermost one; the clause's unbound variables are its universals.
pub(crate) fn open_cover(
    alloc: Global,
    program: &Program,
    parts: &mut Parts,
    begun: Begun,
) -> Result<(), Memory>
    ensures now { OnOk result (state_of parts.new ≡ opened program.now (state_of parts.old) begun) }
    ensures marks { OnOk result (marks_of parts.new ≡ marks_of parts.old) }
{
    let vars = vars_of_clause(program, begun.clause);
    let opening = Opening {
        clause: begun.clause,
        first: begun.first,
        checks_head: begun.checks_head,
        plain: is_plain(alloc, program, begun.clause, begun.first)?,
    };
    let universals = unbound_from(alloc, parts.store.bound(), begun.first, vars)?;
    open_with(alloc, parts, opening, universals)
}

// ---- literals

/// The number of the earliest literal that a call of this one sees again.
#[tactic(auto, using(crate::proofs::CoverLemmas::same_cases))]
pub(crate) fn seen(alloc: Global, parts: &Parts, lit: &Lit) -> Result<Option<u64>, Memory>
    ensures { IfOk result (λ found. found ≡ first_number (filter (can_be_seen (state_of parts.now) lit.now) (state_of parts.now).literals)) }
{
    let cases = parts.scopes.open_cases(alloc)?;
    parts
        .loops
        .seen(alloc, parts.store.bound(), cases.as_slice(), lit)
}

/// One more literal, inside the cases that are open.
#[tactic(auto, using(crate::proofs::CoverLemmas::cases_around))]
pub(crate) fn open_literal(alloc: Global, parts: &mut Parts, lit: &Lit) -> Result<(), Memory>
    ensures now { OnOk result (state_of parts.new ≡ with_literal (state_of parts.old) lit.now) }
    ensures marks { OnOk result (marks_of parts.new ≡ marks_of parts.old) }
{
    let cases = parts.scopes.cases_around(alloc)?;
    parts.loops.open(lit.copy(alloc)?, cases)
}

// ---- lines

/// One more line of the innermost case.
#[tactic(auto, using(crate::proofs::LineLemmas::told_more))]
pub(crate) fn tell(parts: &mut Parts, line: Line) -> Result<(), Memory>
    ensures now { OnOk result (state_of parts.new ≡ with_line (state_of parts.old) line) }
    ensures marks { OnOk result (marks_of parts.new ≡ marks_of parts.old) }
{
    let count = parts.told.count();
    prove!(count > 0);
    parts.told.put(line)
}

/// Whether the end of a case with universal variables comes next, and the bindings cannot replace a row of its lines.
#[tactic(auto, using(crate::proofs::CoverLemmas::same_universals, crate::proofs::LineLemmas::last_first))]
pub(crate) fn close_overflows(alloc: Global, parts: &Parts) -> Result<bool, Memory>
    ensures { IfOk result (λ overflows. overflows ≡ close_overflows (state_of parts.now) (state_of parts.now).work) }
{
    if !parts.frames.closes() || !parts.scopes.has_universals() {
        return Ok(false);
    }
    lines_overflow(alloc, parts.store.bound(), parts.told.last())
}
