//! Covers that are put on the stack.
ghost use Rattle.std.specs.Prelude.{◌≡◌, ◌+◌, [], IfOk, filter, nat_eq, not, slice_set, ◌&&◌, length};
ghost use Rattle.scasp_search_rules.specs.Successors.Calls.{head_args, vars_of_clause};
ghost use Rattle.scasp_search_rules.specs.Successors.Cases.{cover_for, unbound_of, universals_at, with_cover};
ghost use Rattle.scasp_search_rules.specs.Successors.Reading.{count_from};
ghost use Rattle.scasp_search_rules.specs.Successors.Splits.{is_bound_in};
ghost use Rattle.scasp_syntax.specs.Tm.{items};

use crate::calls::{head_args, vars_of_clause};
use crate::cases::lists::with_first;
use scasp_list::Memory;
use scasp_search_rules::{Cover, Kind, Lines, Made, Remainders, State, Variables};
use scasp_search_state::Begun;
use scasp_syntax::{Cons, Program, VarList};
use scasp_unify::Binding;
use std::alloc::Global;

fn is_bound(bindings: &[Binding], x: u64) -> bool
    ensures { result ≡ is_bound_in bindings.now x }
{
    bindings.iter().any(|binding| binding.x == x)
}

/// So many variables, from `first` on.
#[tactic(auto, using(crate::proofs::CasesLemmas::LeafLemmas::counted_more))]
fn counted(alloc: Global, first: u64, count: u64) -> Result<VarList, Memory>
    ensures { IfOk result (λ made. made ≡ count_from first count) }
{
    let mut made = VarList::new(alloc);
    for place in 0..count {
        let x = first.checked_add(place).ok_or(Memory)?;
        made.push(x)?;
    }
    Ok(made)
}

/// Those of the variables that are not bound.
fn not_bound(alloc: Global, bindings: &[Binding], xs: &[u64]) -> Result<VarList, Memory>
    ensures { IfOk result (λ made. made ≡ filter (λ x. not (is_bound_in bindings.now x)) xs.now) }
{
    let mut made = VarList::new(alloc);
    for x in xs {
        if !is_bound(bindings, *x) {
            made.push(*x)?;
        }
    }
    Ok(made)
}

/// Those of so many variables, from `first` on, that are not bound.
fn unbound_of(alloc: Global, state: &State, first: u64, count: u64) -> Result<VarList, Memory>
    ensures { IfOk result (λ made. made ≡ unbound_of state.now first count) }
{
    let xs = counted(alloc, first, count)?;
    not_bound(alloc, state.bound.as_slice(), xs.as_slice())
}

/// Whether the clause has no variable, and its head no argument.
fn is_plain(alloc: Global, program: &Program, clause: u64, first: u64) -> Result<bool, Memory>
    ensures { IfOk result (λ plain. plain ≡ nat_eq (vars_of_clause program.now clause) 0 && nat_eq (length (items (head_args program.now clause first))) 0) }
{
    if vars_of_clause(program, clause) != 0 {
        return Ok(false);
    }
    Ok(head_args(alloc, program, clause, first)?.len() == 0)
}

fn universal_at(depth: u64, x: u64, made: &mut Vec<Made>)
    ensures { made.new.items ≡ slice_set made.old.items x (record { kind = Kind.Universal; depth = depth }) }
{
    let place = x as usize;
    if place < made.len() {
        made[place] = Made {
            kind: Kind::Universal,
            depth,
        };
    }
}

/// The variables, of which these are universal ones of this depth.
fn universals_at(depth: u64, xs: &[u64], made: Variables) -> Variables
    ensures { result ≡ universals_at depth xs.now made }
{
    let mut made = made.into_vec();
    for x in xs {
        universal_at(depth, *x, &mut made);
    }
    Variables::from(made)
}

/// The state with a cover of the clause on the stack, of which these variables are the universals.
fn with_cover(
    alloc: Global,
    state: State,
    begun: Begun,
    plain: bool,
    universals: VarList,
) -> Result<State, Memory>
    ensures { IfOk result (λ made. made ≡ with_cover state (record { clause = begun.clause; first = begun.first; checks_head = begun.checks_head; plain = plain; depth = length state.covers + 1; case = state.cases; universals = universals; region = []; waiting = []; before = state.lines })) }
{
    let State {
        made,
        bound,
        given,
        covers,
        cases,
        literals,
        lines,
        work,
    } = state;
    let depth = covers.len() as u64 + 1;
    let made = universals_at(depth, universals.as_slice(), made);
    let cover = Cover {
        clause: begun.clause,
        first: begun.first,
        checks_head: begun.checks_head,
        plain,
        depth,
        case: cases,
        universals,
        region: Cons::new(alloc),
        waiting: Remainders::new(alloc),
        before: lines,
    };
    Ok(State {
        made,
        bound,
        given,
        covers: with_first(alloc, cover, covers)?,
        cases: cases.checked_add(1).ok_or(Memory)?,
        literals,
        lines: Lines::new(alloc),
        work,
    })
}

/// The state in which the cases of the clause begin.
pub fn with_cases(
    alloc: Global,
    program: &Program,
    state: State,
    begun: Begun,
) -> Result<State, Memory>
    ensures { IfOk result (λ made. made ≡ with_cover state (cover_for program.now state begun.clause begun.first begun.checks_head (unbound_of state begun.first (vars_of_clause program.now begun.clause)))) }
{
    let vars = vars_of_clause(program, begun.clause);
    let plain = is_plain(alloc, program, begun.clause, begun.first)?;
    let universals = unbound_of(alloc, &state, begun.first, vars)?;
    with_cover(alloc, state, begun, plain, universals)
}
