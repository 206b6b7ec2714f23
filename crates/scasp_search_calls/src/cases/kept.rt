//! What a case has told, kept as it reads at its end.
ghost use Rattle.std.specs.Prelude.{◌≡◌, ◌++◌, IfOk, OnOk, map};
ghost use Rattle.std.specs.List.{list_any};
ghost use Rattle.scasp_search_calls.specs.Cases.Inside.Innermost.{ended_by};
ghost use Rattle.scasp_search_rules.specs.Successors.Cases.{kept_literal, line_under, unbound};
ghost use Rattle.scasp_search_rules.specs.Successors.Reading.{among};
ghost use Rattle.scasp_syntax.specs.Tm.{Tms};
ghost use Rattle.scasp_unify.specs.Unification.{terms_vars};

use scasp_list::Memory;
use scasp_search_constraints::among;
use scasp_search_rules::{Bindings, Line, Lines, Literal, Literals, State, copy_binding};
use scasp_search_terms::constraints::{push_all_vars, read_con};
use scasp_search_terms::reading::{read_atom, read_lit, read_terms};
use scasp_syntax::{DeepCopy, Terms, VarList};
use scasp_unify::Binding;
use std::alloc::Global;

/// The line as it reads in the state.
fn line_under(alloc: Global, state: &State, line: &Line) -> Result<Line, Memory>
    ensures { IfOk result (λ made. made ≡ line_under state.now line.now) }
{
    let bindings = state.bound.as_slice();
    match line {
        Line::Pos {
            atom,
            rule,
            terms,
            children,
        } => Ok(Line::Pos {
            atom: read_atom(alloc, atom, bindings)?,
            rule: *rule,
            terms: read_terms(alloc, terms, bindings)?,
            children: *children,
        }),
        Line::Neg { atom, rules } => Ok(Line::Neg {
            atom: read_atom(alloc, atom, bindings)?,
            rules: *rules,
        }),
        Line::Loop { lit, literal } => Ok(Line::Loop {
            lit: read_lit(alloc, lit, bindings)?,
            literal: *literal,
        }),
        Line::Seen { lit, literal } => Ok(Line::Seen {
            lit: read_lit(alloc, lit, bindings)?,
            literal: *literal,
        }),
        Line::Test(constraint) => Ok(Line::Test(read_con(alloc, constraint, bindings)?)),
        Line::Rule { atom, rule, first } => Ok(Line::Rule {
            atom: read_atom(alloc, atom, bindings)?,
            rule: *rule,
            first: *first,
        }),
        Line::Split { constraint, parts } => Ok(Line::Split {
            constraint: read_con(alloc, constraint, bindings)?,
            parts: parts.copy(alloc)?,
        }),
        Line::Check { .. } | Line::Void | Line::Leaf(_) | Line::Head(_) => line.copy(alloc),
    }
}

/// Puts the lines of the state, as they read, behind those of the list.
pub fn push_lines(alloc: Global, state: &State, lines: &mut Lines) -> Result<(), Memory>
    ensures { OnOk result (lines.new ≡ lines.old ++ map (line_under state.now) state.now.lines) }
{
    for line in state.lines.as_slice() {
        lines.push(line_under(alloc, state, line)?)?;
    }
    Ok(())
}

/// Whether some variable of the terms is among these.
fn has_one_of(alloc: Global, terms: &Terms, xs: &[u64]) -> Result<bool, Memory>
    ensures { IfOk result (λ has. has ≡ list_any (λ x. among x xs.now) (terms_vars terms.now)) }
{
    let mut vars = VarList::new(alloc);
    push_all_vars(terms, &mut vars)?;
    Ok(vars.as_slice().iter().any(|x| among(*x, xs)))
}

/// The literal as it reads; it is general where it has one of these universal variables.
fn kept_literal(
    alloc: Global,
    state: &State,
    universals: &[u64],
    literal: &Literal,
) -> Result<Literal, Memory>
    ensures { IfOk result (λ made. made ≡ kept_literal state.now universals.now literal.now) }
{
    let lit = read_lit(alloc, &literal.lit, state.bound.as_slice())?;
    let has_universal = has_one_of(alloc, &lit.atom.args, universals)?;
    Ok(Literal {
        number: literal.number,
        lit,
        cases: literal.cases.copy(alloc)?,
        is_done: literal.is_done,
        loops: literal.loops,
        is_general: literal.is_general || has_universal,
    })
}

fn kept_literals(alloc: Global, state: &State, universals: &[u64]) -> Result<Literals, Memory>
    ensures { IfOk result (λ made. made ≡ map (kept_literal state.now universals.now) state.now.literals) }
{
    let mut made = Literals::new(alloc);
    for literal in state.literals.as_slice() {
        made.push(kept_literal(alloc, state, universals, literal)?)?;
    }
    Ok(made)
}

/// The bindings without those of these universals, but for some.
fn unbound(
    alloc: Global,
    universals: &[u64],
    but: &[u64],
    bindings: &[Binding],
) -> Result<Bindings, Memory>
    ensures { IfOk result (λ made. made ≡ unbound universals.now but.now bindings.now) }
{
    let mut made = Bindings::new(alloc);
    for binding in bindings {
        if !among(binding.x, universals) || among(binding.x, but) {
            made.push(copy_binding(alloc, binding)?)?;
        }
    }
    Ok(made)
}

/// The state in which the case of a cover with these universals has ended, before which these lines stood.
pub fn ended_by(
    alloc: Global,
    state: State,
    universals: &[u64],
    lines: Lines,
    but: &[u64],
) -> Result<State, Memory>
    ensures { IfOk result (λ made. made ≡ ended_by state universals.now lines but.now) }
{
    let mut state = state;
    let mut lines = lines;
    push_lines(alloc, &state, &mut lines)?;
    let literals = kept_literals(alloc, &state, universals)?;
    let bound = unbound(alloc, universals, but, state.bound.as_slice())?;
    state.literals = literals;
    state.lines = lines;
    state.bound = bound;
    Ok(state)
}
