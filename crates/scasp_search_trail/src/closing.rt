//! The end of a case, of its cover, or its last remainder.
ghost use Rattle.std.specs.Prelude.{◌≡◌, ◌<◌, ◌++◌, OnOk, Some, length, map, reverse, slice_get};
ghost use Rattle.scasp_bound.specs.Bounds.{unbound};
ghost use Rattle.scasp_readings.specs.Readings.{reading};
ghost use Rattle.scasp_search_rules.specs.Successors.Cases.{kept_literal, line_under, replaced_now};
ghost use Rattle.scasp_search_state.specs.Words.{closed};
ghost use Rattle.scasp_search_trail.specs.States.{first, marks_of, others, state_of};
ghost use Rattle.scasp_told.specs.Pieces.{last_of};

use crate::parts::{Parts, next, require};
use scasp_bound::Bound;
use scasp_list::Memory;
use scasp_loops::Loops;
use scasp_readings::{read_line, read_term};
use scasp_search_rules::Line;
use scasp_store::Store;
use scasp_told::Told;
use scasp_unify::Binding;
use std::alloc::Global;

/// The line at the place of the last piece.
fn line_at(told: &Told<Line>, at: usize) -> &Line
    requires { at < length (last_of told.now.now) }
    ensures { slice_get (last_of told.now.now) at ≡ Some result.now }
{
    &told.last()[at]
}

/// Each line of the last piece stands as the bindings read it.
#[tactic(auto, using(crate::proofs::CopyLemmas::read_more, crate::proofs::CopyLemmas::all_read, crate::proofs::CopyLemmas::set_of_last, crate::proofs::CopyLemmas::set_others))]
fn read_last(alloc: Global, told: &mut Told<Line>, bound: &Bound) -> Result<(), Memory>
    ensures last { OnOk result (last_of told.new.now ≡ map (line_under (reading bound.now.now)) (last_of told.old.now)) }
    ensures others { OnOk result (others (reverse told.new.now) ≡ others (reverse told.old.now)) }
    ensures before { OnOk result (told.new.before ≡ told.old.before) }
{
    let mut at = 0;
    'lines: while at < told.last().len() {
        let line = read_line(alloc, bound, line_at(told, at))?;
        told.set(at, line)?;
        at += 1;
    }
    Ok(())
}

/// The lines of the ended case, as they read, stand behind those before it.
#[tactic(auto, using(crate::proofs::LineLemmas::last_first, crate::proofs::LineLemmas::joined))]
fn join_read(alloc: Global, told: &mut Told<Line>, bound: &Bound) -> Result<(), Memory>
    ensures first { OnOk result (first (reverse told.new.now) ≡ first (others (reverse told.old.now)) ++ map (line_under (reading bound.now.now)) (first (reverse told.old.now))) }
    ensures others { OnOk result (others (reverse told.new.now) ≡ others (others (reverse told.old.now))) }
    ensures before { OnOk result (told.new.before ≡ told.old.before) }
{
    require(told.count() > 1)?;
    read_last(alloc, told, bound)?;
    told.join()?;
    Ok(())
}

/// A case with these universal variables has ended; some of them stay bound.
fn end_case(
    alloc: Global,
    loops: &mut Loops,
    told: &mut Told<Line>,
    store: &mut Store,
    universals: &[u64],
    but: &[u64],
) -> Result<(), Memory>
    ensures literals { OnOk result (loops.new.now ≡ map (kept_literal (reading store.old.bound.now) universals.now) loops.old.now) }
    ensures lines { OnOk result (first (reverse told.new.now) ≡ first (others (reverse told.old.now)) ++ map (line_under (reading store.old.bound.now)) (first (reverse told.old.now))) }
    ensures pieces { OnOk result (others (reverse told.new.now) ≡ others (others (reverse told.old.now))) }
    ensures bound { OnOk result (store.new.bound.now ≡ unbound universals.now but.now store.old.bound.now) }
    ensures given { OnOk result (store.new.given ≡ store.old.given) }
    ensures literals_before { OnOk result (loops.new.before ≡ loops.old.before) }
    ensures lines_before { OnOk result (told.new.before ≡ told.old.before) }
    ensures bound_before { OnOk result (store.new.bound.before ≡ store.old.bound.before) }
{
    loops.end_case(alloc, store.bound(), universals)?;
    join_read(alloc, told, store.bound())?;
    store.end_case(alloc, universals, but)?;
    Ok(())
}

/// The variable of the equation is bound to its term, as it reads now.
fn bind_again(alloc: Global, store: &mut Store, equation: &Option<Binding>) -> Result<(), Memory>
    ensures bound { OnOk result (store.new.bound.now ≡ store.old.bound.now ++ replaced_now (reading store.old.bound.now) equation.now) }
    ensures given { store.new.given ≡ store.old.given }
    ensures before { store.new.bound.before ≡ store.old.bound.before }
{
    match equation {
        Some(binding) => {
            let term = read_term(alloc, store.bound(), &binding.term)?;
            store.bind(alloc, binding.x, term)
        }
        None => Ok(()),
    }
}

/// The case of the innermost cover has ended: its last remainder is its case, or the cover is gone.
#[tactic(auto, using(crate::proofs::ClosingLemmas::none_closed))]
pub(crate) fn close_case(alloc: Global, parts: &mut Parts) -> Result<(), Memory>
    ensures now { OnOk result (state_of parts.new ≡ closed (state_of parts.old) (state_of parts.old).covers) }
    ensures marks { OnOk result (marks_of parts.new ≡ marks_of parts.old) }
{
    if parts.scopes.depth() == 0 {
        return Ok(());
    }
    let universals = parts.scopes.universals(alloc)?;
    let xs = universals.as_slice();
    match parts.scopes.next() {
        Some(rest) => {
            end_case(
                alloc,
                &mut parts.loops,
                &mut parts.told,
                &mut parts.store,
                xs,
                rest.replaced.as_slice(),
            )?;
            bind_again(alloc, &mut parts.store, &rest.equation)?;
            parts.told.open()?;
            parts.scopes.take_up(parts.cases)?;
            parts.cases = next(parts.cases)?;
            Ok(())
        }
        None => {
            end_case(
                alloc,
                &mut parts.loops,
                &mut parts.told,
                &mut parts.store,
                xs,
                &[],
            )?;
            parts.scopes.close()?;
            Ok(())
        }
    }
}
