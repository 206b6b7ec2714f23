//! Literals that were shown before.
ghost use Rattle.std.specs.List.{list_all, list_any};
ghost use Rattle.std.specs.Prelude.{◌≡◌, IfOk, List, map, nat_eq};
ghost use Rattle.scasp_checker_rules.specs.Refusals.{of_some};
ghost use Rattle.scasp_checker_rules.specs.Targets.{is_around, is_target};
ghost use Rattle.scasp_lines.specs.Walk.{Line};
ghost use Rattle.scasp_lines_places.specs.Places.Chains.{chained};
ghost use Rattle.scasp_lines_places.specs.Places.View.{around_of, place_of};
ghost use Rattle.scasp_lines_walk.specs.Shown.Standings.{shows_it, standings};
ghost use Rattle.scasp_lines_walk.specs.Shown.TableView.{shown_of, table_value};
ghost use Rattle.scasp_syntax.specs.Programs.{numbered};

use crate::shown::table::{Literal, Row, Table};
use scasp_lines_places::{Chain, Enclosing, Place};
use scasp_list::Memory;
use scasp_syntax::{Lit, same_atom};
use std::alloc::Global;

/// Whether the case on line `at` is one of these.
fn has_case(around: &Chain<Enclosing>, at: u64) -> bool
    ensures { result ≡ list_any (λ k. nat_eq k.at at) (map around_of (chained around.now)) }
{
    let mut rest = around;
    while let Some((case, outer)) = rest.first() {
        if case.at == at {
            return true;
        }
        rest = outer;
    }
    false
}

/// Whether each of the cases is plain, or is around here, too.
fn are_around(here: &Chain<Enclosing>, cases: &Chain<Enclosing>) -> bool
    ensures { result ≡ list_all (is_around (map around_of (chained here.now))) (map around_of (chained cases.now)) }
{
    let mut rest = cases;
    while let Some((case, outer)) = rest.first() {
        if !case.plain && !has_case(here, case.at) {
            return false;
        }
        rest = outer;
    }
    true
}

/// Whether the line of a literal shows this one at a place on line `at`.
fn shows(alloc: Global, literal: &Literal, lit: &Lit, at: u64, here: &Place) -> Result<bool, Memory>
    ensures { IfOk result (λ is. is ≡ shows_it lit.now at (place_of here.now) (shown_of literal.now)) }
{
    if literal.saying.positive != lit.positive {
        return Ok(false);
    }
    if !same_atom(alloc, &literal.saying.atom, &lit.atom)? {
        return Ok(false);
    }
    Ok(literal.firm && literal.behind <= at && are_around(&here.around, &literal.around))
}

/// Whether line `to` shows the literal at a place on line `at`: it is a line of this literal, firm where it is positive,
/// which ended before, and each case around it is plain or is around the place, too. It takes time in the number of cases
/// around both lines.
pub fn shown_at(
    alloc: Global,
    table: &Table,
    lit: &Lit,
    to: u64,
    at: u64,
    here: &Place,
) -> Result<bool, Memory>
    ensures { (ls : List Line) → table_value table.now ≡ standings ls → IfOk result (λ is. is ≡ of_some (numbered ls to) (is_target lit.now at (place_of here.now))) }
{
    match table.line(to) {
        None => Ok(false),
        Some(Row::Other(_)) => Ok(false),
        Some(Row::Literal(literal)) => shows(alloc, literal, lit, at, here),
    }
}
