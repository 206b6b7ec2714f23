//! Lines as bindings read them.
ghost use Rattle.std.specs.Prelude.{◌≡◌, IfOk};
ghost use Rattle.std.specs.List.{list_any};
ghost use Rattle.scasp_readings.specs.Readings.{reading};
ghost use Rattle.scasp_search_rules.specs.Successors.Cases.{line_under};
ghost use Rattle.scasp_search_rules.specs.Successors.Replacing.{tells_unreplaced};
ghost use Rattle.scasp_unify.specs.Solving.{sub_of};

use crate::constraints::read_con;
use crate::literals::{read_atom, read_lit};
use crate::rows::is_unreplaced;
use scasp_bound::Bound;
use scasp_list::Memory;
use scasp_search_rules::Line;
use scasp_syntax::DeepCopy;
use std::alloc::Global;

/// The line as the bindings read it.
pub fn read_line(alloc: Global, bound: &Bound, line: &Line) -> Result<Line, Memory>
    ensures { IfOk result (λ made. made ≡ line_under (reading bound.now.now) line.now) }
{
    match line {
        Line::Pos {
            atom,
            rule,
            terms,
            children,
        } => Ok(Line::Pos {
            atom: read_atom(alloc, bound, atom)?,
            rule: *rule,
            terms: bound.read_terms(alloc, terms)?,
            children: *children,
        }),
        Line::Neg { atom, rules } => Ok(Line::Neg {
            atom: read_atom(alloc, bound, atom)?,
            rules: *rules,
        }),
        Line::Loop { lit, literal } => Ok(Line::Loop {
            lit: read_lit(alloc, bound, lit)?,
            literal: *literal,
        }),
        Line::Seen { lit, literal } => Ok(Line::Seen {
            lit: read_lit(alloc, bound, lit)?,
            literal: *literal,
        }),
        Line::Test(constraint) => Ok(Line::Test(read_con(alloc, bound, constraint)?)),
        Line::Rule { atom, rule, first } => Ok(Line::Rule {
            atom: read_atom(alloc, bound, atom)?,
            rule: *rule,
            first: *first,
        }),
        Line::Split { constraint, parts } => Ok(Line::Split {
            constraint: read_con(alloc, bound, constraint)?,
            parts: parts.copy(alloc)?,
        }),
        Line::Check { .. } | Line::Void | Line::Leaf(_) | Line::Head(_) => line.copy(alloc),
    }
}

/// Whether the line tells a row in which a replacement of a variable by what it reads as overflows.
fn tells_unreplaced(alloc: Global, bound: &Bound, line: &Line) -> Result<bool, Memory>
    ensures { IfOk result (λ answer. answer ≡ tells_unreplaced (sub_of bound.now.now) line.now) }
{
    match line {
        Line::Test(constraint) => is_unreplaced(alloc, bound, constraint),
        Line::Split { constraint, .. } => is_unreplaced(alloc, bound, constraint),
        Line::Pos { .. }
        | Line::Neg { .. }
        | Line::Loop { .. }
        | Line::Seen { .. }
        | Line::Rule { .. }
        | Line::Check { .. }
        | Line::Void
        | Line::Leaf(_)
        | Line::Head(_) => Ok(false),
    }
}

/// Whether one of the lines tells such a row.
pub fn lines_overflow(alloc: Global, bound: &Bound, lines: &[Line]) -> Result<bool, Memory>
    ensures { IfOk result (λ answer. answer ≡ list_any (tells_unreplaced (sub_of bound.now.now)) lines.now) }
{
    for line in lines {
        if tells_unreplaced(alloc, bound, line)? {
            return Ok(true);
        }
    }
    Ok(false)
}
