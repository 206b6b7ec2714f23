//! Lines whose variables get the numbers that they have in a certificate.
ghost use Rattle.std.specs.Prelude.{◌≡◌, IfOk, map};
ghost use Rattle.scasp_search_rules.specs.Successors.Numbering.{line_renamed, lit_renamed, placing};

use scasp_lines_places::{all_under, atom_under};
use scasp_list::Memory;
use scasp_sample::{Placing, con_renamed};
use scasp_search_rules::{Line, Lines};
use scasp_syntax::{DeepCopy, Lit};
use std::alloc::Global;

fn lit_renamed(alloc: Global, by: &Placing, lit: &Lit) -> Result<Lit, Memory>
    ensures { IfOk result (λ made. made ≡ lit_renamed (placing by.now.all.now) lit.now) }
{
    Ok(Lit {
        positive: lit.positive,
        atom: atom_under(alloc, &lit.atom, by)?,
    })
}

fn line_renamed(alloc: Global, by: &Placing, line: &Line) -> Result<Line, Memory>
    ensures { IfOk result (λ made. made ≡ line_renamed (placing by.now.all.now) line.now) }
{
    match line {
        Line::Pos {
            atom,
            rule,
            terms,
            children,
        } => Ok(Line::Pos {
            atom: atom_under(alloc, atom, by)?,
            rule: *rule,
            terms: all_under(alloc, terms, by)?,
            children: *children,
        }),
        Line::Neg { atom, rules } => Ok(Line::Neg {
            atom: atom_under(alloc, atom, by)?,
            rules: *rules,
        }),
        Line::Loop { lit, literal } => Ok(Line::Loop {
            lit: lit_renamed(alloc, by, lit)?,
            literal: *literal,
        }),
        Line::Seen { lit, literal } => Ok(Line::Seen {
            lit: lit_renamed(alloc, by, lit)?,
            literal: *literal,
        }),
        Line::Test(constraint) => Ok(Line::Test(con_renamed(alloc, by, constraint)?)),
        Line::Split { constraint, parts } => Ok(Line::Split {
            constraint: con_renamed(alloc, by, constraint)?,
            parts: parts.copy(alloc)?,
        }),
        Line::Rule { .. } | Line::Check { .. } | Line::Void | Line::Leaf(_) | Line::Head(_) => {
            line.copy(alloc)
        }
    }
}

/// The lines renamed.
pub(crate) fn lines_renamed(alloc: Global, by: &Placing, lines: &Lines) -> Result<Lines, Memory>
    ensures { IfOk result (λ made. made ≡ map (line_renamed (placing by.now.all.now)) lines.now) }
{
    let mut made = Lines::new(alloc);
    for line in lines.as_slice() {
        made.push(line_renamed(alloc, by, line)?)?;
    }
    Ok(made)
}
