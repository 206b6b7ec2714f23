//! The hints that lines get.
ghost use Rattle.std.specs.Prelude.{◌≡◌, ◌&&◌, ◌++◌, ◌<◌, ◌∷◌, [], true, length, IfOk, OnOk, map};
ghost use Rattle.scasp_cert.specs.Certificate.{certificate_of};
ghost use Rattle.scasp_cert.specs.View.{branch_of, tree_of};
ghost use Rattle.scasp_fill.specs.Filling.Filled.{hint_for, hint_of, is_known, or_terms};
ghost use Rattle.scasp_fill.specs.Filling.Inside.Findings.{all_known, found_of, lists_asked, lists_at, lists_in};
ghost use Rattle.scasp_fill.specs.Filling.Inside.Left.{left_if};
ghost use Rattle.scasp_fill.specs.Filling.Inside.Pieces.{hinted_at, hinted_value};
ghost use Rattle.scasp_lines.specs.Lines.{lines};
ghost use Rattle.scasp_lines_places.specs.Places.View.{place_of};
ghost use Rattle.scasp_search_rules.specs.Successors.Answers.{case_lists, hint_lists, node_lists, part_lists};
ghost use Rattle.scasp_lines_walk.specs.Traversal.View.{line_of, lines_left, part_of};

use crate::filling::finding::{Finding, find_hint};
use crate::filling::pieces::{Piece, piece_of};
use scasp_cert::{Case, Cert, Node};
use scasp_lines_places::{Place, context, negated};
use scasp_lines_walk::{Line, Lines, Part};
use scasp_list::Memory;
use scasp_syntax::{Con, Cons, Hint, Program};
use std::alloc::Global;

/// What stands on a line, with the hint that the line gets.
#[derive(Drop)]
pub(crate) struct Hinted<'a> {
    pub piece: Piece<'a>,
    pub hint: Hint,
}

/// Lines with their hints, in order; and whether no list that they ask overflowed.
#[derive(Drop)]
pub(crate) struct HintedLines<'a> {
    pub all: Vec<Hinted<'a>>,
    pub known: bool,
}

/// A hint, and whether its list did not overflow.
#[derive(Drop)]
struct Tried {
    hint: Hint,
    known: bool,
}

/// The list of a node that asks for a hint: its context with the negation of the test.
fn node_list(
    alloc: Global,
    given: &[Con],
    here: &Place,
    node: &Node,
) -> Result<Option<Cons>, Memory>
    ensures { IfOk result (λ made. lists_in made ≡ node_lists given.now (place_of here.now) (tree_of node.now)) }
{
    match node {
        Node::Test { con, .. } => {
            let mut list = context(alloc, given, &here.opened)?;
            list.push(negated(alloc, here.hidden, con)?)?;
            Ok(Some(list))
        }
        Node::Pos { .. } | Node::Neg { .. } | Node::Loop { .. } | Node::Seen { .. } => Ok(None),
    }
}

/// The list of a case that asks for a hint: the context of one that cannot arise.
fn case_list(
    alloc: Global,
    given: &[Con],
    here: &Place,
    case: &Case,
) -> Result<Option<Cons>, Memory>
    ensures { IfOk result (λ made. lists_in made ≡ case_lists given.now (place_of here.now) (branch_of case.now)) }
{
    match case {
        Case::Void { .. } => Ok(Some(context(alloc, given, &here.opened)?)),
        Case::Split { .. } | Case::Leaf { .. } | Case::Head { .. } => Ok(None),
    }
}

/// The list that asks for a hint here, if there is one.
fn list_here(
    alloc: Global,
    given: &[Con],
    here: &Place,
    part: &Part,
) -> Result<Option<Cons>, Memory>
    ensures { IfOk result (λ made. lists_in made ≡ part_lists given.now (place_of here.now) (part_of part.now)) }
{
    match part {
        Part::Node { node, .. } => node_list(alloc, given, here, *node),
        Part::Case { case, .. } => case_list(alloc, given, here, *case),
        Part::Rule { .. } | Part::Check { .. } => Ok(None),
    }
}

/// The hint that is found, or else `Terms`.
fn found_hint(found: Finding) -> Tried
    ensures hint { result.hint ≡ or_terms (hint_of (found_of found)) }
    ensures known { result.known ≡ is_known (found_of found) }
{
    match found {
        Finding::Shown(hint) => Tried { hint, known: true },
        Finding::Nothing => Tried {
            hint: Hint::Terms,
            known: true,
        },
        Finding::Unknown => Tried {
            hint: Hint::Terms,
            known: false,
        },
    }
}

/// The hint for the list, if there is one.
fn hint_for(alloc: Global, list: Option<Cons>) -> Result<Tried, Memory>
    ensures hint { IfOk result (λ made. made.hint ≡ hint_for (lists_in list)) }
    ensures known { IfOk result (λ made. made.known ≡ all_known (lists_in list)) }
{
    match list {
        None => Ok(Tried {
            hint: Hint::Terms,
            known: true,
        }),
        Some(list) => Ok(found_hint(find_hint(alloc, list.as_slice())?)),
    }
}

/// Puts the line at the end with the hint that is found for it.
fn put_line<'a>(
    alloc: Global,
    given: &[Con],
    line: Line<'a>,
    made: &mut HintedLines<'a>,
) -> Result<(), Memory>
    ensures lines { OnOk result (map hinted_value made.new.all.items ≡ map hinted_value made.old.all.items ++ hinted_at given.now (line_of line.entry) ∷ []) }
    ensures known { OnOk result (made.new.known ≡ (made.old.known && all_known (lists_at given.now (line_of line.entry)))) }
{
    let list = list_here(alloc, given, &line.here, &line.part)?;
    let tried = hint_for(alloc, list)?;
    let piece = piece_of(&line.part);
    made.all.push(Hinted {
        piece,
        hint: tried.hint,
    })?;
    made.known = made.known && tried.known;
    Ok(())
}

/// Puts the next line at the end, if there is one, and tells whether there was.
fn put_next<'a>(
    alloc: Global,
    given: &[Con],
    left: &mut Lines<'a>,
    made: &mut HintedLines<'a>,
) -> Result<bool, Memory>
    ensures lines { IfOk result (λ more. map hinted_value made.new.all.items ++ map (hinted_at given.now) (left_if more left.new) ≡ map hinted_value made.old.all.items ++ map (hinted_at given.now) (lines_left left.old)) }
    ensures known { IfOk result (λ more. (made.new.known && all_known (lists_asked given.now (left_if more left.new))) ≡ (made.old.known && all_known (lists_asked given.now (lines_left left.old)))) }
    ensures less { IfOk result (λ more. more ≡ true → length (lines_left left.new) < length (lines_left left.old)) }
{
    match left.next(alloc)? {
        None => Ok(false),
        Some(line) => {
            put_line(alloc, given, line, made)?;
            Ok(true)
        }
    }
}

/// Puts all lines that are left.
fn put_all<'a>(
    alloc: Global,
    given: &[Con],
    left: &mut Lines<'a>,
    made: &mut HintedLines<'a>,
) -> Result<(), Memory>
    ensures lines { OnOk result (map hinted_value made.new.all.items ≡ map hinted_value made.old.all.items ++ map (hinted_at given.now) (lines_left left.old)) }
    ensures known { OnOk result (made.new.known ≡ (made.old.known && all_known (lists_asked given.now (lines_left left.old)))) }
{
    let mut more = true;
    while more {
        more = put_next(alloc, given, left, made)?;
    }
    Ok(())
}

/// All lines of the certificate, each with the hint that is found for the list that it asks; `Terms` where it asks none or
/// none is found.
pub(crate) fn hinted_lines<'a>(
    alloc: Global,
    program: &'a Program,
    cert: &'a Cert,
) -> Result<HintedLines<'a>, Memory>
    ensures lines { IfOk result (λ made. map hinted_value made.all.items ≡ map (hinted_at cert.now.given) (lines program.now (certificate_of cert.now))) }
    ensures known { IfOk result (λ made. made.known ≡ all_known (hint_lists program.now (certificate_of cert.now))) }
{
    let mut left = Lines::of(alloc, program, cert)?;
    let mut made = HintedLines {
        all: Vec::new(alloc),
        known: true,
    };
    put_all(alloc, cert.given.as_slice(), &mut left, &mut made)?;
    Ok(made)
}
