//! The trees of a block for the eye: each line with the clause, the body or the item in words that it names by number.
ghost use Rattle.std.specs.Prelude.{◌≡◌, ◌+◌, ◌*◌, ◌<◌, ◌++◌, ◌∷◌, map, reverse, IfOk, OnOk};
ghost use Rattle.scasp_cert.specs.Certificate.{certificate_of, check_of};
ghost use Rattle.scasp_cert.specs.Lines.{lines_at, lines_below, lines_in, lines_of, lines_under};
ghost use Rattle.scasp_cert.specs.Trees.{covering, listed};
ghost use Rattle.scasp_cert.specs.View.{branch_of, cover_of, tree_of};
ghost use Rattle.scasp_view_top.specs.Trees.Inside.Waiting.{rows_of, rows_waiting, weight, weights};
ghost use Rattle.scasp_view_top.specs.Trees.Pages.{with_row, with_rows};
ghost use Rattle.scasp_view_top.specs.Trees.Rows as spec;
ghost use Rattle.scasp_view_top.specs.Trees.Trees.{checks_text, count_line, trees_text};

mod labels;
mod marks;
mod numbering;
mod page;
mod view;
mod wording;

use crate::trees::labels::{
    check_label, leaf_label, loop_label, neg_label, pos_label, rule_label, seen_label, split_label,
    test_label,
};
use crate::trees::marks::{Spot, lead, stem_below};
use crate::trees::page::Page;
pub(crate) use labels::put_lit;
use scasp_cert::{Case, Cert, Check, Cover, Node};
use scasp_list::Memory;
use scasp_print_words::{put, put_number};
use scasp_syntax::Con;
pub use view::View;
pub use wording::{Text, Wording};

/// A part of a certificate that is still to be shown, with the stem of its lines.
#[derive(Drop)]
enum Waiting<'a> {
    Nodes(Vec<u8>, &'a [Node]),
    Covers(Vec<u8>, &'a [Cover]),
    /// A case of the clause of this number.
    Case(u64, Spot, &'a Case),
    Checks(&'a [Check]),
}

/// Puts a part before those that wait; the last of them is the next to be shown.
fn wait<'a>(waiting: &mut Vec<Waiting<'a>>, part: Waiting<'a>) -> Result<(), Memory>
    ensures { OnOk result (reverse waiting.new.items ≡ part.entry ∷ reverse waiting.old.items) }
{
    waiting.push(part)?;
    Ok(())
}

/// Whether it is a test that a term is a number.
fn is_number_test(con: &Con) -> bool
    ensures { result ≡ spec.is_number_test con.now }
{
    match con {
        Con::Num(_) => true,
        Con::Eq(_, _) | Con::Neq(_, _) | Con::NotShape(_, _, _) | Con::NotNum(_) | Con::Row(_) => {
            false
        }
    }
}

/// Whether the line of the node is left out.
fn is_hidden(node: &Node) -> bool
    ensures { result ≡ spec.is_hidden (tree_of node.now) }
{
    match node {
        Node::Pos { .. } | Node::Neg { .. } | Node::Loop { .. } | Node::Seen { .. } => false,
        Node::Test { con, .. } => is_number_test(con),
    }
}

/// Whether the lines of all of them are left out.
fn are_hidden(nodes: &[Node]) -> bool
    ensures { result ≡ spec.are_hidden (listed (map tree_of nodes.now)) }
{
    for node in nodes {
        if !is_hidden(node) {
            return false;
        }
    }
    true
}

/// Whether there are no rules.
fn are_none(covers: &[Cover]) -> bool
    ensures { result ≡ spec.is_no_branch (covering (map cover_of covers.now)) }
{
    match covers.split_first() {
        None => true,
        Some(_) => false,
    }
}

/// Puts a line where it stands.
fn put_line(page: &mut Page, view: &View<'_>, spot: &Spot, label: &[u8]) -> Result<(), Memory>
    ensures { OnOk result (page.new ≡ with_row page.old (spec.row view.now spot.now.stem.items spot.now.is_last label.now)) }
{
    let lead = lead(page.allocator(), view, spot)?;
    page.put(lead.as_slice(), label)
}

/// Puts the line of a test, unless it is left out.
fn put_test(page: &mut Page, view: &View<'_>, spot: &Spot, con: &Con) -> Result<(), Memory>
    ensures { OnOk result (page.new ≡ with_row page.old (spec.test_row view.now spot.now.stem.items spot.now.is_last con.now)) }
{
    if is_number_test(con) {
        page.pass()
    } else {
        let label = test_label(page.allocator(), view, con)?;
        put_line(page, view, spot, label.as_slice())
    }
}

/// Puts the line of a node; what stands below it waits.
fn put_node<'a>(
    page: &mut Page,
    view: &View<'_>,
    spot: &Spot,
    node: &'a Node,
    waiting: &mut Vec<Waiting<'a>>,
) -> Result<(), Memory>
    ensures rows { OnOk result (with_rows page.new (rows_waiting view.now (reverse waiting.new.items)) ≡ with_rows page.old (spec.tree_rows view.now spot.now.stem.items spot.now.is_last (tree_of node.now) ++ rows_waiting view.now (reverse waiting.old.items))) }
    ensures falls { OnOk result (weights (reverse waiting.new.items) < weights (reverse waiting.old.items) + 2 * lines_of (tree_of node.now)) }
{
    let alloc = page.allocator();
    match node {
        Node::Pos {
            atom,
            rule,
            children,
            ..
        } => {
            let label = pos_label(alloc, view, atom, *rule)?;
            put_line(page, view, spot, label.as_slice())?;
            let stem = stem_below(alloc, view, spot)?;
            wait(waiting, Waiting::Nodes(stem, children.as_slice()))
        }
        Node::Neg { atom, covers } => {
            let label = neg_label(alloc, view, atom)?;
            put_line(page, view, spot, label.as_slice())?;
            let stem = stem_below(alloc, view, spot)?;
            wait(waiting, Waiting::Covers(stem, covers.as_slice()))
        }
        Node::Loop { lit, at } => {
            let label = loop_label(alloc, view, lit, *at)?;
            put_line(page, view, spot, label.as_slice())
        }
        Node::Seen { lit, at } => {
            let label = seen_label(alloc, view, lit, *at)?;
            put_line(page, view, spot, label.as_slice())
        }
        Node::Test { con, .. } => put_test(page, view, spot, con),
    }
}

/// A case below the line at the spot waits.
fn wait_case<'a>(
    view: &View<'_>,
    clause: u64,
    spot: &Spot,
    is_last: bool,
    case: &'a Case,
    waiting: &mut Vec<Waiting<'a>>,
) -> Result<(), Memory>
    ensures rows { OnOk result (rows_waiting view.now (reverse waiting.new.items) ≡ spec.case_rows view.now clause (spec.stem_below view.now spot.now.stem.items spot.now.is_last) is_last (branch_of case.now) ++ rows_waiting view.now (reverse waiting.old.items)) }
    ensures weight { OnOk result (weights (reverse waiting.new.items) ≡ 2 * lines_at (branch_of case.now) + weights (reverse waiting.old.items)) }
{
    let stem = stem_below(*waiting.allocator(), view, spot)?;
    wait(waiting, Waiting::Case(clause, Spot { stem, is_last }, case))
}

/// Puts the first line of a case of a clause; what stands below it waits.
fn put_case<'a>(
    page: &mut Page,
    view: &View<'_>,
    clause: u64,
    spot: &Spot,
    case: &'a Case,
    waiting: &mut Vec<Waiting<'a>>,
) -> Result<(), Memory>
    ensures rows { OnOk result (with_rows page.new (rows_waiting view.now (reverse waiting.new.items)) ≡ with_rows page.old (spec.case_rows view.now clause spot.now.stem.items spot.now.is_last (branch_of case.now) ++ rows_waiting view.now (reverse waiting.old.items))) }
    ensures falls { OnOk result (weights (reverse waiting.new.items) < weights (reverse waiting.old.items) + 2 * lines_at (branch_of case.now)) }
{
    let alloc = page.allocator();
    match case {
        Case::Split { con, first, second } => {
            let label = split_label(alloc, view, con)?;
            put_line(page, view, spot, label.as_slice())?;
            wait_case(view, clause, spot, true, second, waiting)?;
            wait_case(view, clause, spot, false, first, waiting)
        }
        Case::Void { .. } => put_line(page, view, spot, b"void\n"),
        Case::Leaf { item, children } => {
            let label = leaf_label(alloc, view, clause, *item)?;
            put_line(page, view, spot, label.as_slice())?;
            let stem = stem_below(alloc, view, spot)?;
            wait(waiting, Waiting::Nodes(stem, children.as_slice()))
        }
        Case::Head { children } => {
            put_line(page, view, spot, b"head\n")?;
            let stem = stem_below(alloc, view, spot)?;
            wait(waiting, Waiting::Nodes(stem, children.as_slice()))
        }
    }
}

/// Puts the line of the first of some nodes; what stands below it waits, and then the other nodes.
fn put_first_node<'a>(
    page: &mut Page,
    view: &View<'_>,
    stem: Vec<u8>,
    nodes: &'a [Node],
    waiting: &mut Vec<Waiting<'a>>,
) -> Result<(), Memory>
    ensures rows { OnOk result (with_rows page.new (rows_waiting view.now (reverse waiting.new.items)) ≡ with_rows page.old (spec.trees_rows view.now stem.items (listed (map tree_of nodes.now)) ++ rows_waiting view.now (reverse waiting.old.items))) }
    ensures falls { OnOk result (weights (reverse waiting.new.items) < weights (reverse waiting.old.items) + (2 * lines_below (listed (map tree_of nodes.now)) + 1)) }
{
    match nodes.split_first() {
        None => Ok(()),
        Some((first, others)) => {
            let spot = Spot {
                stem: Vec::from_slice(page.allocator(), stem.as_slice())?,
                is_last: are_hidden(others),
            };
            wait(waiting, Waiting::Nodes(stem, others))?;
            put_node(page, view, &spot, first, waiting)
        }
    }
}

/// Puts the line of the first of some rules; its case waits, and then the other rules.
fn put_first_cover<'a>(
    page: &mut Page,
    view: &View<'_>,
    stem: Vec<u8>,
    covers: &'a [Cover],
    waiting: &mut Vec<Waiting<'a>>,
) -> Result<(), Memory>
    ensures rows { OnOk result (with_rows page.new (rows_waiting view.now (reverse waiting.new.items)) ≡ with_rows page.old (spec.covers_rows view.now stem.items (covering (map cover_of covers.now)) ++ rows_waiting view.now (reverse waiting.old.items))) }
    ensures falls { OnOk result (weights (reverse waiting.new.items) < weights (reverse waiting.old.items) + (2 * lines_in (covering (map cover_of covers.now)) + 1)) }
{
    match covers.split_first() {
        None => Ok(()),
        Some((first, others)) => {
            let spot = Spot {
                stem: Vec::from_slice(page.allocator(), stem.as_slice())?,
                is_last: are_none(others),
            };
            let label = rule_label(page.allocator(), view, first.rule)?;
            put_line(page, view, &spot, label.as_slice())?;
            wait(waiting, Waiting::Covers(stem, others))?;
            wait_case(view, first.rule, &spot, true, &first.case, waiting)
        }
    }
}

/// Puts the line of the first of some checks; its case waits, and then the other checks.
fn put_first_check<'a>(
    page: &mut Page,
    view: &View<'_>,
    checks: &'a [Check],
    waiting: &mut Vec<Waiting<'a>>,
) -> Result<(), Memory>
    ensures rows { OnOk result (with_rows page.new (rows_waiting view.now (reverse waiting.new.items)) ≡ with_rows page.old (spec.checks_rows view.now (map check_of checks.now) ++ rows_waiting view.now (reverse waiting.old.items))) }
    ensures falls { OnOk result (weights (reverse waiting.new.items) < weights (reverse waiting.old.items) + (2 * lines_under (map check_of checks.now) + 1)) }
{
    match checks.split_first() {
        None => Ok(()),
        Some((first, others)) => {
            let alloc = page.allocator();
            let label = check_label(alloc, view, first.clause)?;
            page.put(b"", label.as_slice())?;
            let spot = Spot {
                stem: Vec::new(alloc),
                is_last: true,
            };
            wait(waiting, Waiting::Checks(others))?;
            wait(waiting, Waiting::Case(first.clause, spot, &first.case))
        }
    }
}

/// Puts the first line of a part that waited; what stands below it waits, and then what is left of the part.
fn put_first<'a>(
    page: &mut Page,
    view: &View<'_>,
    part: Waiting<'a>,
    waiting: &mut Vec<Waiting<'a>>,
) -> Result<(), Memory>
    ensures rows { OnOk result (with_rows page.new (rows_waiting view.now (reverse waiting.new.items)) ≡ with_rows page.old (rows_of view.now part.entry ++ rows_waiting view.now (reverse waiting.old.items))) }
    ensures falls { OnOk result (weights (reverse waiting.new.items) < weights (reverse waiting.old.items) + weight part.entry) }
{
    match part {
        Waiting::Nodes(stem, nodes) => put_first_node(page, view, stem, nodes, waiting),
        Waiting::Covers(stem, covers) => put_first_cover(page, view, stem, covers, waiting),
        Waiting::Case(clause, spot, case) => put_case(page, view, clause, &spot, case, waiting),
        Waiting::Checks(checks) => put_first_check(page, view, checks, waiting),
    }
}

/// Puts a part, with all that stands below it.
fn put_all(page: &mut Page, view: &View<'_>, part: Waiting<'_>) -> Result<(), Memory>
    ensures { OnOk result (page.new ≡ with_rows page.old (rows_of view.now part.entry)) }
{
    let mut waiting = Vec::new(page.allocator());
    wait(&mut waiting, part)?;
    while let Some(next) = waiting.pop() {
        put_first(page, view, next, &mut waiting)?;
    }
    Ok(())
}

/// Puts the number of checks.
#[tactic(auto, unfolding(crate::specs::Trees::Trees::count_line))]
fn put_count(out: &mut Vec<u8>, checks: usize) -> Result<(), Memory>
    ensures { OnOk result (out.new.items ≡ out.old.items ++ count_line checks) }
{
    put(out, "checks ")?;
    put_number(out, checks as u64)?;
    put(out, "\n")
}

/// The text of a page with the checks behind it: their rows, or their number.
fn with_checks(page: Page, view: &View<'_>, checks: bool, cert: &Cert) -> Result<Vec<u8>, Memory>
    ensures { IfOk result (λ text. text.items ≡ checks_text view.now checks (certificate_of cert.now) page) }
{
    let mut page = page;
    if checks {
        put_all(&mut page, view, Waiting::Checks(cert.checks.as_slice()))?;
        return Ok(page.into_text());
    }
    let mut text = page.into_text();
    put_count(&mut text, cert.checks.len())?;
    Ok(text)
}

/// The text with what is shown of a block below its query: a row for each line of its trees, numbered as in the block, and the checks
/// so too, or their number.
///
/// # Errors
///
/// Want of memory.
pub fn put_trees(
    text: Vec<u8>,
    view: &View<'_>,
    checks: bool,
    cert: &Cert,
) -> Result<Vec<u8>, Memory>
    ensures { IfOk result (λ shown. shown.items ≡ trees_text view.now checks text.items (certificate_of cert.now)) }
{
    let alloc = *text.allocator();
    let mut page = Page::new(text);
    let trees = Waiting::Nodes(Vec::new(alloc), cert.trees.as_slice());
    put_all(&mut page, view, trees)?;
    with_checks(page, view, checks, cert)
}
