//! Parts of a certificate that a walk has still to go over.
ghost use Rattle.std.specs.Prelude.{◌≡◌, ◌∷◌, IfOk, OnOk, map, option_map, reverse};
ghost use Rattle.scasp_cert.specs.Certificate.{check_of};
ghost use Rattle.scasp_cert.specs.Trees.{covering, listed};
ghost use Rattle.scasp_cert.specs.View.{branch_of, cover_of, tree_of};
ghost use Rattle.scasp_lines_places.specs.Dues.DueView.{due_value};
ghost use Rattle.scasp_lines.specs.Dues.{first_due, other_dues};
ghost use Rattle.scasp_lines_places.specs.Places.View.{body_of, place_of};
ghost use Rattle.scasp_lines_walk.specs.Traversal.Pending.{begun, checks, nodes, one_case, rules};
ghost use Rattle.scasp_lines_walk.specs.Traversal.View.{begun_of, pending_of, stack_of};

use crate::traversal::parts::Part;
use scasp_cert::{Case, Check, Cover, Node};
use scasp_lines_places::{Body, Due, Place};
use scasp_list::Memory;
use scasp_syntax::Atom;
use std::rc::Rc;

/// Parts of a certificate, side by side at one place.
#[derive(Drop)]
pub(crate) enum Waiting<'a> {
    /// Nodes, and what they are due for, the first last.
    Nodes {
        rest: &'a [Node],
        dues: Vec<Due>,
        here: Place,
    },
    /// Rules under a negated literal with this atom.
    Rules {
        rest: &'a [Cover],
        atom: &'a Atom,
        here: Place,
    },
    /// A case of a body.
    Case {
        case: &'a Case,
        body: Rc<Body>,
        bare: bool,
        here: Place,
    },
    /// Checks.
    Checks {
        rest: &'a [Check],
        here: Place,
    },
}

/// Parts that wait on the stack below a line at which so many constraints opened.
#[derive(Drop)]
pub(crate) struct Stacked<'a> {
    pub kept: usize,
    pub parts: Waiting<'a>,
}

/// The first of such parts, its place, and those behind it.
#[derive(Drop)]
pub(crate) struct Begun<'a> {
    pub here: Place,
    pub part: Part<'a>,
    pub rest: Option<Waiting<'a>>,
}

/// Puts parts before those that wait.
pub(crate) fn put<'a>(
    waiting: &mut Vec<Stacked<'a>>,
    kept: usize,
    parts: Waiting<'a>,
) -> Result<(), Memory>
    ensures { OnOk result (stack_of waiting.new.items ≡ (kept, pending_of parts.entry) ∷ stack_of waiting.old.items) }
{
    waiting.push(Stacked { kept, parts })?;
    Ok(())
}

/// What the next node is due for, taken from what the nodes are due for.
fn take_due(dues: &mut Vec<Due>) -> Due
    ensures first { due_value result ≡ first_due (reverse (map due_value dues.old.items)) }
    ensures others { reverse (map due_value dues.new.items) ≡ other_dues (reverse (map due_value dues.old.items)) }
{
    match dues.pop() {
        Some(due) => due,
        None => Due::Nothing,
    }
}

/// The first node.
fn begin_nodes<'a>(
    rest: &'a [Node],
    dues: Vec<Due>,
    here: Place,
) -> Result<Option<Begun<'a>>, Memory>
    ensures { IfOk result (λ found. option_map begun_of found ≡ begun (nodes (place_of here) (reverse (map due_value dues.items)) (listed (map tree_of rest.now)))) }
{
    let mut dues = dues;
    match rest.split_first() {
        None => Ok(None),
        Some((node, rest)) => {
            let due = take_due(&mut dues);
            Ok(Some(Begun {
                here: here.share()?,
                part: Part::Node { due, node },
                rest: Some(Waiting::Nodes { rest, dues, here }),
            }))
        }
    }
}

/// The first rule.
fn begin_rules<'a>(
    rest: &'a [Cover],
    atom: &'a Atom,
    here: Place,
) -> Result<Option<Begun<'a>>, Memory>
    ensures { IfOk result (λ found. option_map begun_of found ≡ begun (rules (place_of here) atom.now (covering (map cover_of rest.now)))) }
{
    match rest.split_first() {
        None => Ok(None),
        Some((cover, rest)) => Ok(Some(Begun {
            here: here.share()?,
            part: Part::Rule {
                clause: cover.rule,
                atom,
                case: &cover.case,
            },
            rest: Some(Waiting::Rules { rest, atom, here }),
        })),
    }
}

/// The first check.
fn begin_checks<'a>(rest: &'a [Check], here: Place) -> Result<Option<Begun<'a>>, Memory>
    ensures { IfOk result (λ found. option_map begun_of found ≡ begun (checks (place_of here) (map check_of rest.now))) }
{
    match rest.split_first() {
        None => Ok(None),
        Some((check, rest)) => Ok(Some(Begun {
            here: here.share()?,
            part: Part::Check {
                clause: check.clause,
                case: &check.case,
            },
            rest: Some(Waiting::Checks { rest, here }),
        })),
    }
}

/// The case, behind which there is none.
fn begin_case<'a>(case: &'a Case, body: Rc<Body>, bare: bool, here: Place) -> Begun<'a>
    ensures { option_map begun_of (Some result) ≡ begun (one_case (place_of here) (body_of body.value bare) (branch_of case.now)) }
{
    Begun {
        here,
        part: Part::Case { body, bare, case },
        rest: None,
    }
}

/// The first of the parts, if there is one.
pub(crate) fn begin(parts: Waiting<'_>) -> Result<Option<Begun<'_>>, Memory>
    ensures { IfOk result (λ found. option_map begun_of found ≡ begun (pending_of parts.entry)) }
{
    match parts {
        Waiting::Nodes { rest, dues, here } => begin_nodes(rest, dues, here),
        Waiting::Rules { rest, atom, here } => begin_rules(rest, atom, here),
        Waiting::Case {
            case,
            body,
            bare,
            here,
        } => Ok(Some(begin_case(case, body, bare, here))),
        Waiting::Checks { rest, here } => begin_checks(rest, here),
    }
}
