//! What stands right below a line.
ghost use Rattle.std.specs.Prelude.{◌≡◌, ◌++◌, ◌∷◌, Bool, true, false, IfOk, OnOk, map, reverse, option_copied};
ghost use Rattle.scasp_cert.specs.Trees.{covering, listed};
ghost use Rattle.scasp_cert.specs.View.{branch_of, covers_of, tree_of, trees_of};
ghost use Rattle.scasp_lines_places.specs.Dues.DueView.{due_value};
ghost use Rattle.scasp_lines.specs.Bodies.{inside_check, inside_rule};
ghost use Rattle.scasp_lines.specs.Dues.{head_dues, leaf_dues, rule_dues};
ghost use Rattle.scasp_lines.specs.Places.{below_literal, within_case};
ghost use Rattle.scasp_lines.specs.Sides.{sides};
ghost use Rattle.scasp_lines_places.specs.Places.View.{body_of, inside_of, place_of};
ghost use Rattle.scasp_syntax.specs.Programs.{numbered};
ghost use Rattle.scasp_lines_walk.specs.Traversal.Pending.{below, below_case, below_inside, below_node, below_split, nodes, rules};
ghost use Rattle.scasp_lines_walk.specs.Traversal.View.{kept_with, part_of, setting_of, stack_of};

use crate::traversal::parts::{Line, Part};
use crate::traversal::waiting::{Stacked, Waiting, put};
use scasp_cert::{Case, Covers, Node, Nodes};
use scasp_lines_places::{
    Body, Bounds, Due, Dues, Inside, Place, Sides, both_sides, head_dues, inside_check,
    inside_rule, leaf_dues, rule_dues,
};
use scasp_list::Memory;
use scasp_syntax::{Atom, Con, Program, Terms};
use std::alloc::Global;
use std::rc::Rc;

/// The same dues, the first last. It takes no memory.
fn turned(dues: Dues) -> Vec<Due>
    ensures { reverse (map due_value result.items) ≡ map due_value dues }
{
    let mut turned = dues.into_vec();
    turned.reverse();
    turned
}

/// Puts nodes before what waits.
pub(crate) fn put_nodes<'a>(
    waiting: &mut Vec<Stacked<'a>>,
    kept: usize,
    here: Place,
    dues: Dues,
    children: &'a Nodes,
) -> Result<(), Memory>
    ensures { OnOk result (stack_of waiting.new.items ≡ (kept, nodes (place_of here) (map due_value dues) (listed (trees_of children.now))) ∷ stack_of waiting.old.items) }
{
    put(
        waiting,
        kept,
        Waiting::Nodes {
            rest: children.as_slice(),
            dues: turned(dues),
            here,
        },
    )
}

/// Below a positive literal.
fn below_positive<'a>(
    alloc: Global,
    program: &Program,
    at: u64,
    here: &Place,
    atom: &Atom,
    rule: u64,
    terms: &Terms,
    children: &'a Nodes,
    waiting: &mut Vec<Stacked<'a>>,
    kept: usize,
) -> Result<(), Memory>
    ensures { OnOk result (stack_of waiting.new.items ≡ (kept, nodes (below_literal at true atom.now (place_of here.now)) (rule_dues (numbered program.now.clauses rule) (place_of here.now) terms.now) (listed (trees_of children.now))) ∷ stack_of waiting.old.items) }
{
    let dues = rule_dues(alloc, program.clause(rule), here, terms)?;
    let below = here.below_literal(alloc, at, true, atom)?;
    put_nodes(waiting, kept, below, dues, children)
}

/// Below a negated literal.
fn below_negated<'a>(
    alloc: Global,
    at: u64,
    here: &Place,
    atom: &'a Atom,
    covers: &'a Covers,
    waiting: &mut Vec<Stacked<'a>>,
    kept: usize,
) -> Result<(), Memory>
    ensures { OnOk result (stack_of waiting.new.items ≡ (kept, rules (below_literal at false atom.now (place_of here.now)) atom.now (covering (covers_of covers.now))) ∷ stack_of waiting.old.items) }
{
    let here = here.below_literal(alloc, at, false, atom)?;
    put(
        waiting,
        kept,
        Waiting::Rules {
            rest: covers.as_slice(),
            atom,
            here,
        },
    )
}

/// Below a node.
fn below_node<'a>(
    alloc: Global,
    program: &Program,
    bounds: Bounds,
    at: u64,
    next: u64,
    here: &Place,
    node: &'a Node,
    waiting: &mut Vec<Stacked<'a>>,
    kept: usize,
) -> Result<u64, Memory>
    ensures waiting { IfOk result (λ made. stack_of waiting.new.items ≡ kept_with kept (below_node (setting_of program.now bounds) at next (place_of here.now) (tree_of node.now)).waiting ++ stack_of waiting.old.items) }
    ensures next { IfOk result (λ made. made ≡ (below_node (setting_of program.now bounds) at next (place_of here.now) (tree_of node.now)).next) }
{
    match node {
        Node::Pos {
            atom,
            rule,
            terms,
            children,
        } => {
            below_positive(
                alloc, program, at, here, atom, *rule, terms, children, waiting, kept,
            )?;
            Ok(next)
        }
        Node::Neg { atom, covers } => {
            below_negated(alloc, at, here, atom, covers, waiting, kept)?;
            Ok(next)
        }
        Node::Loop { .. } | Node::Seen { .. } | Node::Test { .. } => Ok(next),
    }
}

/// The cases of what is inside a rule or a check.
fn below_inside<'a>(
    alloc: Global,
    inside: Inside,
    case: &'a Case,
    waiting: &mut Vec<Stacked<'a>>,
    kept: usize,
) -> Result<u64, Memory>
    ensures waiting { IfOk result (λ made. stack_of waiting.new.items ≡ kept_with kept (below_inside (inside_of inside) (branch_of case.now)).waiting ++ stack_of waiting.old.items) }
    ensures next { IfOk result (λ made. made ≡ (below_inside (inside_of inside) (branch_of case.now)).next) }
{
    let Inside {
        here,
        next,
        body,
        bare,
    } = inside;
    let body = Rc::new(alloc, body)?;
    put(
        waiting,
        kept,
        Waiting::Case {
            case,
            body,
            bare,
            here,
        },
    )?;
    Ok(next)
}

/// Below a split: its two sides.
fn below_split<'a>(
    alloc: Global,
    bounds: Bounds,
    next: u64,
    here: &Place,
    body: &Rc<Body>,
    con: &Con,
    first: &'a Case,
    second: &'a Case,
    waiting: &mut Vec<Stacked<'a>>,
    kept: usize,
) -> Result<u64, Memory>
    ensures waiting { (bare : Bool) → IfOk result (λ made. stack_of waiting.new.items ≡ kept_with kept (below_split (sides bounds.free bounds.top con.now (place_of here.now) next) (body_of body.now.value bare) (branch_of first.now) (branch_of second.now)).waiting ++ stack_of waiting.old.items) }
    ensures next { IfOk result (λ made. made ≡ (sides bounds.free bounds.top con.now (place_of here.now) next).next) }
{
    let Sides {
        first: one,
        second: other,
        next,
    } = both_sides(alloc, bounds, con, here, next)?;
    put(
        waiting,
        kept,
        Waiting::Case {
            case: second,
            body: body.clone()?,
            bare: false,
            here: other,
        },
    )?;
    put(
        waiting,
        kept,
        Waiting::Case {
            case: first,
            body: body.clone()?,
            bare: false,
            here: one,
        },
    )?;
    Ok(next)
}

/// Below a leaf.
fn below_leaf<'a>(
    alloc: Global,
    at: u64,
    here: &Place,
    body: &Body,
    bare: bool,
    item: u64,
    children: &'a Nodes,
    waiting: &mut Vec<Stacked<'a>>,
    kept: usize,
) -> Result<(), Memory>
    ensures { OnOk result (stack_of waiting.new.items ≡ (kept, nodes (within_case at bare (place_of here.now)) (leaf_dues (place_of here.now) (body_of body.now bare) item) (listed (trees_of children.now))) ∷ stack_of waiting.old.items) }
{
    let dues = leaf_dues(alloc, here, body, item)?;
    let below = here.within_case(alloc, at, bare)?;
    put_nodes(waiting, kept, below, dues, children)
}

/// Below a case in which the head holds.
fn below_head<'a>(
    alloc: Global,
    at: u64,
    here: &Place,
    body: &Body,
    bare: bool,
    children: &'a Nodes,
    waiting: &mut Vec<Stacked<'a>>,
    kept: usize,
) -> Result<(), Memory>
    ensures { OnOk result (stack_of waiting.new.items ≡ (kept, nodes (within_case at bare (place_of here.now)) (head_dues (place_of here.now) (body_of body.now bare)) (listed (trees_of children.now))) ∷ stack_of waiting.old.items) }
{
    let dues = head_dues(alloc, here, body)?;
    let below = here.within_case(alloc, at, bare)?;
    put_nodes(waiting, kept, below, dues, children)
}

/// Below a case.
fn below_case<'a>(
    alloc: Global,
    program: &Program,
    bounds: Bounds,
    at: u64,
    next: u64,
    here: &Place,
    body: &Rc<Body>,
    bare: bool,
    case: &'a Case,
    waiting: &mut Vec<Stacked<'a>>,
    kept: usize,
) -> Result<u64, Memory>
    ensures waiting { IfOk result (λ made. stack_of waiting.new.items ≡ kept_with kept (below_case (setting_of program.now bounds) at next (place_of here.now) (body_of body.now.value bare) (branch_of case.now)).waiting ++ stack_of waiting.old.items) }
    ensures next { IfOk result (λ made. made ≡ (below_case (setting_of program.now bounds) at next (place_of here.now) (body_of body.now.value bare) (branch_of case.now)).next) }
{
    match case {
        Case::Split { con, first, second } => {
            below_split(
                alloc, bounds, next, here, body, con, first, second, waiting, kept,
            )
        }
        Case::Void { .. } => Ok(next),
        Case::Leaf { item, children } => {
            below_leaf(
                alloc,
                at,
                here,
                body.as_ref(),
                bare,
                *item,
                children,
                waiting,
                kept,
            )?;
            Ok(next)
        }
        Case::Head { children } => {
            below_head(
                alloc,
                at,
                here,
                body.as_ref(),
                bare,
                children,
                waiting,
                kept,
            )?;
            Ok(next)
        }
    }
}

/// Puts what stands right below the line before what waits, and gives the number of the next universal variable there.
pub(crate) fn enter<'a>(
    alloc: Global,
    program: &Program,
    bounds: Bounds,
    line: &Line<'a>,
    waiting: &mut Vec<Stacked<'a>>,
) -> Result<u64, Memory>
    ensures waiting { IfOk result (λ made. stack_of waiting.new.items ≡ kept_with line.now.size (below (setting_of program.now bounds) line.now.at line.now.next (place_of line.now.here) (part_of line.now.part)).waiting ++ stack_of waiting.old.items) }
    ensures next { IfOk result (λ made. made ≡ (below (setting_of program.now bounds) line.now.at line.now.next (place_of line.now.here) (part_of line.now.part)).next) }
{
    let here = &line.here;
    match &line.part {
        Part::Node { node, .. } => below_node(
            alloc, program, bounds, line.at, line.next, here, *node, waiting, line.size,
        ),
        Part::Rule { clause, atom, case } => {
            let inside = inside_rule(alloc, program.clause(*clause), *atom, line.next, here)?;
            below_inside(alloc, inside, *case, waiting, line.size)
        }
        Part::Check { clause, case } => {
            let inside = inside_check(alloc, program.clause(*clause), line.next, here)?;
            below_inside(alloc, inside, *case, waiting, line.size)
        }
        Part::Case { body, bare, case } => below_case(
            alloc, program, bounds, line.at, line.next, here, body, *bare, *case, waiting,
            line.size,
        ),
    }
}
