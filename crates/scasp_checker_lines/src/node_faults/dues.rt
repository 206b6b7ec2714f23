//! Whether what stands on a line is what is due there.
ghost use Rattle.std.specs.Prelude.{◌≡◌, ℕ, true, IfOk};
ghost use Rattle.scasp_cert.specs.Trees.{Branches, Trees, loop_tree, neg_tree, pos_tree, seen_tree, test_tree};
ghost use Rattle.scasp_lines_places.specs.Dues.DueView.{due_value};
ghost use Rattle.scasp_syntax.specs.Tm.{Tms};
ghost use Rattle.scasp_syntax.specs.declared.atom.Atom.{Atom as ThisAtom};
ghost use Rattle.scasp_syntax.specs.declared.atom.Lit.{Lit as ThisLit};
ghost use Rattle.scasp_syntax.specs.declared.con.Con.{Con as ThisCon};
ghost use Rattle.scasp_syntax.specs.declared.hint.Hint.{Hint as ThisHint};
ghost use Rattle.scasp_checker_rules.specs.LineFaults.{is_due, is_fact_due, is_kind};
ghost use Rattle.scasp_lines.specs.Dues.{fact};

use scasp_checker_answer::same_con;
use scasp_lines_places::Due;
use scasp_list::Memory;
use scasp_syntax::{Atom, Con, same_atom};
use std::alloc::Global;

/// Whether a positive literal shown by a rule may stand there.
pub fn asks_positive(due: &Due) -> bool
    ensures { (a : ThisAtom) (k : ℕ) (ts : Tms) (children : Trees) → result ≡ is_kind true (due_value due.now) (pos_tree a k ts children) }
{
    match due {
        Due::Goal(lit) => lit.positive,
        Due::Fact(_) => false,
        Due::Nothing => false,
    }
}

/// Whether a negated literal shown by all rules may stand there.
pub fn asks_negated(due: &Due) -> bool
    ensures { (a : ThisAtom) (covers : Branches) → result ≡ is_kind true (due_value due.now) (neg_tree a covers) }
{
    match due {
        Due::Goal(lit) => !lit.positive,
        Due::Fact(_) => false,
        Due::Nothing => false,
    }
}

/// Whether a loop or a literal seen before may stand there.
pub fn asks_literal(due: &Due) -> bool
    ensures on_loop { (l : ThisLit) (to : ℕ) → result ≡ is_kind true (due_value due.now) (loop_tree l to) }
    ensures seen { (l : ThisLit) (to : ℕ) → result ≡ is_kind true (due_value due.now) (seen_tree l to) }
{
    match due {
        Due::Goal(_) => true,
        Due::Fact(_) => false,
        Due::Nothing => false,
    }
}

/// Whether a test may stand there.
pub fn asks_constraint(due: &Due) -> bool
    ensures { (c : ThisCon) (h : ThisHint) → result ≡ is_kind true (due_value due.now) (test_tree c h) }
{
    match due {
        Due::Goal(_) => false,
        Due::Fact(_) => true,
        Due::Nothing => false,
    }
}

/// Whether this literal is due.
pub fn is_due(alloc: Global, due: &Due, positive: bool, atom: &Atom) -> Result<bool, Memory>
    ensures { IfOk result (λ is. is ≡ is_due (due_value due.now) positive atom.now) }
{
    match due {
        Due::Goal(lit) => {
            if lit.positive != positive {
                return Ok(false);
            }
            same_atom(alloc, &lit.atom, atom)
        }
        Due::Fact(_) => Ok(false),
        Due::Nothing => Ok(false),
    }
}

/// Whether this constraint is due; false where none is determined.
pub fn is_fact_due(alloc: Global, due: &Due, con: &Con) -> Result<bool, Memory>
    ensures { IfOk result (λ is. is ≡ is_fact_due (due_value due.now) con.now) }
{
    match due {
        Due::Fact(wanted) => is_determined(alloc, wanted, con),
        Due::Goal(_) => Ok(false),
        Due::Nothing => Ok(false),
    }
}

/// Whether it is the constraint that is determined.
fn is_determined(alloc: Global, wanted: &Option<Con>, con: &Con) -> Result<bool, Memory>
    ensures { IfOk result (λ is. is ≡ is_fact_due (fact wanted.now) con.now) }
{
    match wanted {
        Some(wanted) => same_con(alloc, wanted, con),
        None => Ok(false),
    }
}
