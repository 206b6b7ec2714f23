//! The items of the alternatives of a case.
ghost use Rattle.std.specs.Prelude.{◌≡◌, ◌<◌, IfOk, length};
ghost use Rattle.scasp_search_rules.specs.Successors.Cases.{failing_at, head_call};
ghost use Rattle.scasp_syntax.specs.Programs.{numbered};

use crate::calls::{Raised, opposite_item};
use scasp_lines_places::atom_under;
use scasp_list::Memory;
use scasp_syntax::{DeepCopy, FlatItem, FlatItems, Lit, Program};
use std::alloc::Global;

fn copies(alloc: Global, items: &[FlatItem]) -> Result<FlatItems, Memory>
    ensures { IfOk result (λ made. made ≡ items.now) }
{
    let mut made = FlatItems::new(alloc);
    for item in items {
        made.push(item.copy(alloc)?)?;
    }
    Ok(made)
}

/// The items before that at the place, and that one false.
#[tactic(auto, using(crate::proofs::CasesLemmas::LeafLemmas::failing_after))]
pub fn failing_at(alloc: Global, items: &[FlatItem], place: usize) -> Result<FlatItems, Memory>
    requires { place < length items.now }
    ensures { IfOk result (λ made. made ≡ failing_at place items.now) }
{
    let mut made = copies(alloc, &items[..place])?;
    made.push(opposite_item(alloc, &items[place])?)?;
    Ok(made)
}

/// The call of the head of the clause of this number, with its variables from `first` on.
pub fn head_call(
    alloc: Global,
    program: &Program,
    clause: u64,
    first: u64,
) -> Result<FlatItems, Memory>
    ensures { IfOk result (λ made. made ≡ head_call (numbered program.now.clauses clause) first) }
{
    let mut made = FlatItems::new(alloc);
    let Some(found) = program.clause(clause) else {
        return Ok(made);
    };
    let Some(head) = &found.head else {
        return Ok(made);
    };
    let atom = atom_under(alloc, head, &Raised { by: first })?;
    made.push(FlatItem::Call(Lit {
        positive: true,
        atom,
    }))?;
    Ok(made)
}
