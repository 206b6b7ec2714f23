//! Sizes of terms.
ghost use Rattle.std.specs.Prelude.{◌≡◌, ◌-◌, ◌^◌, min, IfOk};
ghost use Rattle.scasp_syntax.specs.Tm.{weight, weight_s};
ghost use Rattle.scasp_syntax.specs.View.{tm_of};

use crate::term::{Term, Terms};
use scasp_name::Memory;
use std::alloc::Global;

/// The number of nodes of a term, or 2^64 - 1 where there are more. It takes memory for the arguments that are still to be counted,
/// and no machine stack.
pub fn size(alloc: Global, term: &Term) -> Result<u64, Memory>
    ensures { IfOk result (λ count. count ≡ min (weight (tm_of term.now)) (2 ^ 64 - 1)) }
{
    match term {
        Term::Var(_) => Ok(1),
        Term::Num(_) => Ok(1),
        Term::App(_, args) => Ok(node_count(alloc, args)?.saturating_add(1)),
    }
}

/// The number of nodes of all terms, or 2^64 - 1 where there are more.
fn node_count(alloc: Global, terms: &Terms) -> Result<u64, Memory>
    ensures { IfOk result (λ count. count ≡ min (weight_s terms.now) (2 ^ 64 - 1)) }
{
    let mut count = 0u64;
    let mut unseen: Vec<&[Term]> = Vec::new(alloc);
    unseen.push(terms.as_slice())?;
    while let Some(list) = unseen.pop() {
        for term in list {
            count = count.saturating_add(1);
            match term {
                Term::Var(_) => {}
                Term::Num(_) => {}
                Term::App(_, args) => unseen.push(args.as_slice())?,
            }
        }
    }
    Ok(count)
}
