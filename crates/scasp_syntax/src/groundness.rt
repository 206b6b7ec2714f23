//! Whether terms have variables.
ghost use Rattle.std.specs.Prelude.{◌≡◌, IfOk};
ghost use Rattle.scasp_syntax.specs.Values.{is_ground, are_ground};
ghost use Rattle.scasp_syntax.specs.View.{tm_of};

use crate::term::{Term, Terms};
use scasp_name::Memory;
use std::alloc::Global;

/// Whether no variable stands in the term. It takes memory for the lists of terms that are still to be seen, and no machine stack.
pub fn is_ground(alloc: Global, term: &Term) -> Result<bool, Memory>
    ensures { IfOk result (λ answer. answer ≡ is_ground (tm_of term.now)) }
{
    match term {
        Term::Var(_) => Ok(false),
        Term::Num(_) => Ok(true),
        Term::App(_, args) => are_ground(alloc, args),
    }
}

/// Whether no variable stands in the terms, with memory as `is_ground`.
pub fn are_ground(alloc: Global, terms: &Terms) -> Result<bool, Memory>
    ensures { IfOk result (λ answer. answer ≡ are_ground terms.now) }
{
    let mut unseen: Vec<&[Term]> = Vec::new(alloc);
    unseen.push(terms.as_slice())?;
    while let Some(list) = unseen.pop() {
        for term in list {
            match term {
                Term::Var(_) => return Ok(false),
                Term::Num(_) => {}
                Term::App(_, args) => unseen.push(args.as_slice())?,
            }
        }
    }
    Ok(true)
}
