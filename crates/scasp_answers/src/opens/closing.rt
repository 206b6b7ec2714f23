//! Open lines are closed, one after the other.
ghost use Rattle.std.specs.Prelude.{◌≡◌, ◌≢◌, ◌≤◌, ◌+◌, true, length, IfOk, OnOk};
ghost use Rattle.scasp_cert.specs.Certificate.{certificate_of};
ghost use Rattle.scasp_answers.specs.Blocks.Open as spec;
ghost use Rattle.scasp_answers.specs.Parts.View.{open_of};
ghost use Rattle.scasp_answers.specs.Opens.Closing.{Closes, Leads};
ghost use Rattle.scasp_answers.specs.Opens.View.{opens_of, filled};

use crate::opens::opens::Opens;
use crate::opens::placing::Placing;
use crate::opens::top::with_top;
use crate::parts::Open;
use scasp_cert::Cert;
use scasp_list::Memory;
use std::alloc::Global;

/// Puts the part that a line is into the line around it.
#[tactic(auto, using(crate::proofs::OpensLemmas::CloseLemmas::filled_none))]
fn close_into(alloc: Global, top: Open, opens: &mut Opens) -> Result<(), Memory>
    requires { spec.is_whole (open_of top) ≡ true }
    ensures { OnOk result (opens_of opens.new ≡ filled (opens_of opens.old) (spec.parts_of (open_of top).line (open_of top).parts)) }
{
    match top.into_part(alloc)? {
        Some(part) => opens.put(part),
        None => Ok(()),
    }
}

/// Closes the line that was the innermost open one, if it has all that has to stand below it.
#[tactic(auto, using(crate::proofs::OpensLemmas::CloseLemmas::not_whole, crate::proofs::OpensLemmas::CloseLemmas::closes_into, crate::proofs::OpensLemmas::CloseLemmas::closes_last, crate::proofs::OpensLemmas::CloseLemmas::closes_edge, crate::proofs::OpensLemmas::CloseLemmas::no_more))]
fn close(
    alloc: Global,
    depth: usize,
    top: Open,
    opens: &mut Opens,
    cert: &mut Cert,
) -> Result<Placing, Memory>
    requires { depth ≢ length (opens_of opens.old) + 1 }
    ensures leads { Leads depth (spec.closed_from depth (open_of top) (opens_of opens.old) (certificate_of cert.old)) result (opens_of opens.new) (certificate_of cert.new) }
    ensures no_more { IfOk result (λ placing. length (opens_of opens.new) ≤ length (opens_of opens.old)) }
{
    if !top.is_whole() {
        drop(top);
        return Ok(Placing::OutOfOrder);
    }
    if opens.len() > 0 {
        close_into(alloc, top, opens)?;
        Ok(Placing::Stands)
    } else if depth == 0 {
        with_top(alloc, top, cert)?;
        Ok(Placing::Stands)
    } else {
        drop(top);
        Ok(Placing::OutOfOrder)
    }
}

/// Closes the lines that stand as deep as `depth` or deeper; tells whether a line may stand there. If none may, or
/// after an error, some of the lines may have been closed.
#[tactic(auto, using(crate::proofs::OpensLemmas::CloseLemmas::closes_here, crate::proofs::OpensLemmas::CloseLemmas::closes_none, crate::proofs::OpensLemmas::CloseLemmas::closes_first))]
pub fn close_to(
    alloc: Global,
    depth: usize,
    opens: &mut Opens,
    cert: &mut Cert,
) -> Result<Placing, Memory>
    ensures { Closes (spec.closed_to depth (opens_of opens.old) (certificate_of cert.old)) result (opens_of opens.new) (certificate_of cert.new) }
{
    while opens.len() != depth {
        let Some(top) = opens.pop() else {
            return Ok(Placing::OutOfOrder);
        };
        if close(alloc, depth, top, opens, cert)? == Placing::OutOfOrder {
            return Ok(Placing::OutOfOrder);
        }
    }
    Ok(Placing::Stands)
}
