//! How many lines a certificate has.

ghost use Rattle.std.specs.Prelude.{◌≡◌, ◌-◌, ◌^◌, min, IfOk};
ghost use Rattle.scasp_cert.specs.Certificate.{certificate_of};
ghost use Rattle.scasp_cert.specs.Lines.{all_lines};

use crate::certificate::Cert;
use crate::walk::Walk;
use scasp_name::Memory;
use std::alloc::Global;

#[tactic(auto, using(crate::proofs::WalkLemmas::all_counted))]
/// How many tree and check lines the certificate has, or 2^64 - 1 where there are more.
pub fn lines(alloc: Global, cert: &Cert) -> Result<u64, Memory>
    ensures { IfOk result (λ count. count ≡ min (all_lines (certificate_of cert.now)) (2 ^ 64 - 1)) }
{
    let mut walk = Walk::of(alloc, cert)?;
    let mut count = 0u64;
    while let Some(_line) = walk.next()? {
        count = count.saturating_add(1);
    }
    Ok(count)
}
