//! Blocks with copies.
ghost use Rattle.std.specs.Prelude.{◌≡◌, IfOk};
ghost use Rattle.scasp_cert.specs.Certificate.{certificate_of};
ghost use Rattle.scasp_cert.specs.Text.Block.{block_text};
ghost use Rattle.scasp_print_shared.specs.Shared.{shared_text};

use crate::share::share;
use scasp_cert::Cert;
use scasp_name::{Memory, Names};
use scasp_print::print_cert;
use std::alloc::Global;

/// The certificate as text: the block of [`print_cert`], in which a line `copy N` stands in place of each subtree of at
/// least three lines that it gives back, N being the least such line.
pub fn print_shared(
    alloc: Global,
    names: &Names,
    cert: &Cert,
    answer: u64,
) -> Result<Vec<u8>, Memory>
    ensures { IfOk result (λ text. text.items ≡ shared_text (block_text names.now (certificate_of cert.now) answer)) }
{
    let block = print_cert(alloc, names, cert, answer)?;
    share(alloc, &block, names.keys())
}
