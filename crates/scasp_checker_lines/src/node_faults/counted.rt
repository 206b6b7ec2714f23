//! The bounds of a certificate's variables.
ghost use Rattle.std.specs.Prelude.{◌≡◌, IfOk};

use crate::line_faults::Common;
use scasp_cert::Cert;
use scasp_lines_places::{Bounds, top};
use scasp_list::Memory;
use scasp_syntax::Program;

/// What is the same for all lines of the certificate. Its variables are counted; numbers past the range are want of memory.
pub fn common_of<'a>(program: &'a Program, cert: &'a Cert) -> Result<Common<'a>, Memory>
    ensures program { IfOk result (λ made. made.program.now ≡ program.now) }
    ensures cert { IfOk result (λ made. made.cert.now ≡ cert.now) }
{
    let free = cert.sample.len() as u64;
    let top = top(program, cert)?;
    Ok(Common {
        program,
        cert,
        bounds: Bounds { free, top },
    })
}
