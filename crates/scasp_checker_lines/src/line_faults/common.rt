//! What is the same for all lines of a certificate.
ghost use Rattle.std.specs.Prelude.{◌≡◌};
ghost use Rattle.scasp_cert.specs.Certificate.{certificate_of};
ghost use Rattle.scasp_lines.specs.Lines.{free_of, setting};

use scasp_cert::Cert;
use scasp_lines_places::Bounds;
use scasp_syntax::Program;

/// A program, a certificate, the number of its free variables, and a number that none of its universal ones reaches.
#[derive(Drop)]
pub struct Common<'a> {
    pub program: &'a Program,
    pub cert: &'a Cert,
    pub bounds: Bounds,
    ghost free: { bounds.free ≡ free_of (certificate_of cert.now) },
    ghost top: { bounds.top ≡ (setting program.now.clauses (certificate_of cert.now)).top },
}
