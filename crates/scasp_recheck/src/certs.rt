//! Lists of certificates.
ghost use Rattle.std.specs.Prelude.{◌≡◌, IsTrue};
ghost use Rattle.scasp_cert.specs.Certificate.{certificate_of};
ghost use Rattle.scasp_sound.specs.MapLevels.{covered as covered_by};
ghost use Rattle.scasp_touched.specs.Once.{IsNamed};

use scasp_cert::{Cert, Checks};
use scasp_list::Memory;
use scasp_syntax::RuleList;
use scasp_touched::Named;
use std::alloc::Global;

/// A certificate, with what its lines name and the clauses of its checks.
#[derive(Drop)]
pub(crate) struct Filed {
    pub cert: Cert,
    pub named: Named,
    pub covered: RuleList,
    ghost names: { IsNamed named (certificate_of cert) },
    ghost covers: { covered ≡ covered_by (certificate_of cert) },
}

/// A list of certificates.
#[derive(Drop)]
pub struct Certs {
    list: Vec<Filed>,
}

impl Filed {
    ghost use Rattle.std.specs.Prelude.{map, IfOk};
    ghost use Rattle.scasp_cert.specs.Certificate.{checks_of};
    ghost use Rattle.scasp_syntax.specs.declared.program.Program.{Program as ThisProgram};
    ghost use Rattle.scasp_recheck.specs.Checks.{verdict_on};
    ghost use Rattle.scasp_recheck.specs.Views.{filed_cert};

    /// The clauses of the checks.
    fn covered(alloc: Global, checks: &Checks) -> Result<RuleList, Memory>
        ensures { IfOk result (λ rules. rules ≡ map (λ k. k.0) (checks_of checks.now)) }
    {
        let mut rules = RuleList::new(alloc);
        for check in checks.as_slice() {
            rules.push(check.clause)?;
        }
        Ok(rules)
    }

    /// The certificate, with what its lines name.
    fn of(alloc: Global, cert: Cert) -> Result<Filed, Memory>
        ensures { IfOk result (λ filed. filed_cert filed ≡ certificate_of cert) }
    {
        let named = Named::of(alloc, &cert)?;
        let covered = Filed::covered(alloc, &cert.checks)?;
        Ok(Filed {
            cert,
            named,
            covered,
        })
    }

    /// Whether the map is that of the other, and so are the clauses that it need not keep.
    pub fn is_asked_as(&self, other: &Filed) -> bool
        ensures { IsTrue result → (p : ThisProgram) → verdict_on p (filed_cert self.now) ≡ verdict_on p (filed_cert other.now) }
    {
        self.covered.as_slice() == other.covered.as_slice()
            && self.cert.map.as_slice() == other.cert.map.as_slice()
    }
}

impl Certs {
    ghost use Rattle.std.specs.Prelude.{[], ◌∷◌, ◌++◌, length, slice_get, map, OnOk, OnErr, option_copied, option_map};
    ghost use Rattle.scasp_recheck.specs.Views.{certs_of, filed_cert};

    /// No certificate. It takes no memory.
    pub fn new(alloc: Global) -> Certs
        ensures { certs_of result ≡ [] }
    {
        Certs {
            list: Vec::new(alloc),
        }
    }

    /// The number of certificates.
    pub fn len(&self) -> usize
        ensures { result ≡ length (certs_of self.now) }
    {
        self.list.len()
    }

    /// The certificate at the place, counted from 0.
    pub fn get(&self, i: usize) -> Option<&Cert>
        ensures { option_map certificate_of (option_copied result) ≡ slice_get (certs_of self.now) i }
    {
        Some(&self.list.get(i)?.cert)
    }

    /// Puts a certificate at the end. An error leaves the list as it was. The recursion is as deep as the certificate.
    ///
    /// # Errors
    ///
    /// Want of memory.
    pub fn push(&mut self, cert: Cert) -> Result<(), Memory>
        ensures ok { OnOk result (certs_of self.new ≡ certs_of self.old ++ certificate_of cert ∷ []) }
        ensures err { OnErr result (certs_of self.new ≡ certs_of self.old) }
    {
        let alloc = *self.list.allocator();
        self.list.push(Filed::of(alloc, cert)?)?;
        Ok(())
    }

    /// The certificates, each with what its lines name.
    pub(crate) fn as_slice(&self) -> &[Filed]
        ensures { map filed_cert result.now ≡ certs_of self.now }
    {
        self.list.as_slice()
    }
}
