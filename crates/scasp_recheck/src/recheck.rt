//! Certificates under a program that changes.
ghost use Rattle.std.specs.Prelude.{◌≡◌, map};
ghost use Rattle.scasp_recheck.specs.Checks.{checked_of};
ghost use Rattle.scasp_recheck.specs.Views.{certs_of};

use crate::certs::Certs;
use crate::checked::{Checked, check_anew};
use crate::step::Step;
use crate::tally::Tally;
use scasp_cert::Cert;
use scasp_list::{Memory, Sequence};
use scasp_syntax::{DeepCopy, Program};
use scasp_touched::Edit;
use std::alloc::Global;

/// A program, certificates, and what a check of each comes to under the program.
#[derive(Drop)]
pub struct Recheck {
    alloc: Global,
    program: Program,
    certs: Certs,
    results: Sequence<Checked>,
    ghost up_to_date: { results ≡ map (checked_of program) (certs_of certs) },
}

impl Recheck {
    ghost use Rattle.std.specs.Prelude.{◌<◌, Some, length, slice_get, IfOk, OnOk, OnErr, option_map};
    ghost use Rattle.scasp_cert.specs.Certificate.{certificate_of};
    ghost use Rattle.scasp_touched.specs.Touched.{touched_count};
    ghost use Rattle.scasp_recheck.specs.Meaning.{certs_in, program_of};

    /// Each certificate is checked under the program.
    ///
    /// # Errors
    ///
    /// Want of memory.
    pub fn open(alloc: Global, program: &Program, certs: Certs) -> Result<Recheck, Memory>
        ensures program { IfOk result (λ made. program_of made ≡ program.now) }
        ensures certs { IfOk result (λ made. certs_in made ≡ certs_of certs) }
    {
        let mut results = Sequence::new(alloc);
        for filed in certs.as_slice() {
            results.push(check_anew(alloc, program, &filed.cert)?)?;
        }
        Ok(Recheck {
            alloc,
            program: program.copy(alloc)?,
            certs,
            results,
        })
    }

    /// What the certificates come to under another program, and how many of them the step touches.
    fn rechecked(&self, program: &Program) -> Result<Tally, Memory>
        ensures results { IfOk result (λ tally. tally.results ≡ map (checked_of program.now) (certs_in self.now)) }
        ensures touched { IfOk result (λ tally. tally.touched ≡ touched_count (program_of self.now) program.now (certs_in self.now)) }
    {
        let edit = Edit::between(self.alloc, &self.program, program)?;
        let mut step = Step::new(edit);
        let mut tally = Tally::new(self.alloc);
        let results = self.results.as_slice();
        for (place, filed) in self.certs.as_slice().iter().enumerate() {
            tally.put(self.alloc, &mut step, filed, results[place])?;
        }
        Ok(tally)
    }

    /// The program is now this one. Tells how many certificates the step touches. After an error nothing has changed.
    ///
    /// # Errors
    ///
    /// Want of memory.
    pub fn update(&mut self, program: &Program) -> Result<u64, Memory>
        ensures program { OnOk result (program_of self.new ≡ program.now) }
        ensures touched { IfOk result (λ touched. touched ≡ touched_count (program_of self.old) program.now (certs_in self.old)) }
        ensures certs { certs_in self.new ≡ certs_in self.old }
        ensures unchanged { OnErr result (self.new ≡ self.old) }
    {
        let copied = program.copy(self.alloc)?;
        let Tally { results, touched } = self.rechecked(program)?;
        self.program = copied;
        self.results = results;
        Ok(touched)
    }

    /// What a check of the certificate at the place, counted from 0, comes to under the program.
    pub fn result(&self, i: u64) -> &Checked
        requires { i < length (certs_in self.now) }
        ensures { option_map (checked_of (program_of self.now)) (slice_get (certs_in self.now) i) ≡ Some result.now }
    {
        match self.results.get(i as usize) {
            Some(checked) => checked,
            None => unreachable!(),
        }
    }

    /// What a check of each certificate comes to under the program, in order.
    pub fn results(&self) -> &[Checked]
        ensures { result.now ≡ map (checked_of (program_of self.now)) (certs_in self.now) }
    {
        self.results.as_slice()
    }

    /// The certificate at the place, counted from 0.
    pub fn cert(&self, i: u64) -> &Cert
        requires { i < length (certs_in self.now) }
        ensures { slice_get (certs_in self.now) i ≡ Some (certificate_of result.now) }
    {
        match self.certs.get(i as usize) {
            Some(cert) => cert,
            None => unreachable!(),
        }
    }

    /// The number of certificates.
    pub fn len(&self) -> u64
        ensures { result ≡ length (certs_in self.now) }
    {
        self.certs.len() as u64
    }
}
