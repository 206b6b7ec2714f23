//! The answer that a state with nothing left to do is.
ghost use Rattle.std.specs.Prelude.{◌≡◌, [], List};
ghost use Rattle.scasp_cert.specs.Certificate.{certificate_of};
ghost use Rattle.scasp_search_ends.specs.Ends.Ends.{Ends, Sampled, problem};
ghost use Rattle.scasp_sample.specs.Sampling.{sample};
ghost use Rattle.scasp_lines.specs.Lines.{free_of};
ghost use Rattle.scasp_nmr.specs.declared.items.CheckItem.{CheckItem};
ghost use Rattle.scasp_search_rules.specs.Successors.Answers.{answer_of, certificate_at, sampled};
ghost use Rattle.scasp_search_rules.specs.Successors.Search.{answer_at, asked_by};

use crate::ends::pairs::all_apart;
use crate::ends::replacing::end_overflows;
use crate::finished::{About, certificate_at};
use scasp_cert::Cert;
use scasp_num::RowErr;
use scasp_sample::sample;
use scasp_search_constraints::SearchErr;
use scasp_search_rules::State;
use std::alloc::Global;

/// The certificate with values for its free variables.
fn sampled(alloc: Global, fresh: u64, cert: Cert) -> Result<Cert, SearchErr>
    ensures { Sampled result (sampled (certificate_of cert) (sample fresh cert.given (free_of (certificate_of cert)))) }
{
    let mut cert = cert;
    let count = cert.sample.len() as u64;
    match sample(alloc, fresh, cert.given.as_slice(), count) {
        Ok(terms) => {
            cert.sample = terms;
            Ok(cert)
        }
        Err(RowErr::Overflow) => Err(SearchErr::Overflow),
        Err(RowErr::Memory) => Err(SearchErr::Memory),
    }
}

/// The answer that a state with nothing left to do is, where its literals are apart. Overflow only where the sample overflows,
/// or one of the lists that are asked about the literals.
fn answer_if_apart(
    alloc: Global,
    about: &About,
    fresh: u64,
    state: &State,
    queried: u64,
) -> Result<Option<Cert>, SearchErr>
    ensures { (checks : List CheckItem) → Ends result (answer_of (problem about.now.program.now about.now.query checks about.now.map.now fresh) (certificate_at (problem about.now.program.now about.now.query checks about.now.map.now fresh) state.now queried))
        (asked_by (problem about.now.program.now about.now.query checks about.now.map.now fresh) state.now queried []) }
{
    let cert = certificate_at(alloc, about, state, queried)?;
    if all_apart(alloc, about.program, &cert)? {
        Ok(Some(sampled(alloc, fresh, cert)?))
    } else {
        Ok(None)
    }
}

/// The answer that a state with nothing left to do is, where so many variables are those of the query; None where two of its
/// literals may be one. The names of its sample start with `fresh`. Overflow where the bindings cannot replace a row of the
/// state; else only where the sample overflows, or one of the lists that are asked about the literals.
pub fn answer_at(
    alloc: Global,
    about: &About,
    fresh: u64,
    state: &State,
    queried: u64,
) -> Result<Option<Cert>, SearchErr>
    ensures { (checks : List CheckItem) → Ends result (answer_at (problem about.now.program.now about.now.query checks about.now.map.now fresh) state.now queried [])
        (asked_by (problem about.now.program.now about.now.query checks about.now.map.now fresh) state.now queried []) }
{
    if end_overflows(alloc, state)? {
        return Err(SearchErr::Overflow);
    }
    answer_if_apart(alloc, about, fresh, state, queried)
}
