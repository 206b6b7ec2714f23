//! The step from one program to another, and maps that are asked after it.
ghost use Rattle.std.specs.Prelude.{◌≡◌};
ghost use Rattle.std.specs.Option.{ForSome};
ghost use Rattle.scasp_recheck.specs.Checks.{verdict_on};
ghost use Rattle.scasp_recheck.specs.Tallies.{kept_by};
ghost use Rattle.scasp_recheck.specs.Views.{filed_cert};

use crate::certs::Filed;
use crate::checked::Checked;
use scasp_checker::Verdict;
use scasp_graph::map_holds;
use scasp_syntax::Program;
use scasp_touched::Edit;

/// A certificate whose map was asked, and what it is worth by that.
#[derive(Clone, Copy)]
struct Asked<'a> {
    filed: &'a Filed,
    verdict: Verdict,
}

/// The step from one program to another. Answers of one program mostly have one map, so the map that was asked last under the
/// new program is kept.
#[derive(Drop)]
pub(crate) struct Step<'a> {
    pub edit: Edit<'a>,
    last: Option<Asked<'a>>,
    ghost is_so: { ForSome last (λ asked. asked.verdict ≡ verdict_on edit.new.now (filed_cert asked.filed.now)) },
}

/// What an accepted certificate is worth under the program, by its map alone. It takes no memory.
fn verdict(program: &Program, filed: &Filed) -> Verdict
    ensures { result ≡ verdict_on program.now (filed_cert filed.now) }
{
    match map_holds(program, &filed.covered, &filed.cert.map) {
        Ok(()) => Verdict::Right,
        Err(fault) => Verdict::Joins(fault),
    }
}

impl<'a> Step<'a> {
    /// No map was asked yet.
    pub fn new(edit: Edit<'a>) -> Step<'a>
        ensures { result.edit ≡ edit.entry }
    {
        Step { edit, last: None }
    }

    /// What an accepted certificate is worth under the new program, by its map alone. The map is not asked again if it is the one
    /// that was asked last. It takes no memory.
    fn verdict(&mut self, filed: &'a Filed) -> Verdict
        ensures value { result ≡ verdict_on self.old.edit.new.now (filed_cert filed.now) }
        ensures edit { self.new.edit ≡ self.old.edit }
    {
        if let Some(asked) = self.last {
            if asked.filed.is_asked_as(filed) {
                return asked.verdict;
            }
        }
        let verdict = verdict(self.edit.new, filed);
        self.last = Some(Asked { filed, verdict });
        verdict
    }

    /// What a check comes to under the new program, if the same is wrong with the certificate as before. It walks no tree.
    pub fn kept(&mut self, filed: &'a Filed, before: Checked) -> Checked
        ensures value { result ≡ kept_by before (verdict_on self.old.edit.new.now (filed_cert filed.now)) }
        ensures edit { self.new.edit ≡ self.old.edit }
    {
        match before {
            Checked::Refused(refusal) => Checked::Refused(refusal),
            Checked::Accepted(_) => Checked::Accepted(self.verdict(filed)),
        }
    }
}
