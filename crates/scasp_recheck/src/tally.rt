//! What is found of certificates, one after another.
ghost use Rattle.std.specs.Prelude.{◌≡◌, [], OnOk};
ghost use Rattle.scasp_recheck.specs.Checks.{checked_of};
ghost use Rattle.scasp_recheck.specs.Tallies.{tally_none, with_filed};
ghost use Rattle.scasp_recheck.specs.Views.{filed_cert};

use crate::certs::Filed;
use crate::checked::{Checked, check_anew};
use crate::step::Step;
use scasp_list::{Memory, Sequence};
use std::alloc::Global;

/// What the first certificates come to under the new program, and how many of them the step touches.
#[derive(Drop)]
pub(crate) struct Tally {
    pub results: Sequence<Checked>,
    pub touched: u64,
}

impl Tally {
    /// Of no certificate. It takes no memory.
    pub fn new(alloc: Global) -> Tally
        ensures { result ≡ tally_none }
    {
        Tally {
            results: Sequence::new(alloc),
            touched: 0,
        }
    }

    /// One certificate more, which came to this under the old program. It is checked anew where the step touches it.
    pub fn put<'a>(
        &mut self,
        alloc: Global,
        step: &mut Step<'a>,
        filed: &'a Filed,
        before: Checked,
    ) -> Result<(), Memory>
        requires { before ≡ checked_of step.old.edit.old.now (filed_cert filed.now) }
        ensures ok { OnOk result (self.new ≡ with_filed step.old.edit.old.now step.old.edit.new.now self.old filed.now) }
        ensures edit { step.new.edit ≡ step.old.edit }
    {
        if step.edit.touches(&filed.cert, &filed.named) {
            self.touched = self.touched.checked_add(1).ok_or(Memory)?;
            self.results
                .push(check_anew(alloc, step.edit.new, &filed.cert)?)?;
            return Ok(());
        }
        self.results.push(step.kept(filed, before))?;
        Ok(())
    }
}
