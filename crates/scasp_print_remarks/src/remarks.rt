//! All remarks on an answer.
ghost use Rattle.std.specs.Prelude.{◌≡◌, ◌++◌, OnOk, IfOk};
ghost use Rattle.scasp_cert.specs.Certificate.{certificate_of};
ghost use Rattle.scasp_print_remarks.specs.Remarks as spec;

use crate::values::shown_variables;
use crate::wheres::put_with_where;
use scasp_cert::{Cert, flat};
use scasp_name::{Memory, NameId, Names};
use scasp_print_words::put;
use std::alloc::Global;

/// The remark on the domains of an answer.
fn domain_line(alloc: Global, cert: &Cert) -> Result<&'static str, Memory>
    ensures { IfOk result (λ line. line.now ≡ spec.domain_line (certificate_of cert.now)) }
{
    if flat(alloc, cert)? {
        Ok("% domain any\n")
    } else {
        Ok("% domain closed\n")
    }
}

/// Puts the remarks on an answer to a query with these variables at the end: a line `% NAME = TERM` for each of them that
/// has a name, in which a variable that rows fix to a number is this number; what the given constraints say of the
/// other variables in these terms, as `% where C, C` for the first alternative and `% or C, C` for each further one, as
/// `% where false` where there is none, `% where more` where there are too many and `% where overflow` where their
/// projection overflows, and no line where some alternative has no constraint; and `% domain any` or `% domain closed`. A
/// name that the table lacks is written as the empty text.
pub fn put_remarks(
    out: &mut Vec<u8>,
    names: &Names,
    variables: &[Option<NameId>],
    cert: &Cert,
) -> Result<(), Memory>
    ensures { OnOk result (out.new.items ≡ out.old.items ++ spec.remarks_text names.now variables.now (certificate_of cert.now)) }
{
    let alloc = *out.allocator();
    let spoken_of = shown_variables(alloc, variables, cert.terms.as_slice())?;
    put_with_where(out, names, variables, cert, &spoken_of)?;
    put(out, domain_line(alloc, cert)?)
}
