//! What the texts of blocks say.
ghost use Rattle.std.specs.Prelude.{All, map};
ghost use Rattle.scasp_answers.specs.Files.View.{entry_of};
ghost use Rattle.scasp_cert.specs.Certificate.{certificate_of};
ghost use Rattle.scasp_command_extend.specs.Outcomes.{outcome_of, Says};
ghost use Rattle.scasp_command_extend.specs.Outputs.{KeepsOutcome};
ghost use Rattle.scasp_syntax.specs.Tm.{items};
ghost use Rattle.scasp_syntax.specs.declared.program.Program.{Program as ThisProgram};

use scasp_answers::{Entries, Entry};
use scasp_cert::Cert;
use scasp_law_promise::see_rows;
use scasp_tables::Domain;

/// What it says of a certificate that this comes of it over a domain, under a program: a law, which computes nothing but that the
/// certificate's rows are in normal form, as those of each `Cert` are. It takes no memory; the recursion is as deep as the
/// certificate.
pub fn see_outcome(cert: &Cert, domain: &Domain)
    ensures { (p : ThisProgram) → Says (outcome_of p (items domain.now) (certificate_of cert.now)) p (items domain.now) (certificate_of cert.now) }
{
    see_rows(cert);
    let _members = domain.terms();
}

/// What the text of an entry says under a program, where it is a block.
fn see_entry(entry: &Entry, domain: &Domain)
    ensures { (p : ThisProgram) → KeepsOutcome p (items domain.now) (entry_of entry.now) }
{
    match entry {
        Entry::Block(block) => see_outcome(&block.cert, domain),
        Entry::Ended(_, _) | Entry::Rejected(_, _, _, _) => {}
    }
}

/// What the texts of all blocks say under a program: a law, as `see_outcome` is.
pub fn see_outcomes(entries: &Entries, domain: &Domain)
    ensures { (p : ThisProgram) → All (KeepsOutcome p (items domain.now)) (map entry_of entries.now) }
{
    for entry in entries.as_slice() {
        see_entry(entry, domain);
    }
}
