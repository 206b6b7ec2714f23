//! The table by which answers are printed.
ghost use Rattle.std.specs.Prelude.{◌≡◌, ◌++◌, ◌+◌, ◌^◌, ◌<◌, ℕ, List, length, codes, decimal, string_bytes, IfOk, OnOk};
ghost use Rattle.scasp_cert.specs.Certificate.{certificate_of};
ghost use Rattle.scasp_print_samples.specs.Tables.{HasNames, IsTable};

use itoa::Buffer;
use scasp_cert::Cert;
use scasp_list::Memory;
use scasp_name::Names;
use std::alloc::Global;

/// The table of a program, and behind its names those of samples.
#[derive(Drop)]
pub struct Table {
    pub names: Names,
    /// How many texts the program's table has.
    pub program: u64,
    /// How many of the texts `w0`, `w1` and so on were tried as names of samples.
    pub tried: u64,
}

/// The table of a program, to which no name was added.
pub fn table_of(names: Names) -> Table
    ensures { IsTable names result }
{
    let program = names.len();
    Table {
        names,
        program,
        tried: 0,
    }
}

/// The text `w` with this number behind it.
fn sample_text(alloc: Global, number: u64) -> Result<String, Memory>
    ensures { IfOk result (λ text. string_bytes text ≡ codes "w" ++ decimal number) }
{
    let mut text = String::from_str(alloc, "w")?;
    text.push_str(Buffer::new().format(number))?;
    Ok(text)
}

/// Tries the next name.
fn try_name(alloc: Global, table: &mut Table) -> Result<(), Memory>
    ensures table { OnOk result ((names : List (List ℕ)) → IsTable names table.old → IsTable names table.new) }
    ensures tried { OnOk result (table.new.tried ≡ table.old.tried + 1) }
    ensures fits { OnOk result (table.new.tried < 2 ^ 64) }
    ensures program { OnOk result (table.new.program ≡ table.old.program) }
{
    let text = sample_text(alloc, table.tried)?;
    table.tried = table.tried.checked_add(1).ok_or(Memory)?;
    table.names.intern(text.as_str())?;
    Ok(())
}

/// Adds as many names as the sample of the certificate may need, one for each free variable.
pub fn name_sample(alloc: Global, table: &mut Table, cert: &Cert) -> Result<(), Memory>
    ensures { OnOk result ((names : List (List ℕ)) → IsTable names table.old → HasNames names table.new (certificate_of cert.now)) }
{
    let wanted = table
        .program
        .checked_add(cert.sample.len() as u64)
        .ok_or(Memory)?;
    while table.names.len() < wanted {
        try_name(alloc, table)?;
    }
    Ok(())
}
