//! What is the same for all lines, with the table of the lines.
ghost use Rattle.std.specs.Prelude.{◌≡◌, IfOk};
ghost use Rattle.scasp_checker_lines.specs.TableFaults.Tables.{Tells};

use scasp_cert::Cert;
use scasp_checker_lines::{Common, common_of};
use scasp_lines_walk::{Table, table_of};
use scasp_list::Memory;
use scasp_syntax::Program;
use std::alloc::Global;

/// A program and a certificate, with the table of its lines.
#[derive(Drop)]
pub struct Tabled<'a> {
    pub common: Common<'a>,
    pub table: Table,
}

/// The certificate with the table of its lines.
pub fn with_table<'a>(
    alloc: Global,
    program: &'a Program,
    cert: &'a Cert,
) -> Result<Tabled<'a>, Memory>
    ensures program { IfOk result (λ made. made.common.program.now ≡ program.now) }
    ensures cert { IfOk result (λ made. made.common.cert.now ≡ cert.now) }
    ensures tells { IfOk result (λ made. Tells made.table made.common) }
{
    let common = common_of(program, cert)?;
    let table = table_of(alloc, program, cert)?;
    Ok(Tabled { common, table })
}
