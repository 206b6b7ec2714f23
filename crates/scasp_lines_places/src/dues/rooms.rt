//! How many universal variables can begin below a part of a certificate.
ghost use Rattle.std.specs.Prelude.{◌≡◌, IfOk};
ghost use Rattle.scasp_cert.specs.Certificate.{certificate_of};
ghost use Rattle.scasp_lines_places.specs.Dues.Pending.{all_room};
ghost use Rattle.scasp_lines_places.specs.Dues.PendingView.{waiting_of};
ghost use Rattle.scasp_lines.specs.Lines.{setting};

use crate::dues::pending::{Pending, put, put_left, room_here};
use crate::dues::sums::sum;
use scasp_cert::Cert;
use scasp_list::Memory;
use scasp_syntax::Program;

/// At most so many universal variables begin at these parts and below them. What is not counted yet waits in memory, so the
/// machine's stack does not grow with the depth of the parts.
fn room_of_all<'a>(program: &Program, waiting: Vec<Pending<'a>>) -> Result<u64, Memory>
    ensures { IfOk result (λ room. room ≡ all_room program.now.clauses (waiting_of waiting.entry.items)) }
{
    let mut left = waiting;
    let mut room = 0u64;
    while let Some(parts) = left.pop() {
        room = sum(room, room_here(program, &parts))?;
        put_left(parts, &mut left)?;
    }
    Ok(room)
}

/// A number that no universal variable of the certificate reaches; past the range of numbers it is want of memory.
pub fn top(program: &Program, cert: &Cert) -> Result<u64, Memory>
    ensures { IfOk result (λ top. top ≡ (setting program.now.clauses (certificate_of cert.now)).top) }
{
    let mut waiting = Vec::new(*cert.trees.list.allocator());
    put(&mut waiting, Pending::Checks(cert.checks.as_slice()))?;
    put(&mut waiting, Pending::Nodes(cert.trees.as_slice()))?;
    let room = room_of_all(program, waiting)?;
    sum(cert.sample.len() as u64, room)
}
