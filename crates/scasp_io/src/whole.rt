ghost use Rattle.std.specs.Prelude.{◌≡◌, ℕ, ◌<◌, ◌≤◌, List, length, Some, IfOk, OnOk, OnErr, IfSome, IsErrOf};
ghost use Rattle.scasp_io.specs.Counts.{Rose};
ghost use Rattle.scasp_io.specs.Bytes.{behind, TakesPrefix};

use crate::errors::{ReadErr, SinkFault};
use crate::outside::{Files, Sink};
use std::alloc::Global;

/// How many bytes one read asks for.
const CHUNK: usize = 4096;

/// Reads the whole file, of at most `limit` bytes.
///
/// `Fault` where a read failed, `TooLong` where the file gave more than `limit` bytes, `Memory`
/// for want of memory.
pub fn read_file<F: Files>(
    alloc: Global,
    files: &mut F,
    name: &str,
    limit: u64,
) -> Result<Vec<u8>, ReadErr>
    ensures whole { IfOk result (λ all. IfSome (F.told files.old name.now) (λ told. all.items ≡ told)) }
    ensures limit { IfOk result (λ all. length all.items ≤ limit) }
    ensures too_long { IsErrOf result ReadErr.TooLong
        → IfSome (F.told files.old name.now) (λ told. limit < length told) }
    ensures fault { IsErrOf result ReadErr.Fault
        → Rose (F.faults files.old name.now) (F.faults files.new name.now) }
    ensures stays { (other : List ℕ) → F.told files.new other ≡ F.told files.old other }
    ensures counts { (other : List ℕ) → F.faults files.old other ≤ F.faults files.new other }
{
    let mut all = Vec::new(alloc);
    let mut chunk = [0u8; CHUNK];
    while all.len() as u64 <= limit {
        let count = files.read(name, all.len() as u64, &mut chunk)?;
        if count == 0 {
            return Ok(all);
        }
        all.extend_from_slice(&chunk[..count])?;
    }
    Err(ReadErr::TooLong)
}

/// Writes all the bytes. It takes no memory.
pub fn write_all<K: Sink>(out: &mut K, bytes: &[u8]) -> Result<(), SinkFault>
    ensures ok { OnOk result (K.taken out.new ≡ behind (K.taken out.old) bytes.now) }
    ensures err { OnErr result (TakesPrefix (K.taken out.old) (K.taken out.new) bytes.now) }
    ensures cause { OnErr result (Rose (K.faults out.old) (K.faults out.new)) }
    ensures counts { K.faults out.old ≤ K.faults out.new }
{
    let mut at = 0;
    while at < bytes.len() {
        at += out.write(&bytes[at..])?;
    }
    Ok(())
}
