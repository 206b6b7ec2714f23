//! The characters of a line.
ghost use Rattle.std.specs.Prelude.{◌≡◌, ◌++◌, IfOk, OnOk, map};
ghost use Rattle.scasp_view_top.specs.Place.Characters as spec;

use scasp_list::Memory;
use std::alloc::Global;

/// Whether the byte may stand in a character behind its first byte.
fn continues(byte: u8) -> bool
    ensures { result ≡ spec.continues byte }
{
    0x80 <= byte && byte < 0xc0
}

/// How many bytes a character may have behind this first one.
fn room_behind(byte: u8) -> u64
    ensures { result ≡ spec.room_behind byte }
{
    if byte < 0xc0 {
        0
    } else if byte < 0xe0 {
        1
    } else if byte < 0xf0 {
        2
    } else {
        3
    }
}

/// The first bytes of the characters, where the one before may have so many further bytes.
pub(crate) fn first_bytes(alloc: Global, bytes: &[u8]) -> Result<Vec<u8>, Memory>
    ensures { IfOk result (λ firsts. firsts.items ≡ spec.first_bytes 0 bytes.now) }
{
    let mut firsts = Vec::new(alloc);
    let mut room = 0;
    for byte in bytes {
        if room > 0 && continues(*byte) {
            room -= 1;
        } else {
            firsts.push(*byte)?;
            room = room_behind(*byte);
        }
    }
    Ok(firsts)
}

/// What stands below a character in front of a mark.
fn blank_below(byte: u8) -> u8
    ensures { result ≡ spec.blank_below byte }
{
    if byte == b'\t' { b'\t' } else { b' ' }
}

/// Puts what stands below these characters in front of a mark at the end.
pub(crate) fn put_blanks(out: &mut Vec<u8>, firsts: &[u8]) -> Result<(), Memory>
    ensures { OnOk result (out.new.items ≡ out.old.items ++ map spec.blank_below firsts.now) }
{
    for byte in firsts {
        out.push(blank_below(*byte))?;
    }
    Ok(())
}
