//! Lines at the end of a text.
ghost use Rattle.std.specs.Prelude.{◌≡◌, ◌++◌, replicate, flat_map, OnOk};
ghost use Rattle.scasp_copies.specs.Pieces.{piece_text};
ghost use Rattle.scasp_copies.specs.Writing.{copy_line};
ghost use Rattle.scasp_print_shared.specs.Inside.Lines.{read, read_all};

use crate::lines::Line;
use scasp_name::Memory;
use scasp_print_words::{put, put_number};

fn put_indent(out: &mut Vec<u8>, depth: usize) -> Result<(), Memory>
    ensures { OnOk result (out.new.items ≡ out.old.items ++ replicate depth 32) }
{
    let len = out.len().checked_add(depth).ok_or(Memory)?;
    out.resize(len, b' ')?;
    Ok(())
}

/// Puts a line at the end.
pub(crate) fn put_line(out: &mut Vec<u8>, line: Line<'_>) -> Result<(), Memory>
    ensures { OnOk result (out.new.items ≡ out.old.items ++ piece_text (read line.entry)) }
{
    put_indent(out, line.depth)?;
    out.extend_from_slice(line.words)?;
    out.push(b'\n')?;
    Ok(())
}

/// Puts the line `copy N` at the end.
pub(crate) fn put_copy(out: &mut Vec<u8>, depth: usize, number: usize) -> Result<(), Memory>
    ensures { OnOk result (out.new.items ≡ out.old.items ++ piece_text (copy_line depth number)) }
{
    put_indent(out, depth)?;
    put(out, "copy ")?;
    put_number(out, number as u64)?;
    put(out, "\n")
}

/// Puts lines at the end.
pub(crate) fn put_lines(out: &mut Vec<u8>, lines: &[Line<'_>]) -> Result<(), Memory>
    ensures { OnOk result (out.new.items ≡ out.old.items ++ flat_map piece_text (read_all lines.now)) }
{
    for line in lines {
        put_line(out, *line)?;
    }
    Ok(())
}
