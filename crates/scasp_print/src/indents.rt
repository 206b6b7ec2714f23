//! Blanks in front of a line, and how deep it stands.
ghost use Rattle.std.specs.Prelude.{◌≡◌, ◌+◌, ◌++◌, OnOk, IfOk, replicate};

use scasp_name::Memory;

/// Puts so many blanks at the end.
pub fn put_indent(out: &mut Vec<u8>, depth: u64) -> Result<(), Memory>
    ensures { OnOk result (out.new.items ≡ out.old.items ++ replicate depth 32) }
{
    for _ in 0..depth {
        out.push(b' ')?;
    }
    Ok(())
}

/// The depth one further in. There is no memory for a tree that is deeper than 2^64 - 1.
pub fn below(depth: u64) -> Result<u64, Memory>
    ensures { IfOk result (λ next. next ≡ depth + 1) }
{
    depth.checked_add(1).ok_or(Memory)
}
