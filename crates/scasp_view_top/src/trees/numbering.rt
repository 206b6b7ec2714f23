//! Items by number.
ghost use Rattle.std.specs.Prelude.{◌≡◌, option_copied};
ghost use Rattle.scasp_syntax.specs.Programs.{numbered};

/// The item of this number, counted from 1.
pub(crate) fn item_numbered<T>(items: &[T], number: u64) -> Option<&T>
    ensures { option_copied result ≡ numbered items.now number }
{
    if number == 0 {
        return None;
    }
    items.get((number - 1) as usize)
}
