//! What holds of each table.
ghost use Rattle.std.specs.Prelude.{◌≡◌, ◌<◌, ◌↔◌, length, slice_get};

use crate::{NameId, Names};

/// Two names of a table are the same exactly where their texts are.
pub fn same_name_same_text(names: &Names, first: NameId, second: NameId)
    requires first_there { first < length names.now }
    requires second_there { second < length names.now }
    ensures { (first ≡ second) ↔ (slice_get names.now first ≡ slice_get names.now second) }
{
    let _ = names.len();
}
