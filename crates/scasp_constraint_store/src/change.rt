//! What a change has overwritten.
ghost use Rattle.std.specs.Prelude.{◌≡◌};
ghost use Rattle.scasp_constraint_store.specs.Inside.Undoing.{list_without};

use scasp_bind::BindMark;
use scasp_syntax::Con;

/// What a change did to the list.
#[derive(Drop)]
pub(crate) enum ListChange {
    /// Nothing.
    Kept,
    /// A constraint was put behind the others.
    Put,
    /// Some constraints were taken out of this list.
    Retired(Vec<Con>),
}

/// A change, with what it has overwritten.
#[derive(Drop)]
pub(crate) struct Change {
    pub(crate) list: ListChange,
    /// The time of the variables before the change.
    pub(crate) before: BindMark,
}

/// Makes the list again what it was before the change.
pub(crate) fn restore(list: &mut Vec<Con>, change: ListChange)
    ensures { list.new.items ≡ list_without change list.old.items }
{
    match change {
        ListChange::Kept => {}
        ListChange::Put => {
            let _constraint = list.pop();
        }
        ListChange::Retired(old) => *list = old,
    }
}
