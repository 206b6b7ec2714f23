//! Binding of a variable.
ghost use Rattle.std.specs.Prelude.{◌≡◌, OnOk};
ghost use Rattle.scasp_syntax.specs.View.{tm_of};
ghost use Rattle.scasp_bind.specs.Binds.{CanBind, Binds};
ghost use Rattle.scasp_bind.specs.Kept.{Continues};
ghost use Rattle.scasp_bind.specs.Inside.Soundness.{IsSound};

use crate::depths::lower_term;
use crate::trailed::Trailed;
use scasp_list::Memory;
use scasp_syntax::Term;
use std::alloc::Global;

/// Binds the variable to the copy of the term, and lowers the depths of the existentials in the term; after an error
/// some depths may be lower.
pub(crate) fn bind_lowered(
    alloc: Global,
    store: &mut Trailed,
    x: u64,
    term: &Term,
    copied: Term,
) -> Result<(), Memory>
    requires { CanBind store.old x (tm_of term.now) × (copied ≡ term.now) × IsSound store.old }
    ensures bound { OnOk result (Binds store.old.variables store.new.variables x term.now) }
    ensures continues { Continues store.old store.new }
    ensures sound { IsSound store.new }
{
    let depth = store.get(x).depth;
    lower_term(alloc, store, term, depth)?;
    store.set_term(x, Some(copied))
}
