//! What is kept of each constraint.
ghost use Rattle.std.specs.Prelude.{◌≡◌};
ghost use Rattle.scasp_diseq.specs.Inside.Indexed.{is_disequation, is_shape};

use scasp_name::NameId;
use scasp_syntax::Con;

/// A shape or a disequation, with the number of mentions before its own.
#[derive(Drop)]
pub(crate) struct Posted {
    pub(crate) con: Con,
    pub(crate) before: u64,
}

/// Whether the constraint is a disequation.
pub(crate) fn is_disequation(con: &Con) -> bool
    ensures { result ≡ is_disequation con.now }
{
    match con {
        Con::Neq(_, _) => true,
        Con::Eq(_, _) => false,
        Con::NotShape(_, _, _) => false,
        Con::Num(_) => false,
        Con::NotNum(_) => false,
        Con::Row(_) => false,
    }
}

/// Whether the constraint excludes this shape of the variable.
pub(crate) fn is_shape(con: &Con, x: u64, name: NameId, arity: u64) -> bool
    ensures { result ≡ is_shape x name arity con.now }
{
    match con {
        Con::NotShape(y, other, count) => *y == x && *other == name && *count == arity,
        Con::Eq(_, _) => false,
        Con::Neq(_, _) => false,
        Con::Num(_) => false,
        Con::NotNum(_) => false,
        Con::Row(_) => false,
    }
}
