//! What parts of a step come to.
use scasp_syntax::{Con, VarList};

/// What becomes of a state where a constraint is assumed.
#[derive(Clone, Copy, Debug, PartialEq, Eq)]
pub enum Status {
    /// It holds already.
    Entailed,
    /// It cannot hold.
    Impossible,
    /// It is given from now on.
    Added,
    /// It parts the case of a cover.
    Parts,
}

/// How a constraint parts a case: what holds here, what the tree's line says, what holds in the remainder, and the new
/// variables of the two sides for the parts of a shape.
#[derive(Debug, Drop)]
pub struct Parting {
    pub here: Con,
    pub line: Con,
    pub there: Con,
    pub parts_here: VarList,
    pub parts_there: VarList,
}

/// The literal above that a call repeats.
#[derive(Clone, Copy, Debug, PartialEq, Eq)]
pub struct Repeated {
    pub number: u64,
    /// A negated literal stands strictly between.
    pub is_behind_negation: bool,
}
