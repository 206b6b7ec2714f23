//! What is known of a term before it is equated.
use scasp_name::NameId;
use scasp_num::Rat;

/// What is known of a term that is to be the same as the first argument of a rule's head.
#[derive(Clone, Copy)]
pub enum Expected {
    /// Nothing.
    Open,
    /// It reads as this number.
    Number(Rat),
    /// It reads as this name with so many arguments.
    Name(NameId, u64),
    /// It reads as an unbound existential variable, and what is given leaves no other number to it.
    Left(Rat),
}
