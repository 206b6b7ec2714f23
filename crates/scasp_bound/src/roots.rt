//! How terms begin.
use scasp_name::NameId;
use scasp_num::Rat;

/// How a term begins: it is a variable or a number, or it has a name, whatever its arguments are.
#[derive(Clone, Copy)]
pub enum Root {
    Var(u64),
    Num(Rat),
    Name(NameId),
}
