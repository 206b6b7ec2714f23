//! Atoms and literals.
use crate::term::Terms;
use scasp_list::Sequence;
use scasp_name::NameId;

/// A predicate: its name, its number of arguments, and whether it is a name with `-` in front.
#[derive(Clone, Copy, Debug, PartialEq, Eq, Hash)]
pub struct Pred {
    pub minus: bool,
    pub name: NameId,
    pub arity: u64,
}

/// A predicate's name with its arguments.
#[derive(Debug, Drop)]
pub struct Atom {
    pub minus: bool,
    pub name: NameId,
    pub args: Terms,
}

/// An atom, or `not` and an atom.
#[derive(Debug, Drop)]
pub struct Lit {
    pub positive: bool,
    pub atom: Atom,
}

/// A list of predicates.
pub type Preds = Sequence<Pred>;

/// A list of atoms.
pub type Atoms = Sequence<Atom>;

/// A list of literals.
pub type Lits = Sequence<Lit>;

impl Atom {
    ghost use Rattle.std.specs.Prelude.{◌≡◌};
    ghost use Rattle.scasp_syntax.specs.Programs.{pred_of};

    /// The atom's predicate.
    pub fn pred(&self) -> Pred
        ensures { result ≡ pred_of self.now }
    {
        Pred {
            minus: self.minus,
            name: self.name,
            arity: self.args.len() as u64,
        }
    }
}
