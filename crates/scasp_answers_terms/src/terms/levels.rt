//! The levels of open brackets around a term.
ghost use Rattle.std.specs.Prelude.{◌≡◌, ◌∷◌, ◌++◌, [], map, OnOk, IfSome, IfNone};
ghost use Rattle.scasp_syntax.specs.View.{tm_of};
ghost use Rattle.scasp_answers_terms.specs.Terms.Levels.{bracket_of, opens_of, before_of};

use scasp_list::Memory;
use scasp_name::NameId;
use scasp_syntax::Term;
use std::alloc::Global;
use std::mem;

/// An open bracket: what stands in front of it, and the terms before that on the level around.
#[derive(Drop)]
pub enum Bracket {
    /// `f(`
    Call(NameId, Vec<Term>),
    /// `[`
    Elements(Vec<Term>),
    /// `[a,b|`, with its elements.
    Tail(Vec<Term>, Vec<Term>),
}

/// How reading goes on.
#[derive(Drop)]
pub enum Next {
    /// A term is to begin.
    Wanted,
    /// This term has ended.
    Ended(Term),
    /// The terms have ended.
    Done,
}

/// The open brackets, innermost last, and the terms before on the innermost level.
#[derive(Drop)]
pub struct Levels {
    pub opens: Vec<Bracket>,
    pub before: Vec<Term>,
}

impl Levels {
    /// No open bracket, and no term before. It takes no memory.
    pub fn new(alloc: Global) -> Levels
        ensures opens { opens_of result ≡ [] }
        ensures before { before_of result ≡ [] }
    {
        Levels {
            opens: Vec::new(alloc),
            before: Vec::new(alloc),
        }
    }

    /// Puts a term behind those on the innermost level.
    pub fn put(&mut self, term: Term) -> Result<(), Memory>
        ensures opens { opens_of self.new ≡ opens_of self.old }
        ensures before { OnOk result (before_of self.new ≡ before_of self.old ++ tm_of term ∷ []) }
    {
        self.before.push(term)?;
        Ok(())
    }

    /// Takes the terms on the innermost level, and puts these in their place.
    pub fn replaced(&mut self, terms: Vec<Term>) -> Vec<Term>
        ensures opens { opens_of self.new ≡ opens_of self.old }
        ensures terms { before_of self.new ≡ map tm_of terms.items }
        ensures before { map tm_of result.items ≡ before_of self.old }
    {
        mem::replace(&mut self.before, terms)
    }

    /// Opens a bracket.
    pub fn open(&mut self, bracket: Bracket) -> Result<(), Memory>
        ensures opens { OnOk result (opens_of self.new ≡ bracket_of bracket ∷ opens_of self.old) }
        ensures before { before_of self.new ≡ before_of self.old }
    {
        self.opens.push(bracket)?;
        Ok(())
    }

    /// Takes the innermost open bracket away, where one is open.
    pub fn innermost(&mut self) -> Option<Bracket>
        ensures some { IfSome result (λ bracket. opens_of self.old ≡ bracket_of bracket ∷ opens_of self.new) }
        ensures none { IfNone result (opens_of self.old ≡ []) }
        ensures empty { IfNone result (opens_of self.new ≡ []) }
        ensures before { before_of self.new ≡ before_of self.old }
    {
        self.opens.pop()
    }
}
