//! Where a term has ended.
ghost use Rattle.std.specs.Prelude.{◌≡◌, ◌≤◌, [], ◌∷◌, ℕ, List, map, length, IfOk, Some};
ghost use Rattle.scasp_syntax.specs.View.{tm_of};
ghost use Rattle.scasp_answers_terms.specs.Tokens.Terms.{ends, call, elements, tail};
ghost use Rattle.scasp_answers_terms.specs.Terms.Levels.{bracket_of, opens_of, before_of, left, Goes};

use crate::terms::begins::ended;
use crate::terms::levels::{Bracket, Levels, Next};
use crate::terms::shapes::{called, is_list, list_of};
use crate::tokens::{Cursor, Stop, Token};
use scasp_name::{NIL, NameId};
use scasp_syntax::{Term, Terms};
use std::alloc::Global;

impl Levels {
    /// Ends a term.
    pub fn end(&mut self, alloc: Global, term: Term, cursor: &mut Cursor<'_>) -> Result<Next, Stop>
        ensures goes { (place : List ℕ → ℕ) → Goes place (ends place (opens_of self.old) (before_of self.old) (Some (tm_of term)) cursor.old) result self.new cursor.new }
        ensures left { IfOk result (λ next. left next cursor.new ≤ length cursor.old) }
    {
        match self.innermost() {
            None => self.end_outside(term, cursor),
            Some(bracket) => self.end_inside(alloc, bracket, term, cursor),
        }
    }

    /// Ends a term in the bracket, which has been taken away.
    fn end_inside(
        &mut self,
        alloc: Global,
        bracket: Bracket,
        term: Term,
        cursor: &mut Cursor<'_>,
    ) -> Result<Next, Stop>
        ensures goes { (place : List ℕ → ℕ) → Goes place (ends place (bracket_of bracket ∷ opens_of self.old) (before_of self.old) (Some (tm_of term)) cursor.old) result self.new cursor.new }
        ensures left { IfOk result (λ next. left next cursor.new ≤ length cursor.old) }
    {
        match bracket {
            Bracket::Call(name, around) => self.end_argument(alloc, name, around, term, cursor),
            Bracket::Elements(around) => self.end_element(alloc, around, term, cursor),
            Bracket::Tail(elements, around) => {
                self.end_tail(alloc, elements, around, term, cursor)
            }
        }
    }

    /// Ends a term that stands in no bracket.
    fn end_outside(&mut self, term: Term, cursor: &mut Cursor<'_>) -> Result<Next, Stop>
        requires { opens_of self.old ≡ [] }
        ensures goes { (place : List ℕ → ℕ) → Goes place (ends place [] (before_of self.old) (Some (tm_of term)) cursor.old) result self.new cursor.new }
        ensures left { IfOk result (λ next. left next cursor.new ≤ length cursor.old) }
    {
        self.put(term)?;
        if cursor.takes(b',') {
            return Ok(Next::Wanted);
        }
        Ok(Next::Done)
    }

    /// Ends an argument of the name, which has been taken away.
    fn end_argument(
        &mut self,
        alloc: Global,
        name: NameId,
        around: Vec<Term>,
        term: Term,
        cursor: &mut Cursor<'_>,
    ) -> Result<Next, Stop>
        ensures goes { (place : List ℕ → ℕ) → Goes place (ends place (call name (map tm_of around.items) ∷ opens_of self.old) (before_of self.old) (Some (tm_of term)) cursor.old) result self.new cursor.new }
        ensures left { IfOk result (λ next. left next cursor.new ≤ length cursor.old) }
    {
        self.put(term)?;
        if cursor.takes(b',') {
            self.open(Bracket::Call(name, around))?;
            return Ok(Next::Wanted);
        }
        if !cursor.takes(b')') {
            return Err(Stop::NoForm);
        }
        let arguments = self.replaced(around);
        let term = called(alloc, name, arguments)?;
        ended(term)
    }

    /// Ends an element of a list, whose bracket has been taken away.
    fn end_element(
        &mut self,
        alloc: Global,
        around: Vec<Term>,
        term: Term,
        cursor: &mut Cursor<'_>,
    ) -> Result<Next, Stop>
        ensures goes { (place : List ℕ → ℕ) → Goes place (ends place (elements (map tm_of around.items) ∷ opens_of self.old) (before_of self.old) (Some (tm_of term)) cursor.old) result self.new cursor.new }
        ensures left { IfOk result (λ next. left next cursor.new ≤ length cursor.old) }
    {
        self.put(term)?;
        if cursor.takes(b',') {
            self.open(Bracket::Elements(around))?;
            return Ok(Next::Wanted);
        }
        if cursor.takes(b'|') {
            let elements = self.replaced(Vec::new(alloc));
            self.open(Bracket::Tail(elements, around))?;
            return Ok(Next::Wanted);
        }
        if !cursor.takes(b']') {
            return Err(Stop::NoForm);
        }
        let elements = self.replaced(around);
        let nil = Term::App(NIL, Terms::new(alloc));
        Ok(Next::Ended(list_of(alloc, elements, nil)?))
    }

    /// Ends the rest of a list, whose bracket has been taken away.
    fn end_tail(
        &mut self,
        alloc: Global,
        elements: Vec<Term>,
        around: Vec<Term>,
        term: Term,
        cursor: &mut Cursor<'_>,
    ) -> Result<Next, Stop>
        ensures goes { (place : List ℕ → ℕ) → Goes place (ends place (tail (map tm_of elements.items) (map tm_of around.items) ∷ opens_of self.old) (before_of self.old) (Some (tm_of term)) cursor.old) result self.new cursor.new }
        ensures left { IfOk result (λ next. left next cursor.new ≤ length cursor.old) }
    {
        if !cursor.takes(b']') {
            return Err(Stop::NoForm);
        }
        if is_list(&term) {
            return Err(Stop::NoForm);
        }
        let _ = self.replaced(around);
        Ok(Next::Ended(list_of(alloc, elements, term)?))
    }
}
