//! Where a term begins.
ghost use Rattle.std.specs.Prelude.{◌≡◌, ◌≤◌, ◌+◌, [], ◌∷◌, ℕ, List, length, IfOk};
ghost use Rattle.std.specs.Option.{option_map};
ghost use Rattle.scasp_reader_terms.specs.Names.{place_in};
ghost use Rattle.scasp_syntax.specs.View.{tm_of};
ghost use Rattle.scasp_answers_terms.specs.Tokens.Tokens as tokens;
ghost use Rattle.scasp_answers_terms.specs.Tokens.Tokens.{word, minus, bracket};
ghost use Rattle.scasp_answers_terms.specs.Tokens.Terms as spec;
ghost use Rattle.scasp_answers_terms.specs.Tokens.Terms.{call, elements, wants, ends};
ghost use Rattle.scasp_answers_terms.specs.Terms.Levels.{opens_of, before_of, named, left, Goes};
ghost use Rattle.scasp_answers_terms.specs.declared.terms.levels.Levels.{Levels};

use crate::terms::levels::{Bracket, Levels, Next};
use crate::terms::names::{place, quoted_place};
use crate::terms::numbers::{quotient, variable_term, whole};
use crate::terms::shapes::called;
use crate::tokens::{Cursor, Stop, Token};
use scasp_name::{NIL, NameId, Names};
use scasp_syntax::{Term, Terms};
use std::alloc::Global;

/// A term has ended, if it is one.
pub fn ended(term: Option<Term>) -> Result<Next, Stop>
    ensures goes { (place : List ℕ → ℕ) (levels : Levels) (ts : List tokens.Token) → Goes place (ends place (opens_of levels) (before_of levels) (option_map tm_of term) ts) result levels ts }
    ensures left { (ts : List tokens.Token) → IfOk result (λ next. left next ts ≤ length ts + 1) }
{
    match term {
        Some(term) => Ok(Next::Ended(term)),
        None => Err(Stop::NoForm),
    }
}

impl Levels {
    /// Begins a term.
    pub fn begin(
        &mut self,
        alloc: Global,
        cursor: &mut Cursor<'_>,
        names: &Names,
    ) -> Result<Next, Stop>
        ensures goes { Goes (place_in names.now) (wants (place_in names.now) (opens_of self.old) (before_of self.old) cursor.old) result self.new cursor.new }
        ensures left { IfOk result (λ next. left next cursor.new ≤ length cursor.old) }
    {
        let Some(first) = cursor.pop() else {
            return Err(Stop::NoForm);
        };
        match first {
            Token::Variable(number) => Ok(Next::Ended(variable_term(number))),
            Token::Digits(size) => ended(whole(false, size)),
            Token::Fraction(size, parts) => ended(quotient(false, size, parts)),
            Token::Minus => self.negative(cursor),
            Token::Bracket => self.list(alloc, cursor),
            Token::Word(word) => self.begin_word(alloc, word, cursor, names),
            Token::Quoted(quoted) => {
                let name = quoted_place(alloc, names, quoted)?;
                self.named(alloc, name, cursor)
            }
            Token::Plus
            | Token::Star
            | Token::Comma
            | Token::Bar
            | Token::Paren
            | Token::Close
            | Token::Unbracket
            | Token::Sign(_)
            | Token::Bad => Err(Stop::NoForm),
        }
    }

    /// Begins a term with a word, which has been taken.
    fn begin_word(
        &mut self,
        alloc: Global,
        text: &str,
        cursor: &mut Cursor<'_>,
        names: &Names,
    ) -> Result<Next, Stop>
        ensures goes { Goes (place_in names.now) (wants (place_in names.now) (opens_of self.old) (before_of self.old) (word text.now ∷ cursor.old)) result self.new cursor.new }
        ensures left { IfOk result (λ next. left next cursor.new ≤ length cursor.old + 1) }
    {
        let is_not = text == "not";
        if is_not {
            return Err(Stop::NoForm);
        }
        self.named(alloc, place(names, text), cursor)
    }

    /// Reads the number behind a minus sign.
    fn negative(&mut self, cursor: &mut Cursor<'_>) -> Result<Next, Stop>
        ensures goes { (place : List ℕ → ℕ) → Goes place (wants place (opens_of self.old) (before_of self.old) (minus ∷ cursor.old)) result self.new cursor.new }
        ensures left { IfOk result (λ next. left next cursor.new ≤ length cursor.old + 1) }
    {
        let Some(next) = cursor.pop() else {
            return Err(Stop::NoForm);
        };
        if let Token::Fraction(size, parts) = next {
            return ended(quotient(true, size, parts));
        }
        let Token::Digits(size) = next else {
            return Err(Stop::NoForm);
        };
        if size == 0 {
            return Err(Stop::NoForm);
        }
        ended(whole(true, size))
    }

    /// Begins a list, behind its bracket.
    fn list(&mut self, alloc: Global, cursor: &mut Cursor<'_>) -> Result<Next, Stop>
        ensures goes { (place : List ℕ → ℕ) → Goes place (wants place (opens_of self.old) (before_of self.old) (bracket ∷ cursor.old)) result self.new cursor.new }
        ensures left { IfOk result (λ next. left next cursor.new ≤ length cursor.old + 1) }
    {
        if cursor.takes(b']') {
            return Ok(Next::Ended(Term::App(NIL, Terms::new(alloc))));
        }
        self.open_list(alloc)
    }

    /// Opens a list.
    fn open_list(&mut self, alloc: Global) -> Result<Next, Stop>
        ensures goes { (place : List ℕ → ℕ) (ts : List tokens.Token) → Goes place (wants place (elements (before_of self.old) ∷ opens_of self.old) [] ts) result self.new ts }
        ensures left { (ts : List tokens.Token) → IfOk result (λ next. left next ts ≤ length ts + 1) }
    {
        let before = self.replaced(Vec::new(alloc));
        self.open(Bracket::Elements(before))?;
        Ok(Next::Wanted)
    }

    /// Begins the arguments of a name, or ends it where it has none.
    fn named(&mut self, alloc: Global, name: NameId, cursor: &mut Cursor<'_>) -> Result<Next, Stop>
        ensures goes { (place : List ℕ → ℕ) → Goes place (named place (opens_of self.old) (before_of self.old) name cursor.old) result self.new cursor.new }
        ensures left { IfOk result (λ next. left next cursor.new ≤ length cursor.old + 1) }
    {
        if cursor.takes(b'(') {
            return self.open_call(alloc, name);
        }
        constant(alloc, name)
    }

    /// Opens the arguments of a name.
    fn open_call(&mut self, alloc: Global, name: NameId) -> Result<Next, Stop>
        ensures goes { (place : List ℕ → ℕ) (ts : List tokens.Token) → Goes place (wants place (call name (before_of self.old) ∷ opens_of self.old) [] ts) result self.new ts }
        ensures left { (ts : List tokens.Token) → IfOk result (λ next. left next ts ≤ length ts + 1) }
    {
        let before = self.replaced(Vec::new(alloc));
        self.open(Bracket::Call(name, before))?;
        Ok(Next::Wanted)
    }
}

/// Ends a name without arguments.
fn constant(alloc: Global, name: NameId) -> Result<Next, Stop>
    ensures goes { (place : List ℕ → ℕ) (levels : Levels) (ts : List tokens.Token) → Goes place (ends place (opens_of levels) (before_of levels) (spec.called name []) ts) result levels ts }
    ensures left { (ts : List tokens.Token) → IfOk result (λ next. left next ts ≤ length ts + 1) }
{
    let term = called(alloc, name, Vec::new(alloc))?;
    ended(term)
}
