//! Terms.
ghost use Rattle.std.specs.Prelude.{◌≡◌, ◌&&◌, nat_le, map, IfOk};
ghost use Rattle.scasp_syntax.specs.Tm.{listed};
ghost use Rattle.scasp_syntax.specs.View.{tm_of};
ghost use Rattle.scasp_reader_terms.specs.Steps.{Does, place_of, told};
ghost use Rattle.scasp_reader_terms.specs.Terms.{one_more, several, arguments, arguments_in, compound, list_of, list_in, elements_if, variable_term, term_at_sign, term, below};
ghost use Rattle.scasp_reader_terms.specs.declared.fault.Count.TheVariants as count;
ghost use Rattle.scasp_reader_terms.specs.declared.fault.Kind.TheVariants as kind;

use crate::fault::{Count, Fault, Kind, Stop};
use crate::reader::Reader;
use scasp_list::Memory;
use scasp_name::{NIL, PAIR};
use scasp_reader_tokens::{Sign, Token};
use scasp_syntax::{Term, Terms};
use std::alloc::Global;

/// The most arguments that a name may have.
pub const ARITY_LIMIT: usize = 32;

/// The terms as arguments.
pub fn arguments_of(alloc: Global, terms: Vec<Term>) -> Result<Terms, Memory>
    ensures { IfOk result (λ ts. ts ≡ listed (map tm_of terms.items)) }
{
    let mut arguments = Terms::new(alloc);
    for term in terms {
        arguments.push(term)?;
    }
    Ok(arguments)
}

/// The list of the terms, with a tail behind them.
fn list_of(alloc: Global, mut terms: Vec<Term>, tail: Term) -> Result<Term, Memory>
    ensures { IfOk result (λ t. tm_of t ≡ list_of (map tm_of terms.items) (tm_of tail)) }
{
    let mut list = tail;
    while let Some(term) = terms.pop() {
        let mut parts = Terms::new(alloc);
        parts.push(term)?;
        parts.push(list)?;
        list = Term::App(PAIR, parts);
    }
    Ok(list)
}

/// Whether there may be no argument more behind so many.
fn is_full(are_arguments: bool, number: usize) -> bool
    ensures { result ≡ (are_arguments && nat_le ARITY_LIMIT number) }
{
    are_arguments && number >= ARITY_LIMIT
}

impl Reader<'_> {
    /// A term, where `room` brackets may be opened inside one another.
    #[cycle(term)]
    pub fn term(&mut self, alloc: Global, room: u64) -> Result<Term, Stop>
        ensures { Does tm_of (term room) self.old result self.new }
    {
        let Some(token) = self.token() else {
            return Err(Stop::At(self.unexpected()));
        };
        match token {
            Token::Variable(text) => self.variable_term(alloc, text.as_str()),
            Token::Number(_) => self.constant(alloc),
            Token::Name(text) => self.compound(alloc, room, text.as_str()),
            Token::Sign(sign) => self.term_at_sign(alloc, room, *sign),
            Token::Not
            | Token::Abducible
            | Token::SkippedDirective
            | Token::UnclosedDirective
            | Token::OtherDirective
            | Token::BadByte
            | Token::Unclosed
            | Token::End => Err(Stop::At(self.unexpected())),
        }
    }

    #[cycle(term)]
    fn term_at_sign(&mut self, alloc: Global, room: u64, sign: Sign) -> Result<Term, Stop>
        ensures { Does tm_of (term_at_sign (below term room) sign) self.old result self.new }
    {
        match sign {
            Sign::Minus => self.constant(alloc),
            Sign::OpenList if room == 0 => Err(Stop::At(self.too_deep())),
            Sign::OpenList => self.list(alloc, room - 1),
            Sign::Open
            | Sign::Close
            | Sign::CloseList
            | Sign::Comma
            | Sign::Bar
            | Sign::Plus
            | Sign::Times
            | Sign::Over
            | Sign::If
            | Sign::Query
            | Sign::Equal
            | Sign::Differ
            | Sign::Stop
            | Sign::Relation(_, _)
            | Sign::Foreign => Err(Stop::At(self.unexpected())),
        }
    }

    /// The fault of a bracket that may not be opened here.
    fn too_deep(&self) -> Fault
        ensures { result ≡ told (place_of self.now.tokens) (kind.Limit count.Depth) self.now }
    {
        self.told(self.at(), Kind::Limit(Count::Depth))
    }

    fn variable_term(&mut self, alloc: Global, text: &str) -> Result<Term, Stop>
        ensures { Does tm_of (variable_term (place_of self.old.tokens) text.now) self.old result self.new }
    {
        let at = self.at();
        self.take();
        let x = self.variable_at(alloc, at, text)?;
        Ok(Term::Var(x))
    }

    /// `name ["(" term {"," term} ")"]`
    #[cycle(term)]
    fn compound(&mut self, alloc: Global, room: u64, text: &str) -> Result<Term, Stop>
        ensures { Does tm_of (compound (below term room) text.now) self.old result self.new }
    {
        self.take();
        let name = self.interned(text)?;
        let terms = self.arguments(alloc, room)?;
        let arguments = arguments_of(alloc, terms)?;
        Ok(Term::App(name, arguments))
    }

    /// `["(" term {"," term} ")"]`, where `room` brackets may be opened inside one another.
    #[cycle(term)]
    pub fn arguments(&mut self, alloc: Global, room: u64) -> Result<Vec<Term>, Stop>
        ensures { Does (λ v. map tm_of v.items) (arguments (below term room)) self.old result self.new }
    {
        if !self.is_sign(Sign::Open) {
            return Ok(Vec::new(alloc));
        }
        if room == 0 {
            return Err(Stop::At(self.too_deep()));
        }
        self.arguments_in(alloc, room - 1)
    }

    /// `"(" term {"," term} ")"`
    #[cycle(term)]
    fn arguments_in(&mut self, alloc: Global, room: u64) -> Result<Vec<Term>, Stop>
        ensures { Does (λ v. map tm_of v.items) (arguments_in (term room)) self.old result self.new }
    {
        self.expect(Sign::Open)?;
        let outer = self.set_list(false);
        let terms = self.several(alloc, room, true)?;
        self.expect(Sign::Close)?;
        self.set_list(outer);
        Ok(terms)
    }

    /// `"[" "]" | "[" term {"," term} ["|" term] "]"`
    #[cycle(term)]
    fn list(&mut self, alloc: Global, room: u64) -> Result<Term, Stop>
        ensures { Does tm_of (list_in (term room)) self.old result self.new }
    {
        self.expect(Sign::OpenList)?;
        let outer = self.set_list(true);
        let list = self.elements(alloc, room)?;
        self.expect(Sign::CloseList)?;
        self.set_list(outer);
        Ok(list)
    }

    /// What stands in the brackets of a list.
    #[cycle(term)]
    fn elements(&mut self, alloc: Global, room: u64) -> Result<Term, Stop>
        ensures { Does tm_of (elements_if (term room)) self.old result self.new }
    {
        let nil = Term::App(NIL, Terms::new(alloc));
        if self.is_sign(Sign::CloseList) {
            return Ok(nil);
        }
        let terms = self.several(alloc, room, false)?;
        let tail = if self.taken(Sign::Bar) {
            self.term(alloc, room)?
        } else {
            nil
        };
        let list = list_of(alloc, terms, tail)?;
        Ok(list)
    }

    /// `term {"," term}`
    #[cycle(term)]
    fn several(&mut self, alloc: Global, room: u64, are_arguments: bool) -> Result<Vec<Term>, Stop>
        ensures { Does (λ v. map tm_of v.items) (several are_arguments (term room)) self.old result self.new }
    {
        let mut terms = Vec::new(alloc);
        let mut left = self.left();
        while left > 0 {
            let term = self.one_more(alloc, room, are_arguments, terms.len())?;
            terms.push(term)?;
            if !self.taken(Sign::Comma) {
                return Ok(terms);
            }
            left -= 1;
        }
        Err(Stop::At(self.unexpected()))
    }

    /// One more term behind so many.
    #[cycle(term)]
    fn one_more(
        &mut self,
        alloc: Global,
        room: u64,
        are_arguments: bool,
        number: usize,
    ) -> Result<Term, Stop>
        ensures { Does tm_of (one_more are_arguments number (term room)) self.old result self.new }
    {
        let at = self.at();
        self.note_if(
            is_full(are_arguments, number),
            at,
            Kind::Limit(Count::Arity),
        );
        self.term(alloc, room)
    }
}
