//! Numbers as terms.
ghost use Rattle.std.specs.Prelude.{◌≡◌, false};
ghost use Rattle.scasp_syntax.specs.View.{tm_of};
ghost use Rattle.scasp_reader_terms.specs.Steps.{Does};
ghost use Rattle.scasp_reader_terms.specs.Constants.{noted_number, number, is_zero_number, quotient_at, divided, number_term, constant};

use crate::fault::{Kind, Stop};
use crate::reader::Reader;
use scasp_name::NIL;
use scasp_num::Rat;
use scasp_reader_tokens::{Sign, Token};
use scasp_syntax::{Term, Terms};
use std::alloc::Global;

fn is_zero_number(number: &Option<Rat>) -> bool
    ensures { result ≡ is_zero_number number.now }
{
    match number {
        Some(number) => number.num() == 0,
        None => false,
    }
}

/// The term of a number, or any for one that could not be made.
fn number_term(alloc: Global, minus: bool, number: Option<Rat>) -> Term
    ensures { tm_of result ≡ number_term minus number }
{
    match number {
        Some(number) if minus => Term::Num(number.neg()),
        Some(number) => Term::Num(number),
        None => Term::App(NIL, Terms::new(alloc)),
    }
}

impl Reader<'_> {
    /// A number, whose fault stands at this place.
    fn noted_number(&mut self, at: u64, number: Option<Rat>) -> Option<Rat>
        ensures { noted_number at number self.old ≡ Ok (result, self.new) }
    {
        self.note_if(number.is_none(), at, Kind::NumberTooLarge);
        number
    }

    /// The next token, which must be a number; none where it is too large.
    pub fn number(&mut self) -> Result<Option<Rat>, Stop>
        ensures { Does (λ x. x) number self.old result self.new }
    {
        let at = self.at();
        let Some(Token::Number(number)) = self.token() else {
            return Err(Stop::At(self.unexpected()));
        };
        self.take();
        Ok(self.noted_number(at, *number))
    }

    /// The quotient, whose sign stands at this place.
    fn quotient_at(&mut self, at: u64, p: Option<Rat>, q: Option<Rat>) -> Option<Rat>
        requires { is_zero_number q ≡ false }
        ensures { quotient_at at p q self.old ≡ Ok (result, self.new) }
    {
        let (Some(p), Some(q)) = (p, q) else {
            return None;
        };
        self.noted_number(at, p.div(&q).ok())
    }

    /// The number behind the `/` at this place divides the number before it.
    fn divided(&mut self, at: u64, p: Option<Rat>) -> Result<Option<Rat>, Stop>
        ensures { Does (λ x. x) (divided at p) self.old result self.new }
    {
        let divisor = self.at();
        let q = self.number()?;
        if is_zero_number(&q) {
            return Err(Stop::At(self.told(divisor, Kind::Expected)));
        }
        Ok(self.quotient_at(at, p, q))
    }

    /// `["-"] number ["/" number]`
    pub fn constant(&mut self, alloc: Global) -> Result<Term, Stop>
        ensures { Does tm_of constant self.old result self.new }
    {
        let minus = self.taken(Sign::Minus);
        let p = self.number()?;
        let at = self.at();
        let q = if self.taken(Sign::Over) {
            self.divided(at, p)?
        } else {
            p
        };
        Ok(number_term(alloc, minus, q))
    }
}
