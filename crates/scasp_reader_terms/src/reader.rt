//! What a reader knows, and its smallest steps.
ghost use Rattle.std.specs.Prelude.{◌≡◌, ◌<◌, [], length, option_copied};
ghost use Rattle.scasp_reader_terms.specs.Faults.{fault_at};
ghost use Rattle.scasp_reader_terms.specs.Steps.{start, set_list, place_of, token_of, noted, told, kind_of_sign, unexpected_fault, behind, note_if, is_sign, taken, expect, Does};
ghost use Rattle.scasp_reader_terms.specs.Names.{interned, known_variable, put_variable, new_variable, variable_at, has_own_number};

use crate::fault::{Count, Fault, Kind, Stop};
use scasp_list::Sequence;
use scasp_name::{NameId, Names};
use scasp_reader_tokens::{Placed, Sign, Text, Token};
use std::alloc::Global;
use std::marker::Model;

/// The most variables that a clause or a query may have.
pub const VARIABLE_LIMIT: usize = 64;

/// The numbers that variables get: as many past the limit as make any item with them too long. All
/// variables past these share the last one, so that no text makes a long table.
pub const NUMBER_LIMIT: usize = 128;

/// A reader of tokens.
#[derive(Drop)]
pub struct Reader<'a> {
    rest: &'a [Placed],
    is_behind_operand: bool,
    is_in_list: bool,
    names: Names,
    variables: Sequence<Text>,
    fault: Option<Fault>,
}

impl<'a> Model for Reader<'a> {
    ghost use Rattle.scasp_reader_terms.specs.Steps.{State};

    ghost Value = { State };

    ghost view = { λ r. record { tokens = r.rest.now; is_behind_operand = r.is_behind_operand; is_in_list = r.is_in_list; names = r.names; variables = r.variables; fault = r.fault } };
}

impl<'a> Reader<'a> {
    /// A reader of the tokens, which has read nothing.
    pub fn new(alloc: Global, tokens: &'a [Placed], names: Names) -> Reader<'a>
        ensures { result ≡ start tokens.now names }
    {
        Reader {
            rest: tokens,
            is_behind_operand: false,
            is_in_list: false,
            names,
            variables: Sequence::new(alloc),
            fault: None,
        }
    }

    /// The table of names.
    pub fn into_names(self) -> Names
        ensures { result ≡ self.entry.names }
    {
        let Reader {
            rest: _,
            is_behind_operand: _,
            is_in_list: _,
            names,
            variables: _,
            fault: _,
        } = self;
        names
    }

    /// The fault to tell, of those noted.
    pub fn fault(&self) -> Option<Fault>
        ensures { result ≡ self.now.fault }
    {
        self.fault
    }

    /// The number of tokens that are left.
    pub fn left(&self) -> usize
        ensures { result ≡ length self.now.tokens }
    {
        self.rest.len()
    }

    /// The tokens that are left, the next one first.
    pub fn tokens(&self) -> &'a [Placed]
        ensures { result.now ≡ self.now.tokens }
    {
        self.rest
    }

    /// The texts of the clause's variables, by their numbers.
    pub fn variables(&self) -> &[Text]
        ensures { result.now ≡ self.now.variables }
    {
        self.variables.as_slice()
    }

    /// Begins another clause, which has no variables yet.
    pub fn forget_variables(&mut self)
        ensures { self.new ≡ record self.old { variables = [] } }
    {
        self.variables = Sequence::new(self.variables.allocator());
    }

    /// Sets whether the innermost open bracket is that of a list, and tells whether it was.
    pub fn set_list(&mut self, is_list: bool) -> bool
        ensures was { result ≡ self.old.is_in_list }
        ensures step { set_list is_list self.old ≡ Ok (tt, self.new) }
    {
        let outer = self.is_in_list;
        self.is_in_list = is_list;
        outer
    }

    /// The place of the next token.
    pub fn at(&self) -> u64
        ensures { result ≡ place_of self.now.tokens }
    {
        match self.rest.first() {
            Some(placed) => placed.at,
            None => 0,
        }
    }

    /// The next token, which is not taken.
    pub fn token(&self) -> Option<&'a Token>
        ensures { option_copied result ≡ token_of self.now.tokens }
    {
        match self.rest.first() {
            Some(placed) => Some(&placed.token),
            None => None,
        }
    }

    /// Notes a fault; reading goes on.
    pub fn note(&mut self, at: u64, kind: Kind)
        ensures { self.new ≡ noted (fault_at at kind) self.old }
    {
        let fault = self.told(at, kind);
        self.fault = Some(fault);
    }

    /// The fault that is told where reading stops by this one.
    pub fn told(&self, at: u64, kind: Kind) -> Fault
        ensures { result ≡ told at kind self.now }
    {
        let fault = Fault { at, kind };
        match self.fault {
            Some(noted) => noted.or(fault),
            None => fault,
        }
    }

    /// The fault of a next token that cannot stand where it is.
    pub fn unexpected(&self) -> Fault
        ensures { result ≡ unexpected_fault self.now }
    {
        let kind = match self.token() {
            Some(Token::Sign(sign)) => self.kind_of_sign(*sign),
            Some(Token::Name(text)) if self.is_behind_operand && text.as_str() == "is" => {
                Kind::Unsupported
            }
            Some(Token::BadByte) => Kind::BadByte,
            Some(Token::Unclosed) => Kind::Unclosed,
            Some(
                Token::Name(_)
                | Token::Not
                | Token::Variable(_)
                | Token::Number(_)
                | Token::Abducible
                | Token::SkippedDirective
                | Token::UnclosedDirective
                | Token::OtherDirective
                | Token::End,
            )
            | None => Kind::Expected,
        };
        self.told(self.at(), kind)
    }

    fn kind_of_sign(&self, sign: Sign) -> Kind
        ensures { result ≡ kind_of_sign self.now.is_in_list sign }
    {
        match sign {
            Sign::Foreign => Kind::Unsupported,
            Sign::Bar if !self.is_in_list => Kind::Unsupported,
            Sign::Open
            | Sign::Close
            | Sign::OpenList
            | Sign::CloseList
            | Sign::Comma
            | Sign::Bar
            | Sign::Plus
            | Sign::Minus
            | Sign::Times
            | Sign::Over
            | Sign::If
            | Sign::Query
            | Sign::Equal
            | Sign::Differ
            | Sign::Stop
            | Sign::Relation(_, _) => Kind::Expected,
        }
    }

    /// Takes the next token.
    pub fn take(&mut self)
        ensures { self.new ≡ behind self.old }
    {
        self.is_behind_operand = match self.token() {
            Some(Token::Name(_) | Token::Variable(_) | Token::Number(_)) => true,
            Some(Token::Sign(sign)) => matches!(sign, Sign::Close | Sign::CloseList),
            Some(
                Token::Not
                | Token::Abducible
                | Token::SkippedDirective
                | Token::UnclosedDirective
                | Token::OtherDirective
                | Token::BadByte
                | Token::Unclosed
                | Token::End,
            )
            | None => false,
        };
        self.rest = match self.rest {
            [_, rest @ ..] => rest,
            [] => &[],
        };
    }

    /// Notes the fault where there is one; reading goes on.
    pub fn note_if(&mut self, test: bool, at: u64, kind: Kind)
        ensures { note_if test at kind self.old ≡ Ok (tt, self.new) }
    {
        if test {
            self.note(at, kind);
        }
    }

    /// Whether the sign is the next token.
    pub fn is_sign(&self, sign: Sign) -> bool
        ensures { result ≡ is_sign sign (token_of self.now.tokens) }
    {
        if let Some(Token::Sign(next)) = self.token() {
            sign == *next
        } else {
            false
        }
    }

    /// Takes the sign where it is the next token, and tells whether it was.
    pub fn taken(&mut self, sign: Sign) -> bool
        ensures { taken sign self.old ≡ Ok (result, self.new) }
    {
        let is_next = self.is_sign(sign);
        if is_next {
            self.take();
        }
        is_next
    }

    /// Takes the sign, which must be the next token.
    pub fn expect(&mut self, sign: Sign) -> Result<(), Stop>
        ensures { Does (λ x. x) (expect sign) self.old result self.new }
    {
        if !self.is_sign(sign) {
            return Err(Stop::At(self.unexpected()));
        }
        self.take();
        Ok(())
    }

    /// The name of the text, which the table gets where it lacks it.
    pub fn interned(&mut self, text: &str) -> Result<NameId, Stop>
        ensures { Does (λ x. x) (interned text.now) self.old result self.new }
    {
        let name = self.names.intern(text)?;
        let _ = self.names.len();
        Ok(name)
    }

    /// The number of a variable that the clause has had.
    pub fn known_variable(&self, text: &str) -> Option<usize>
        ensures { result ≡ known_variable text.now self.now.variables }
    {
        if text == "_" {
            return None;
        }
        let variables = self.variables.as_slice();
        for (number, known) in variables.iter().enumerate() {
            if text == known.as_str() {
                return Some(number);
            }
        }
        None
    }

    /// The number of the variable that stands at this place.
    pub fn variable_at(&mut self, alloc: Global, at: u64, text: &str) -> Result<u64, Stop>
        ensures { Does (λ x. x) (variable_at at text.now) self.old result self.new }
    {
        match self.known_variable(text) {
            Some(x) => Ok(x as u64),
            None => self.new_variable(alloc, at, text),
        }
    }

    fn new_variable(&mut self, alloc: Global, at: u64, text: &str) -> Result<u64, Stop>
        ensures { Does (λ x. x) (new_variable at text.now) self.old result self.new }
    {
        let number = self.variables.len();
        self.note_if(number >= VARIABLE_LIMIT, at, Kind::Limit(Count::Variables));
        self.put_variable(alloc, number, text)
    }

    /// The next variable, where the clause has had so many; or the last number that there is.
    fn put_variable(&mut self, alloc: Global, number: usize, text: &str) -> Result<u64, Stop>
        ensures { Does (λ x. x) (put_variable number text.now) self.old result self.new }
    {
        if number >= NUMBER_LIMIT {
            return Ok(NUMBER_LIMIT as u64 - 1);
        }
        let variable = Text::from_str(alloc, text)?;
        self.variables.push(variable)?;
        Ok(number as u64)
    }

    /// Whether one variable alone has this number.
    pub fn has_own_number(&self, x: u64) -> bool
        ensures { result ≡ has_own_number x self.now.fault }
    {
        self.fault.is_none() || x < NUMBER_LIMIT as u64 - 1
    }
}
