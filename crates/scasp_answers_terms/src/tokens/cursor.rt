//! The tokens of a line, one after the other.
ghost use Rattle.std.specs.Prelude.{◌≡◌, ◌<◌, ◌≤◌, ◌∷◌, [], drop, length, true, false, IfOk, IfSome, IfNone, None};
ghost use Rattle.std.specs.Option.{option_map};
ghost use Rattle.scasp_answers_terms.specs.Tokens.Tokens as spec;
ghost use Rattle.scasp_answers_terms.specs.Tokens.Readers.{number_at, past, past_text};
ghost use Rattle.scasp_answers_terms.specs.Tokens.View.{token_of, first_token, is_over, texts_of, Passes, Reads, Shifts, Takes};

use crate::tokens::front::{front_at, is_sign, text_front};
use crate::tokens::same::is_same;
use crate::tokens::stop::Stop;
use crate::tokens::token::Token;
use std::marker::Model;

/// The tokens that are left of a line. Each is made from its bytes where it is asked for.
#[derive(Drop)]
pub struct Cursor<'a> {
    rest: &'a [u8],
}

impl<'a> Model for Cursor<'a> {
    ghost use Rattle.std.specs.Prelude.{List};
    ghost use Rattle.scasp_answers_terms.specs.Tokens.Tokens.{Token, tokens_in};

    ghost Value = { List Token };

    ghost view = { λ c. tokens_in c.rest.now };
}

impl<'a> Cursor<'a> {
    /// The tokens of the bytes.
    pub fn new(bytes: &'a [u8]) -> Cursor<'a>
        ensures { result ≡ spec.tokens_in bytes.now }
    {
        Cursor { rest: bytes }
    }

    /// The same tokens once more.
    pub fn again(&self) -> Cursor<'a>
        ensures { result ≡ self.now }
    {
        Cursor { rest: self.rest }
    }

    /// Whether no token is left.
    #[tactic(auto, unfolding(crate::specs::Tokens::Tokens::tokens_in))]
    pub fn is_over(&self) -> bool
        ensures { result ≡ is_over self.now }
    {
        match self.rest {
            [] => true,
            [_, ..] => false,
        }
    }

    /// The next token, which is not taken.
    pub fn next(&self) -> Option<Token<'a>>
        ensures { option_map token_of result ≡ first_token self.now }
    {
        match self.rest {
            [] => None,
            [first, behind @ ..] => Some(front_at(*first, behind, self.rest).token),
        }
    }

    /// Takes the next token, and gives it.
    pub fn pop(&mut self) -> Option<Token<'a>>
        ensures token { option_map token_of result ≡ first_token self.old }
        ensures rest { self.new ≡ drop 1 self.old }
    {
        let rest = self.rest;
        match rest {
            [] => None,
            [first, behind @ ..] => {
                let front = front_at(*first, behind, rest);
                self.rest = &rest[front.more + 1..];
                Some(front.token)
            }
        }
    }

    /// Takes the tokens up to the next text that may be a name, and gives it, where there is one.
    pub fn pop_text(&mut self) -> Option<Token<'a>>
        ensures some { IfSome result (λ text. texts_of self.old ≡ token_of text ∷ texts_of self.new) }
        ensures none { IfNone result (texts_of self.old ≡ []) }
    {
        let mut left = self.rest;
        while let [first, behind @ ..] = left {
            let (text, rest) = text_front(*first, behind, left);
            left = rest;
            if text.is_some() {
                self.rest = left;
                return text;
            }
        }
        None
    }

    /// Takes the next token.
    pub fn take(&mut self)
        ensures { self.new ≡ drop 1 self.old }
    {
        let _token = self.pop();
    }

    /// Takes the next token where it is this byte, and tells whether it was. Only a token of one byte begins with it.
    #[tactic(auto, unfolding(crate::specs::Tokens::Tokens::tokens_in))]
    pub fn takes(&mut self, byte: u8) -> bool
        requires { spec.is_sign byte ≡ true }
        ensures { Shifts result (spec.sign_token byte) self.old self.new }
    {
        match self.rest {
            [first, behind @ ..] if *first == byte => {
                self.rest = behind;
                true
            }
            _ => false,
        }
    }

    /// Takes the next token where it is this one, and tells whether it was.
    pub fn taken(&mut self, token: Token<'_>) -> bool
        ensures passes { Passes result (past (token_of token.entry ∷ []) self.old) self.new }
        ensures kept { result ≡ false → self.new ≡ self.old }
        ensures no_longer { length self.new ≤ length self.old }
    {
        let mut behind = self.again();
        match behind.pop() {
            None => false,
            Some(next) if is_same(token, next) => {
                *self = behind;
                true
            }
            Some(_) => false,
        }
    }

    /// Takes the first token of the text where it is next, and gives what stands behind it in the text. The text is this
    /// byte, and these behind it.
    fn past_token<'b>(&mut self, first: u8, behind: &'b [u8], text: &'b [u8]) -> Option<&'b [u8]>
        requires { text.now ≡ first ∷ behind.now }
        ensures some { IfSome result (λ rest. past_text text.now self.old ≡ past_text rest.now self.new) }
        ensures none { IfNone result (past_text text.now self.old ≡ None) }
        ensures shorter { IfSome result (λ rest. length rest.now < length text.now) }
        ensures no_longer { length self.new ≤ length self.old }
    {
        let front = front_at(first, behind, text);
        if self.taken(front.token) {
            Some(&text[front.more + 1..])
        } else {
            None
        }
    }

    /// The same where the first token is this byte.
    fn past_sign<'b>(&mut self, first: u8, behind: &'b [u8], text: &'b [u8]) -> Option<&'b [u8]>
        requires text { text.now ≡ first ∷ behind.now }
        requires sign { spec.is_sign first ≡ true }
        ensures some { IfSome result (λ rest. past_text text.now self.old ≡ past_text rest.now self.new) }
        ensures none { IfNone result (past_text text.now self.old ≡ None) }
        ensures shorter { IfSome result (λ rest. length rest.now < length text.now) }
        ensures no_longer { length self.new ≤ length self.old }
    {
        if self.takes(first) {
            Some(behind)
        } else {
            self.past_token(first, behind, text)
        }
    }

    /// Takes the first token of the text where it is next, and gives what stands behind it in the text.
    fn past_one<'b>(&mut self, first: u8, behind: &'b [u8], text: &'b [u8]) -> Option<&'b [u8]>
        requires { text.now ≡ first ∷ behind.now }
        ensures some { IfSome result (λ rest. past_text text.now self.old ≡ past_text rest.now self.new) }
        ensures none { IfNone result (past_text text.now self.old ≡ None) }
        ensures shorter { IfSome result (λ rest. length rest.now < length text.now) }
        ensures no_longer { length self.new ≤ length self.old }
    {
        if is_sign(first) {
            self.past_sign(first, behind, text)
        } else {
            self.past_token(first, behind, text)
        }
    }

    /// Takes the tokens of the text where they are next, and tells whether they were. Where they were not, some of
    /// them may have been taken.
    fn past(&mut self, text: &[u8]) -> bool
        ensures passes { Passes result (past_text text.now self.old) self.new }
        ensures no_longer { length self.new ≤ length self.old }
    {
        let mut left = text;
        while let [first, behind @ ..] = left {
            match self.past_one(*first, behind, left) {
                None => return false,
                Some(rest) => left = rest,
            }
        }
        true
    }

    /// Takes the tokens of the text where they are next, and tells whether they were.
    pub fn skips(&mut self, text: &[u8]) -> bool
        ensures passes { Passes result (past_text text.now self.old) self.new }
        ensures kept { result ≡ false → self.new ≡ self.old }
    {
        let mut ahead = self.again();
        let is_there = ahead.past(text);
        if is_there {
            *self = ahead;
        }
        is_there
    }

    /// Takes the tokens of the text, which must be next.
    pub fn expect(&mut self, text: &[u8]) -> Result<(), Stop>
        ensures takes { Takes (past_text text.now self.old) result self.new }
        ensures no_longer { length self.new ≤ length self.old }
    {
        if self.past(text) {
            Ok(())
        } else {
            Err(Stop::NoForm)
        }
    }

    /// Takes a number, which must be next.
    pub fn number(&mut self) -> Result<u128, Stop>
        ensures reads { Reads (λ n. n) (number_at self.old) result self.new }
        ensures shorter { IfOk result (λ n. length self.new < length self.old) }
    {
        let Some(Token::Digits(number)) = self.pop() else {
            return Err(Stop::NoForm);
        };
        Ok(number)
    }
}
