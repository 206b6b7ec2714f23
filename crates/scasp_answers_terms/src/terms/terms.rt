//! Terms with commas between them, in one loop over their tokens.
ghost use Rattle.std.specs.Prelude.{◌≡◌, ◌≤◌, ◌+◌, ℕ, List, map, length, IfOk, false};
ghost use Rattle.scasp_reader_terms.specs.Names.{place_in};
ghost use Rattle.scasp_syntax.specs.View.{tm_of};
ghost use Rattle.scasp_answers_terms.specs.Tokens.Terms.{terms_at, term_at, listed_until, elements_at, list_at};
ghost use Rattle.scasp_answers_terms.specs.Tokens.View.{Reads};
ghost use Rattle.scasp_answers_terms.specs.Terms.Levels.{opens_of, before_of, goes, is_done, left, Goes};

use crate::terms::levels::{Levels, Next};
use crate::tokens::{Cursor, Stop, Token};
use scasp_name::Names;
use scasp_reader_terms::arguments_of;
use scasp_syntax::{Term, Terms};
use std::alloc::Global;

impl Next {
    fn is_done(&self) -> bool
        ensures { result ≡ is_done self.now }
    {
        match self {
            Next::Wanted | Next::Ended(_) => false,
            Next::Done => true,
        }
    }
}

impl Levels {
    /// One step on.
    fn step(
        &mut self,
        alloc: Global,
        next: Next,
        cursor: &mut Cursor<'_>,
        names: &Names,
    ) -> Result<Next, Stop>
        requires { is_done next ≡ false }
        ensures goes { Goes (place_in names.now) (goes (place_in names.now) next (opens_of self.old) (before_of self.old) cursor.old) result self.new cursor.new }
        ensures left { IfOk result (λ then. left then cursor.new ≤ length cursor.old) }
    {
        match next {
            Next::Wanted => self.begin(alloc, cursor, names),
            Next::Ended(term) => self.end(alloc, term, cursor),
            Next::Done => unreachable!(),
        }
    }
}

/// Takes one term or more, with commas between them.
#[tactic(auto, unfolding(crate::specs::Tokens::Terms::terms_at))]
pub fn terms(alloc: Global, cursor: &mut Cursor<'_>, names: &Names) -> Result<Vec<Term>, Stop>
    ensures { Reads (λ v. map tm_of v.items) (terms_at (place_in names.now) cursor.old) result cursor.new }
{
    let mut levels = Levels::new(alloc);
    let mut next = Next::Wanted;
    while !next.is_done() {
        next = levels.step(alloc, next, cursor, names)?;
    }
    Ok(levels.before)
}

/// Takes a term.
pub fn term(alloc: Global, cursor: &mut Cursor<'_>, names: &Names) -> Result<Term, Stop>
    ensures { Reads tm_of (term_at (place_in names.now) cursor.old) result cursor.new }
{
    let mut terms = terms(alloc, cursor, names)?;
    match terms.pop() {
        Some(term) if terms.is_empty() => Ok(term),
        _ => Err(Stop::NoForm),
    }
}

/// Takes one term or more, and the text behind them.
pub fn listed_until(
    alloc: Global,
    text: &[u8],
    cursor: &mut Cursor<'_>,
    names: &Names,
) -> Result<Terms, Stop>
    ensures { Reads (λ ts. ts) (listed_until text.now (place_in names.now) cursor.old) result cursor.new }
{
    let terms = terms(alloc, cursor, names)?;
    cursor.expect(text)?;
    let listed = arguments_of(alloc, terms)?;
    Ok(listed)
}

/// Takes what stands behind the open bracket of a list of terms.
fn elements(alloc: Global, cursor: &mut Cursor<'_>, names: &Names) -> Result<Terms, Stop>
    ensures { Reads (λ ts. ts) (elements_at (place_in names.now) cursor.old) result cursor.new }
{
    if cursor.takes(b']') {
        return Ok(Terms::new(alloc));
    }
    listed_until(alloc, b"]", cursor, names)
}

/// Takes a list of terms in brackets.
pub fn list(alloc: Global, cursor: &mut Cursor<'_>, names: &Names) -> Result<Terms, Stop>
    ensures { Reads (λ ts. ts) (list_at (place_in names.now) cursor.old) result cursor.new }
{
    cursor.expect(b"[")?;
    elements(alloc, cursor, names)
}
