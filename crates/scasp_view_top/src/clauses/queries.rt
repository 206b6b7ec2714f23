//! Queries with terms for their variables.
ghost use Rattle.std.specs.Prelude.{◌≡◌, ◌++◌, map, option_copied, IfOk, OnOk};
ghost use Rattle.scasp_cert.specs.Text.Terms.{term_text};
ghost use Rattle.scasp_syntax.specs.Tm.{items};
ghost use Rattle.scasp_syntax.specs.View.{tm_of};
ghost use Rattle.scasp_view_top.specs.Clauses.Queries as spec;

use scasp_list::{Memory, Sequence};
use scasp_name::Names;
use scasp_print::put_term;
use scasp_print_program::{Shown, VariableText, put_items};
use scasp_print_words::{put, put_number};
use scasp_syntax::{Program, Query, Term, Terms};
use std::alloc::Global;

/// The text of a term.
fn term_text(alloc: Global, names: &Names, term: &Term) -> Result<VariableText, Memory>
    ensures { IfOk result (λ text. text ≡ term_text names.now (tm_of term.now)) }
{
    let mut text = Vec::new(alloc);
    put_term(&mut text, names, term)?;
    Ok(VariableText::new(text))
}

/// The texts of terms.
fn term_texts(alloc: Global, names: &Names, terms: &Terms) -> Result<Sequence<VariableText>, Memory>
    ensures { IfOk result (λ texts. texts ≡ map (term_text names.now) (items terms.now)) }
{
    let mut texts = Sequence::new(alloc);
    for term in terms.as_slice() {
        texts.push(term_text(alloc, names, term)?)?;
    }
    Ok(texts)
}

/// Puts a query at the end, with terms for its variables.
fn put_asked(out: &mut Vec<u8>, names: &Names, query: &Query, terms: &Terms) -> Result<(), Memory>
    ensures { OnOk result (out.new.items ≡ out.old.items ++ spec.asked_text names.now query.now terms.now) }
{
    let texts = term_texts(*out.allocator(), names, terms)?;
    let shown = Shown::new(names, texts.as_slice());
    put(out, "?- ")?;
    put_items(out, &shown, &query.body)?;
    put(out, ".\n")
}

/// Puts the line of the query at the end, or says that there is none of this number.
fn put_line(
    out: &mut Vec<u8>,
    names: &Names,
    number: u64,
    query: Option<&Query>,
    terms: &Terms,
) -> Result<(), Memory>
    ensures { OnOk result (out.new.items ≡ out.old.items ++ spec.line_text names.now number (option_copied query.entry) terms.now) }
{
    match query {
        None => {
            put(out, "no query ")?;
            put_number(out, number)?;
            put(out, "\n")
        }
        Some(query) => put_asked(out, names, query, terms),
    }
}

/// The line of the query of this number, with terms for its variables.
///
/// # Errors
///
/// Want of memory.
pub fn query_line(
    alloc: Global,
    program: &Program,
    names: &Names,
    number: u64,
    terms: &Terms,
) -> Result<Vec<u8>, Memory>
    ensures { IfOk result (λ line. line.items ≡ spec.query_line program.now names.now number terms.now) }
{
    let mut line = Vec::new(alloc);
    put_line(&mut line, names, number, program.query(number), terms)?;
    Ok(line)
}
