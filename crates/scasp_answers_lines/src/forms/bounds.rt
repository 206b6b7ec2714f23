//! Whether the numbers of a line fit.
ghost use Rattle.std.specs.Prelude.{◌≡◌, ◌&&◌, IfOk};
ghost use Rattle.std.specs.List.{list_all};
ghost use Rattle.scasp_num.specs.Arithmetic.{in_range};
ghost use Rattle.scasp_syntax.specs.View.{tm_of};
ghost use Rattle.scasp_answers_terms.specs.Tokens.Bounds as spec;
ghost use Rattle.scasp_answers_lines.specs.Forms.View.{line_of};

use crate::forms::line::Line;
use scasp_answers_terms::{is_count, is_place};
use scasp_list::Memory;
use scasp_num::{Coeff, Rat, Row, Step, Steps};
use scasp_syntax::{Con, Hint, Term, Terms};
use std::alloc::Global;

/// Whether the number of a variable, a line, a rule or a level fits.
fn is_narrow(number: u64) -> bool
    ensures { result ≡ spec.is_place number }
{
    number < 1 << 63
}

fn number_fits(number: &Rat) -> bool
    ensures { result ≡ (in_range number.now.num && in_range number.now.den) }
{
    let _num = number.num();
    let _den = number.den();
    true
}

/// Whether the numbers of these terms fit. It takes memory for the lists of terms that are still to be seen, and no
/// machine stack.
fn terms_fit(alloc: Global, terms: &Terms) -> Result<bool, Memory>
    ensures { IfOk result (λ fits. fits ≡ spec.terms_fit terms.now) }
{
    let mut unseen: Vec<&[Term]> = Vec::new(alloc);
    unseen.push(terms.as_slice())?;
    while let Some(list) = unseen.pop() {
        for term in list {
            match term {
                Term::Var(x) => {
                    if !is_narrow(*x) {
                        return Ok(false);
                    }
                }
                Term::Num(number) => {
                    if !number_fits(number) {
                        return Ok(false);
                    }
                }
                Term::App(_, args) => unseen.push(args.as_slice())?,
            }
        }
    }
    Ok(true)
}

fn term_fits(alloc: Global, term: &Term) -> Result<bool, Memory>
    ensures { IfOk result (λ fits. fits ≡ spec.term_fits (tm_of term.now)) }
{
    match term {
        Term::Var(x) => Ok(is_narrow(*x)),
        Term::Num(number) => Ok(number_fits(number)),
        Term::App(_, terms) => terms_fit(alloc, terms),
    }
}

fn both_fit(alloc: Global, first: &Term, second: &Term) -> Result<bool, Memory>
    ensures { IfOk result (λ fits. fits ≡ (spec.term_fits (tm_of first.now) && spec.term_fits (tm_of second.now))) }
{
    Ok(term_fits(alloc, first)? && term_fits(alloc, second)?)
}

fn integer_fits(value: i128) -> bool
    ensures { result ≡ in_range value }
{
    value != i128::MIN
}

fn coefficient_fits(k: Coeff) -> bool
    ensures { result ≡ (spec.is_place k.x && in_range k.c) }
{
    is_narrow(k.x) && integer_fits(k.c)
}

fn coefficients_fit(coeffs: &[Coeff]) -> bool
    ensures { result ≡ list_all (λ k. spec.is_place k.x && in_range k.c) coeffs.now }
{
    coeffs.iter().all(|k| coefficient_fits(*k))
}

fn row_fits(row: &Row) -> bool
    ensures { result ≡ spec.row_fits row.now }
{
    coefficients_fit(row.coeffs().as_slice()) && integer_fits(row.constant())
}

fn con_fits(alloc: Global, con: &Con) -> Result<bool, Memory>
    ensures { IfOk result (λ fits. fits ≡ spec.con_fits con.now) }
{
    match con {
        Con::Eq(first, second) => both_fit(alloc, first, second),
        Con::Neq(first, second) => both_fit(alloc, first, second),
        Con::NotShape(x, _, arity) => Ok(is_narrow(*x) && is_count(*arity as u128)),
        Con::Num(term) => term_fits(alloc, term),
        Con::NotNum(term) => term_fits(alloc, term),
        Con::Row(row) => Ok(row_fits(row)),
    }
}

fn step_fits(step: Step) -> bool
    ensures { result ≡ spec.step_fits step }
{
    integer_fits(step.a) && integer_fits(step.b)
}

fn steps_fit(steps: &[Step]) -> bool
    ensures { result ≡ list_all spec.step_fits steps.now }
{
    steps.iter().all(|s| step_fits(*s))
}

fn lists_fit(lists: &[Steps]) -> bool
    ensures { result ≡ list_all (list_all spec.step_fits) lists.now }
{
    lists.iter().all(|steps| steps_fit(steps.as_slice()))
}

fn hint_fits(hint: &Hint) -> bool
    ensures { result ≡ spec.hint_fits hint.now }
{
    match hint {
        Hint::Terms => true,
        Hint::Rows(steps) => steps_fit(steps.as_slice()),
        Hint::Same(number, lists) => is_count(*number as u128) && lists_fit(lists.as_slice()),
    }
}

/// Whether the numbers of the line fit.
#[tactic(auto, unfolding(scasp_answers_terms::specs::Tokens::Bounds::line_fits))]
pub fn fits(alloc: Global, line: &Line) -> Result<bool, Memory>
    ensures { IfOk result (λ fits. fits ≡ spec.line_fits (line_of line.now)) }
{
    match line {
        Line::Header(version) => Ok(is_count(*version)),
        Line::Ending(_, query) => Ok(is_count(*query)),
        Line::Rejected(query, answer, at, _) => {
            Ok(is_count(*query) && is_count(*answer) && is_place(*at))
        }
        Line::Answer(query, answer, terms) => {
            Ok(is_count(*query) && is_count(*answer) && terms_fit(alloc, terms)?)
        }
        Line::Given(con) => con_fits(alloc, con),
        Line::Sample(terms) => terms_fit(alloc, terms),
        Line::Check(clause) => Ok(is_count(*clause)),
        Line::Clash(clash) => {
            Ok(is_narrow(clash.first) && is_narrow(clash.second) && hint_fits(&clash.hint))
        }
        Line::Map(map) => Ok(is_count(map.pred.arity as u128) && is_narrow(map.level)),
        Line::Pos(atom, rule, terms) => {
            Ok(terms_fit(alloc, &atom.args)? && is_place(*rule) && terms_fit(alloc, terms)?)
        }
        Line::Neg(atom) => terms_fit(alloc, &atom.args),
        Line::Loop(lit, at) | Line::Seen(lit, at) => {
            Ok(terms_fit(alloc, &lit.atom.args)? && is_place(*at))
        }
        Line::Test(con, hint) => { Ok(con_fits(alloc, con)? && hint_fits(hint)) }
        Line::Rule(rule) => Ok(is_place(*rule)),
        Line::Split(con) => con_fits(alloc, con),
        Line::Void(hint) => Ok(hint_fits(hint)),
        Line::Leaf(item) => Ok(is_count(*item)),
        Line::Tree | Line::End | Line::Head => Ok(true),
    }
}
