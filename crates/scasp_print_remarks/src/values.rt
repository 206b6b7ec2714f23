//! What an answer says of the named variables of its query.
ghost use Rattle.std.specs.Prelude.{◌≡◌, ◌++◌, OnOk, IfOk, flat_map};
ghost use Rattle.scasp_cert.specs.Text.Terms.{term_text};
ghost use Rattle.scasp_print_remarks.specs.Remarks as spec;
ghost use Rattle.scasp_syntax.specs.Tm.{var};
ghost use Rattle.scasp_syntax.specs.Values.{under};
ghost use Rattle.scasp_syntax.specs.View.{tm_of, tms_of};
ghost use Rattle.scasp_unify.specs.Solving.{sub_of};

use crate::variables::push_variables;
use scasp_name::{Memory, NameId, Names};
use scasp_print::put_term;
use scasp_print_words::{put, text_at};
use scasp_search_terms::reading::read;
use scasp_syntax::{Term, VarList};
use scasp_unify::Binding;
use std::alloc::Global;

/// Puts the term with the numbers put in.
fn put_with(
    out: &mut Vec<u8>,
    names: &Names,
    numbers: &[Binding],
    term: &Term,
) -> Result<(), Memory>
    ensures { OnOk result (out.new.items ≡ out.old.items ++ term_text names.now (under (sub_of numbers.now) (tm_of term.now))) }
{
    let made = read(*out.allocator(), term, numbers)?;
    put_term(out, names, &made)
}

/// Puts the term as it stands, which is how no numbers make it.
#[tactic(auto, using(crate::proofs::PlainLemmas::plain_text))]
fn put_plain(out: &mut Vec<u8>, names: &Names, term: &Term) -> Result<(), Memory>
    ensures { OnOk result (out.new.items ≡ out.old.items ++ term_text names.now (under var (tm_of term.now))) }
{
    put_term(out, names, term)
}

/// Puts the term as it is told: without numbers to put in, as it stands, since it may be deeper than what is read.
fn put_told(
    out: &mut Vec<u8>,
    names: &Names,
    numbers: &[Binding],
    term: &Term,
) -> Result<(), Memory>
    ensures { OnOk result (out.new.items ≡ out.old.items ++ term_text names.now (under (sub_of numbers.now) (tm_of term.now))) }
{
    match numbers {
        [] => put_plain(out, names, term),
        [_, ..] => put_with(out, names, numbers, term),
    }
}

/// Puts the line of a variable, unless it is written `_`.
fn put_value(
    out: &mut Vec<u8>,
    names: &Names,
    numbers: &[Binding],
    variable: Option<NameId>,
    term: &Term,
) -> Result<(), Memory>
    ensures { OnOk result (out.new.items ≡ out.old.items ++ flat_map (spec.value_line names.now (sub_of numbers.now)) (spec.value_of variable (tm_of term.now))) }
{
    match variable {
        None => Ok(()),
        Some(name) => {
            put(out, "% ")?;
            put(out, text_at(names, name))?;
            put(out, " = ")?;
            put_told(out, names, numbers, term)?;
            put(out, "\n")
        }
    }
}

/// Puts a line for each named variable, with the numbers put in.
pub(crate) fn put_values(
    out: &mut Vec<u8>,
    names: &Names,
    numbers: &[Binding],
    variables: &[Option<NameId>],
    terms: &[Term],
) -> Result<(), Memory>
    ensures { OnOk result (out.new.items ≡ out.old.items ++ flat_map (spec.value_line names.now (sub_of numbers.now)) (spec.values_of variables.now (tms_of terms.now))) }
{
    let mut rest = terms;
    for variable in variables {
        match rest.split_first() {
            None => return Ok(()),
            Some((term, others)) => {
                put_value(out, names, numbers, *variable, term)?;
                rest = others;
            }
        }
    }
    Ok(())
}

/// Puts the variables of the term behind those found before, unless the query's variable is written `_`.
fn push_shown(variable: Option<NameId>, term: &Term, found: &mut VarList) -> Result<(), Memory>
    ensures { OnOk result (found.new ≡ found.old ++ spec.shown_variables (spec.value_of variable (tm_of term.now))) }
{
    match variable {
        None => Ok(()),
        Some(_) => push_variables(term, found),
    }
}

/// The variables of the terms of the named variables.
pub(crate) fn shown_variables(
    alloc: Global,
    variables: &[Option<NameId>],
    terms: &[Term],
) -> Result<VarList, Memory>
    ensures { IfOk result (λ found. found ≡ spec.shown_variables (spec.values_of variables.now (tms_of terms.now))) }
{
    let mut found = VarList::new(alloc);
    let mut rest = terms;
    for variable in variables {
        match rest.split_first() {
            None => return Ok(found),
            Some((term, others)) => {
                push_shown(*variable, term, &mut found)?;
                rest = others;
            }
        }
    }
    Ok(found)
}
