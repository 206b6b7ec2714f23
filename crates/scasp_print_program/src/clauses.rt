//! Clauses and queries.
ghost use Rattle.std.specs.Prelude.{◌≡◌, ◌++◌, true, map, IfOk, OnOk};
ghost use Rattle.scasp_cert.specs.Text.Terms.{var_text};
ghost use Rattle.scasp_print_program.specs.Programs as spec;

use crate::items::put_items;
use crate::style::{Shown, VariableText};
use crate::terms::put_atom;
use scasp_list::{Memory, Sequence};
use scasp_name::{NameId, Names};
use scasp_print_words::{put, put_number, text_at};
use scasp_syntax::{Atom, Clause, Items, Query, VarNames};
use std::alloc::Global;

/// Puts `V0`, `V1`, .. at the end.
pub(crate) fn put_rule_variable(out: &mut Vec<u8>, var: u64) -> Result<(), Memory>
    ensures { OnOk result (out.new.items ≡ out.old.items ++ var_text var) }
{
    put(out, "V")?;
    put_number(out, var)
}

/// `V0`, `V1`, ..
fn rule_variable(alloc: Global, var: u64) -> Result<VariableText, Memory>
    ensures { IfOk result (λ text. text ≡ var_text var) }
{
    let mut text = Vec::new(alloc);
    put_rule_variable(&mut text, var)?;
    Ok(VariableText::new(text))
}

/// The texts of so many variables of a rule.
fn rule_variables(alloc: Global, count: u64) -> Result<Sequence<VariableText>, Memory>
    ensures { IfOk result (λ texts. texts ≡ spec.rule_variables 0 count) }
{
    let mut texts = Sequence::new(alloc);
    for var in 0..count {
        texts.push(rule_variable(alloc, var)?)?;
    }
    Ok(texts)
}

/// The name of a query's variable; `_` for one without a name.
fn query_variable(
    alloc: Global,
    names: &Names,
    name: Option<NameId>,
) -> Result<VariableText, Memory>
    ensures { IfOk result (λ text. text ≡ spec.query_variable names.now name) }
{
    match name {
        None => VariableText::from_str(alloc, "_"),
        Some(name) => VariableText::from_str(alloc, text_at(names, name)),
    }
}

/// The texts of a query's variables.
fn query_variables(
    alloc: Global,
    names: &Names,
    vars: &VarNames,
) -> Result<Sequence<VariableText>, Memory>
    ensures { IfOk result (λ texts. texts ≡ map (spec.query_variable names.now) vars.now) }
{
    let mut texts = Sequence::new(alloc);
    for name in vars.as_slice() {
        texts.push(query_variable(alloc, names, *name)?)?;
    }
    Ok(texts)
}

fn put_head(out: &mut Vec<u8>, shown: &Shown<'_>, head: &Option<Atom>) -> Result<(), Memory>
    ensures { OnOk result (out.new.items ≡ out.old.items ++ spec.head_text shown.now head.now) }
{
    match head {
        None => Ok(()),
        Some(atom) => put_atom(out, shown, atom),
    }
}

/// Puts a body at the end behind the sign; an empty one behind nothing.
pub fn put_body(
    out: &mut Vec<u8>,
    shown: &Shown<'_>,
    sign: &str,
    body: &Items,
) -> Result<(), Memory>
    ensures { OnOk result (out.new.items ≡ out.old.items ++ spec.body_text shown.now sign.now body.now) }
{
    if body.len() == 0 {
        return Ok(());
    }
    put(out, sign)?;
    put_items(out, shown, body)
}

/// The sign between a head and a body.
fn sign(head: &Option<Atom>) -> &'static str
    ensures { result.now ≡ spec.sign_text head.now }
{
    match head {
        None => ":- ",
        Some(_) => " :- ",
    }
}

/// Puts a clause and the line's end at the end.
#[tactic(auto, unfolding(crate::specs::Programs::clause_text))]
pub fn put_clause(
    out: &mut Vec<u8>,
    alloc: Global,
    names: &Names,
    clause: &Clause,
) -> Result<(), Memory>
    ensures { OnOk result (out.new.items ≡ out.old.items ++ spec.clause_text names.now clause.now) }
{
    let variables = rule_variables(alloc, clause.vars)?;
    let shown = Shown::new(names, variables.as_slice());
    put_head(out, &shown, &clause.head)?;
    put_body(out, &shown, sign(&clause.head), &clause.body)?;
    put(out, ".\n")
}

/// Puts a query and the line's end at the end.
#[tactic(auto, unfolding(crate::specs::Programs::query_text))]
pub fn put_query(
    out: &mut Vec<u8>,
    alloc: Global,
    names: &Names,
    query: &Query,
) -> Result<(), Memory>
    ensures { OnOk result (out.new.items ≡ out.old.items ++ spec.query_text names.now query.now) }
{
    let variables = query_variables(alloc, names, &query.names)?;
    let shown = Shown::new(names, variables.as_slice());
    put(out, "?- ")?;
    put_items(out, &shown, &query.body)?;
    put(out, ".\n")
}
