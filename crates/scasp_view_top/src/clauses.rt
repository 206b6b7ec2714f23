//! The clauses of a program in words, and its queries with terms for their variables.
ghost use Rattle.std.specs.Prelude.{◌≡◌, ◌++◌, codes, map, IfOk, OnOk};
ghost use Rattle.scasp_print_program.specs.Programs.{clause_text};
ghost use Rattle.scasp_view_top.specs.Clauses.Clauses as spec;

mod queries;
mod variables;

use crate::clauses::variables::rule_variables;
use crate::trees::{Text, Wording, put_lit};
pub use queries::query_line;
use scasp_list::{Memory, Sequence};
use scasp_name::Names;
use scasp_print::put_con;
use scasp_print_program::{Shown, put_body, put_clause};
use scasp_syntax::{Clause, Clauses, FlatItem, flat};
use std::alloc::Global;

/// Puts an item of a flat body at the end.
fn put_item(out: &mut Vec<u8>, names: &Names, item: &FlatItem) -> Result<(), Memory>
    ensures { OnOk result (out.new.items ≡ out.old.items ++ spec.item_text names.now item.now) }
{
    match item {
        FlatItem::Call(lit) => put_lit(out, names, lit),
        FlatItem::Test(con) => put_con(out, names, con),
    }
}

/// The text of an item of a flat body.
fn item_text(alloc: Global, names: &Names, item: &FlatItem) -> Result<Text, Memory>
    ensures { IfOk result (λ text. text ≡ spec.item_text names.now item.now) }
{
    let mut text = Vec::new(alloc);
    put_item(&mut text, names, item)?;
    Ok(Text::new(text))
}

/// The texts of the items of a flat body.
fn item_texts(alloc: Global, names: &Names, items: &[FlatItem]) -> Result<Sequence<Text>, Memory>
    ensures { IfOk result (λ texts. texts ≡ map (spec.item_text names.now) items.now) }
{
    let mut texts = Sequence::new(alloc);
    for item in items {
        texts.push(item_text(alloc, names, item)?)?;
    }
    Ok(texts)
}

/// The items of the flat body of a clause in words.
fn items_in_words(alloc: Global, names: &Names, clause: &Clause) -> Result<Sequence<Text>, Memory>
    ensures { IfOk result (λ texts. texts ≡ spec.items_in_words names.now clause.now) }
{
    let items = flat(alloc, clause)?;
    item_texts(alloc, names, items.as_slice())
}

/// A clause in words, with the end of its line.
fn whole_in_words(alloc: Global, names: &Names, clause: &Clause) -> Result<Text, Memory>
    ensures { IfOk result (λ text. text ≡ clause_text names.now clause.now) }
{
    let mut text = Vec::new(alloc);
    put_clause(&mut text, alloc, names, clause)?;
    Ok(Text::new(text))
}

/// The body of a clause in words, behind ` :- `; nothing of a fact.
fn body_in_words(alloc: Global, names: &Names, clause: &Clause) -> Result<Text, Memory>
    ensures { IfOk result (λ text. text ≡ spec.body_in_words names.now clause.now) }
{
    let variables = rule_variables(alloc, clause.vars)?;
    let shown = Shown::new(names, variables.as_slice());
    let mut text = Vec::new(alloc);
    put_body(&mut text, &shown, " :- ", &clause.body)?;
    Ok(Text::new(text))
}

/// A clause in words, its body and the items of its flat body.
fn in_words(alloc: Global, names: &Names, clause: &Clause) -> Result<Wording, Memory>
    ensures { IfOk result (λ wording. wording ≡ spec.in_words names.now clause.now) }
{
    Ok(Wording {
        whole: whole_in_words(alloc, names, clause)?,
        body: body_in_words(alloc, names, clause)?,
        items: items_in_words(alloc, names, clause)?,
    })
}

/// Each clause in words, with its body and the items of its flat body.
///
/// # Errors
///
/// Want of memory.
pub fn clauses_in_words(
    alloc: Global,
    names: &Names,
    clauses: &Clauses,
) -> Result<Vec<Wording>, Memory>
    ensures { IfOk result (λ words. words.items ≡ map (spec.in_words names.now) clauses.now) }
{
    let mut words = Vec::new(alloc);
    for clause in clauses.as_slice() {
        words.push(in_words(alloc, names, clause)?)?;
    }
    Ok(words)
}
