//! What is said on each line.
ghost use Rattle.std.specs.Prelude.{◌≡◌, ◌++◌, IfOk, OnOk, option_copied};
ghost use Rattle.scasp_cert.specs.Text.Terms.{lit_text};
ghost use Rattle.scasp_view_top.specs.Trees.Labels as spec;

use crate::trees::numbering::item_numbered;
use crate::trees::view::View;
use crate::trees::wording::{Text, Wording};
use scasp_list::Memory;
use scasp_name::Names;
use scasp_print::put_con;
use scasp_print_atoms::put_atom;
use scasp_print_words::{put, put_number};
use scasp_syntax::{Atom, Con, Lit};
use std::alloc::Global;

/// Puts bytes at the end.
fn put_bytes(out: &mut Vec<u8>, bytes: &[u8]) -> Result<(), Memory>
    ensures { OnOk result (out.new.items ≡ out.old.items ++ bytes.now) }
{
    out.extend_from_slice(bytes)?;
    Ok(())
}

/// Puts a literal at the end.
#[tactic(auto, unfolding(scasp_cert::specs::Text::Terms::lit_text))]
pub(crate) fn put_lit(out: &mut Vec<u8>, names: &Names, lit: &Lit) -> Result<(), Memory>
    ensures { OnOk result (out.new.items ≡ out.old.items ++ lit_text names.now lit.now) }
{
    put(out, if lit.positive { "" } else { "not " })?;
    put_atom(out, names, &lit.atom)
}

/// Puts a clause with the end of its line.
fn put_clause(out: &mut Vec<u8>, clause: Option<&Wording>) -> Result<(), Memory>
    ensures { OnOk result (out.new.items ≡ out.old.items ++ spec.clause_words (option_copied clause.entry)) }
{
    match clause {
        None => put(out, "\n"),
        Some(clause) => {
            put(out, " ")?;
            put_bytes(out, clause.whole.as_bytes())
        }
    }
}

/// Puts the body of a clause.
fn put_body(out: &mut Vec<u8>, clause: Option<&Wording>) -> Result<(), Memory>
    ensures { OnOk result (out.new.items ≡ out.old.items ++ spec.body_words (option_copied clause.entry)) }
{
    match clause {
        None => Ok(()),
        Some(clause) => put_bytes(out, clause.body.as_bytes()),
    }
}

/// Puts the text of an item.
fn put_text(out: &mut Vec<u8>, text: Option<&Text>) -> Result<(), Memory>
    ensures { OnOk result (out.new.items ≡ out.old.items ++ spec.item_words (option_copied text.entry)) }
{
    match text {
        None => Ok(()),
        Some(text) => {
            put(out, " ")?;
            put_bytes(out, text.as_bytes())
        }
    }
}

/// Puts the item of this number of a clause.
fn put_item(out: &mut Vec<u8>, clause: Option<&Wording>, item: u64) -> Result<(), Memory>
    ensures { OnOk result (out.new.items ≡ out.old.items ++ spec.item_of (option_copied clause.entry) item) }
{
    match clause {
        None => Ok(()),
        Some(clause) => put_text(out, item_numbered(clause.items.as_slice(), item)),
    }
}

#[tactic(auto, unfolding(crate::specs::Trees::Labels::pos_label))]
pub(crate) fn pos_label(
    alloc: Global,
    view: &View<'_>,
    atom: &Atom,
    rule: u64,
) -> Result<Vec<u8>, Memory>
    ensures { IfOk result (λ label. label.items ≡ spec.pos_label view.now atom.now rule) }
{
    let mut label = Vec::new(alloc);
    put(&mut label, "pos ")?;
    put_atom(&mut label, view.names(), atom)?;
    put(&mut label, " rule ")?;
    put_number(&mut label, rule)?;
    put_body(&mut label, view.clause(rule))?;
    put(&mut label, "\n")?;
    Ok(label)
}

#[tactic(auto, unfolding(crate::specs::Trees::Labels::neg_label))]
pub(crate) fn neg_label(alloc: Global, view: &View<'_>, atom: &Atom) -> Result<Vec<u8>, Memory>
    ensures { IfOk result (λ label. label.items ≡ spec.neg_label view.now atom.now) }
{
    let mut label = Vec::new(alloc);
    put(&mut label, "neg ")?;
    put_atom(&mut label, view.names(), atom)?;
    put(&mut label, "\n")?;
    Ok(label)
}

#[tactic(auto, unfolding(crate::specs::Trees::Labels::rule_label))]
pub(crate) fn rule_label(alloc: Global, view: &View<'_>, rule: u64) -> Result<Vec<u8>, Memory>
    ensures { IfOk result (λ label. label.items ≡ spec.rule_label view.now rule) }
{
    let mut label = Vec::new(alloc);
    put(&mut label, "rule ")?;
    put_number(&mut label, rule)?;
    put_clause(&mut label, view.clause(rule))?;
    Ok(label)
}

#[tactic(auto, unfolding(crate::specs::Trees::Labels::check_label))]
pub(crate) fn check_label(alloc: Global, view: &View<'_>, clause: u64) -> Result<Vec<u8>, Memory>
    ensures { IfOk result (λ label. label.items ≡ spec.check_label view.now clause) }
{
    let mut label = Vec::new(alloc);
    put(&mut label, "check ")?;
    put_number(&mut label, clause)?;
    put_clause(&mut label, view.clause(clause))?;
    Ok(label)
}

#[tactic(auto, unfolding(crate::specs::Trees::Labels::leaf_label))]
pub(crate) fn leaf_label(
    alloc: Global,
    view: &View<'_>,
    clause: u64,
    item: u64,
) -> Result<Vec<u8>, Memory>
    ensures { IfOk result (λ label. label.items ≡ spec.leaf_label view.now clause item) }
{
    let mut label = Vec::new(alloc);
    put(&mut label, "leaf ")?;
    put_number(&mut label, item)?;
    put_item(&mut label, view.clause(clause), item)?;
    put(&mut label, "\n")?;
    Ok(label)
}

#[tactic(auto, unfolding(crate::specs::Trees::Labels::loop_label))]
pub(crate) fn loop_label(
    alloc: Global,
    view: &View<'_>,
    lit: &Lit,
    at: u64,
) -> Result<Vec<u8>, Memory>
    ensures { IfOk result (λ label. label.items ≡ spec.loop_label view.now lit.now at) }
{
    let mut label = Vec::new(alloc);
    put(&mut label, "loop ")?;
    put_lit(&mut label, view.names(), lit)?;
    put(&mut label, " at ")?;
    put_number(&mut label, at)?;
    put(&mut label, "\n")?;
    Ok(label)
}

#[tactic(auto, unfolding(crate::specs::Trees::Labels::seen_label))]
pub(crate) fn seen_label(
    alloc: Global,
    view: &View<'_>,
    lit: &Lit,
    at: u64,
) -> Result<Vec<u8>, Memory>
    ensures { IfOk result (λ label. label.items ≡ spec.seen_label view.now lit.now at) }
{
    let mut label = Vec::new(alloc);
    put(&mut label, "seen ")?;
    put_lit(&mut label, view.names(), lit)?;
    put(&mut label, " at ")?;
    put_number(&mut label, at)?;
    put(&mut label, "\n")?;
    Ok(label)
}

#[tactic(auto, unfolding(crate::specs::Trees::Labels::test_label))]
pub(crate) fn test_label(alloc: Global, view: &View<'_>, con: &Con) -> Result<Vec<u8>, Memory>
    ensures { IfOk result (λ label. label.items ≡ spec.test_label view.now con.now) }
{
    let mut label = Vec::new(alloc);
    put(&mut label, "test ")?;
    put_con(&mut label, view.names(), con)?;
    put(&mut label, "\n")?;
    Ok(label)
}

#[tactic(auto, unfolding(crate::specs::Trees::Labels::split_label))]
pub(crate) fn split_label(alloc: Global, view: &View<'_>, con: &Con) -> Result<Vec<u8>, Memory>
    ensures { IfOk result (λ label. label.items ≡ spec.split_label view.now con.now) }
{
    let mut label = Vec::new(alloc);
    put(&mut label, "split ")?;
    put_con(&mut label, view.names(), con)?;
    put(&mut label, "\n")?;
    Ok(label)
}
