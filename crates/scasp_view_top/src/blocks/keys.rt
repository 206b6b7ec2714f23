//! What tells answers apart.
ghost use Rattle.std.specs.Prelude.{◌≡◌, ◌++◌, true, flat_map, IfOk, OnOk};
ghost use Rattle.std.specs.List.{list_any};
ghost use Rattle.std.specs.Str.{bytes_eq};
ghost use Rattle.scasp_cert.specs.Text.Block.{given_line};
ghost use Rattle.scasp_cert.specs.Text.Terms.{terms_text};
ghost use Rattle.scasp_view_top.specs.Blocks.Judgements as spec;
ghost use Rattle.scasp_view_top.specs.Blocks.View.{judgement_of};

use crate::blocks::judged::Judged;
use crate::trees::Text;
use scasp_list::Memory;
use scasp_name::Names;
use scasp_print::{put_con, put_term};
use scasp_print_words::{put, put_separator};
use scasp_syntax::{Con, Cons, Terms};
use std::alloc::Global;

/// Puts terms at the end, with commas between them.
fn put_terms(out: &mut Vec<u8>, names: &Names, terms: &Terms) -> Result<(), Memory>
    ensures { OnOk result (out.new.items ≡ out.old.items ++ terms_text names.now true terms.now) }
{
    let mut is_first = true;
    for term in terms.as_slice() {
        put_separator(out, is_first, ",")?;
        put_term(out, names, term)?;
        is_first = false;
    }
    Ok(())
}

#[tactic(auto, unfolding(scasp_cert::specs::Text::Block::given_line))]
fn put_given_line(out: &mut Vec<u8>, names: &Names, con: &Con) -> Result<(), Memory>
    ensures { OnOk result (out.new.items ≡ out.old.items ++ given_line names.now con.now) }
{
    put(out, "given ")?;
    put_con(out, names, con)?;
    put(out, "\n")
}

/// Puts the lines of what is given at the end.
pub(crate) fn put_given(out: &mut Vec<u8>, names: &Names, given: &Cons) -> Result<(), Memory>
    ensures { OnOk result (out.new.items ≡ out.old.items ++ flat_map (given_line names.now) given.now) }
{
    for con in given.as_slice() {
        put_given_line(out, names, con)?;
    }
    Ok(())
}

/// What tells an answer from others.
#[tactic(auto, unfolding(crate::specs::Blocks::Judgements::key_of))]
pub(crate) fn key_of(alloc: Global, names: &Names, block: &Judged<'_>) -> Result<Text, Memory>
    ensures { IfOk result (λ key. key ≡ spec.key_of names.now (judgement_of block.now)) }
{
    let mut key = Vec::from_slice(alloc, block.worth.as_slice())?;
    put_terms(&mut key, names, &block.cert.terms)?;
    put(&mut key, "\n")?;
    put_given(&mut key, names, &block.cert.given)?;
    Ok(Text::new(key))
}

/// Whether the text is one of these.
pub(crate) fn is_among(texts: &[Text], text: &Text) -> bool
    ensures { result ≡ list_any (bytes_eq text.now) texts.now }
{
    for other in texts {
        if text.as_bytes() == other.as_bytes() {
            return true;
        }
    }
    false
}
