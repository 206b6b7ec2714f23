//! The lines of justification trees: one for each node, rule and case.
ghost use Rattle.std.specs.Prelude.{◌≡◌, ◌++◌, OnOk, codes, decimal};
ghost use Rattle.scasp_cert.specs.Text.Terms.{atom_text, lit_text, list_text};
ghost use Rattle.scasp_cert.specs.Text.Constraints.{con_text};
ghost use Rattle.scasp_cert.specs.Text.Hints.{hint_text};
ghost use Rattle.scasp_cert.specs.Text.Trees as spec;

use crate::constraints::put_con;
use crate::hints::put_hint;
use crate::indents::put_indent;
use crate::terms::{put_atom, put_list, put_lit};
use scasp_name::{Memory, Names};
use scasp_print_words::{put, put_number};
use scasp_syntax::{Atom, Con, Hint, Lit, Terms};

fn put_pos(
    out: &mut Vec<u8>,
    names: &Names,
    atom: &Atom,
    rule: u64,
    terms: &Terms,
) -> Result<(), Memory>
    ensures { OnOk result (out.new.items ≡ out.old.items ++ (codes "pos " ++ atom_text names.now atom.now ++ codes " rule " ++ decimal rule ++ codes " " ++ list_text names.now terms.now)) }
{
    put(out, "pos ")?;
    put_atom(out, names, atom)?;
    put(out, " rule ")?;
    put_number(out, rule)?;
    put(out, " ")?;
    put_list(out, names, terms)
}

#[tactic(auto, unfolding(scasp_cert::specs::Text::Trees::line_text))]
pub(crate) fn put_pos_line(
    out: &mut Vec<u8>,
    names: &Names,
    depth: u64,
    atom: &Atom,
    rule: u64,
    terms: &Terms,
) -> Result<(), Memory>
    ensures { OnOk result (out.new.items ≡ out.old.items ++ spec.line_text depth (codes "pos " ++ atom_text names.now atom.now ++ codes " rule " ++ decimal rule ++ codes " " ++ list_text names.now terms.now)) }
{
    put_indent(out, depth)?;
    put_pos(out, names, atom, rule, terms)?;
    put(out, "\n")
}

#[tactic(auto, unfolding(scasp_cert::specs::Text::Trees::line_text))]
pub(crate) fn put_neg_line(
    out: &mut Vec<u8>,
    names: &Names,
    depth: u64,
    atom: &Atom,
) -> Result<(), Memory>
    ensures { OnOk result (out.new.items ≡ out.old.items ++ spec.line_text depth (codes "neg " ++ atom_text names.now atom.now)) }
{
    put_indent(out, depth)?;
    put(out, "neg ")?;
    put_atom(out, names, atom)?;
    put(out, "\n")
}

#[tactic(auto, unfolding(scasp_cert::specs::Text::Trees::line_text))]
pub(crate) fn put_loop_line(
    out: &mut Vec<u8>,
    names: &Names,
    depth: u64,
    lit: &Lit,
    at: u64,
) -> Result<(), Memory>
    ensures { OnOk result (out.new.items ≡ out.old.items ++ spec.line_text depth (codes "loop " ++ lit_text names.now lit.now ++ codes " at " ++ decimal at)) }
{
    put_indent(out, depth)?;
    put(out, "loop ")?;
    put_lit(out, names, lit)?;
    put(out, " at ")?;
    put_number(out, at)?;
    put(out, "\n")
}

#[tactic(auto, unfolding(scasp_cert::specs::Text::Trees::line_text))]
pub(crate) fn put_seen_line(
    out: &mut Vec<u8>,
    names: &Names,
    depth: u64,
    lit: &Lit,
    at: u64,
) -> Result<(), Memory>
    ensures { OnOk result (out.new.items ≡ out.old.items ++ spec.line_text depth (codes "seen " ++ lit_text names.now lit.now ++ codes " at " ++ decimal at)) }
{
    put_indent(out, depth)?;
    put(out, "seen ")?;
    put_lit(out, names, lit)?;
    put(out, " at ")?;
    put_number(out, at)?;
    put(out, "\n")
}

#[tactic(auto, unfolding(scasp_cert::specs::Text::Trees::line_text))]
pub(crate) fn put_test_line(
    out: &mut Vec<u8>,
    names: &Names,
    depth: u64,
    con: &Con,
    hint: &Hint,
) -> Result<(), Memory>
    ensures { OnOk result (out.new.items ≡ out.old.items ++ spec.line_text depth (codes "test " ++ con_text names.now con.now ++ codes " " ++ hint_text hint.now)) }
{
    put_indent(out, depth)?;
    put(out, "test ")?;
    put_con(out, names, con)?;
    put(out, " ")?;
    put_hint(out, hint)?;
    put(out, "\n")
}

#[tactic(auto, unfolding(scasp_cert::specs::Text::Trees::line_text))]
pub(crate) fn put_split_line(
    out: &mut Vec<u8>,
    names: &Names,
    depth: u64,
    con: &Con,
) -> Result<(), Memory>
    ensures { OnOk result (out.new.items ≡ out.old.items ++ spec.line_text depth (codes "split " ++ con_text names.now con.now)) }
{
    put_indent(out, depth)?;
    put(out, "split ")?;
    put_con(out, names, con)?;
    put(out, "\n")
}

#[tactic(auto, unfolding(scasp_cert::specs::Text::Trees::line_text))]
pub(crate) fn put_void_line(out: &mut Vec<u8>, depth: u64, hint: &Hint) -> Result<(), Memory>
    ensures { OnOk result (out.new.items ≡ out.old.items ++ spec.line_text depth (codes "void " ++ hint_text hint.now)) }
{
    put_indent(out, depth)?;
    put(out, "void ")?;
    put_hint(out, hint)?;
    put(out, "\n")
}

#[tactic(auto, unfolding(scasp_cert::specs::Text::Trees::line_text))]
pub(crate) fn put_leaf_line(out: &mut Vec<u8>, depth: u64, item: u64) -> Result<(), Memory>
    ensures { OnOk result (out.new.items ≡ out.old.items ++ spec.line_text depth (codes "leaf " ++ decimal item)) }
{
    put_indent(out, depth)?;
    put(out, "leaf ")?;
    put_number(out, item)?;
    put(out, "\n")
}

#[tactic(auto, unfolding(scasp_cert::specs::Text::Trees::line_text))]
pub(crate) fn put_head_line(out: &mut Vec<u8>, depth: u64) -> Result<(), Memory>
    ensures { OnOk result (out.new.items ≡ out.old.items ++ spec.line_text depth (codes "head")) }
{
    put_indent(out, depth)?;
    put(out, "head\n")
}

#[tactic(auto, unfolding(scasp_cert::specs::Text::Trees::line_text))]
pub(crate) fn put_rule_line(out: &mut Vec<u8>, depth: u64, rule: u64) -> Result<(), Memory>
    ensures { OnOk result (out.new.items ≡ out.old.items ++ spec.line_text depth (codes "rule " ++ decimal rule)) }
{
    put_indent(out, depth)?;
    put(out, "rule ")?;
    put_number(out, rule)?;
    put(out, "\n")
}
